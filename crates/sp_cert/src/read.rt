//! Certificates read from their text.

ghost use Rattle.std.specs.Prelude.{◌≡◌, ◌≤◌, length, MatchResult};
ghost use Rattle.sp_cert.specs.Input.{Reads, too_deep_at};
ghost use Rattle.sp_cert.specs.Reader as spec;
ghost use Rattle.sp_cert.specs.Tree.{File, file_of, tree, trees};
ghost use Rattle.sp_cert.specs.Views.{same};
ghost use Rattle.sp_cert.specs.Spelling.{spelling};
ghost use Rattle.sp_cert.specs.Within.{IsFile};
ghost use Rattle.sp_cert.specs.Answers.{Answers};
ghost use Rattle.sp_text.specs.declared.fault.TextFault.TheVariants as fault;

use crate::line::NodeLine;
use crate::lines::Lines;
use crate::{Cert, CertFile};
use sp_rules::Step;
use sp_text::{Limit, MOST_CERTIFICATE_DEPTH, Quantity, Sequence, Span, TextFault};
use sqlite_items::Boxed;
use std::alloc::Global;

/// So many steps.
fn steps(alloc: Global, lines: &mut Lines<'_>, count: u32) -> Result<Sequence<Step>, TextFault>
    ensures { Reads same (spec.steps count lines.old) result lines.new }
{
    let mut steps = Vec::new(alloc);
    for _taken in 0..count {
        steps.push(lines.step()?)?;
    }
    Ok(Sequence::new(steps))
}

/// A leaf's steps.
#[tactic(auto, unfolding(crate::specs::Reader::leaf))]
fn leaf(alloc: Global, lines: &mut Lines<'_>, count: u32) -> Result<Cert, TextFault>
    ensures { Reads tree (spec.leaf count lines.old) result lines.new }
{
    Ok(Cert::Leaf(steps(alloc, lines, count)?))
}

/// A tree of at most so many SPLIT and STEPS lines in one another.
#[cycle(tree)]
#[tactic(auto, using(crate::proofs::Branches::tree_bad, crate::proofs::Branches::tree_deep, crate::proofs::Branches::tree_deep_steps, crate::proofs::Branches::tree_front, crate::proofs::Branches::tree_split, crate::proofs::Branches::tree_leaf))]
fn one_tree(alloc: Global, lines: &mut Lines<'_>, format: u8, depth: u32) -> Result<Cert, TextFault>
    ensures { Reads tree (spec.tree_within format depth lines.old) result lines.new }
{
    let span = lines.span();
    match lines.node(format)? {
        NodeLine::Split(atom) => {
            if depth == 0 {
                return Err(too_deep(span));
            }
            split(alloc, lines, format, depth - 1, atom)
        }
        NodeLine::Leaf(count) => leaf(alloc, lines, count),
        NodeLine::Steps(count) => {
            if depth == 0 {
                return Err(too_deep(span));
            }
            front(alloc, lines, format, depth - 1, count)
        }
    }
}

/// The two branches of a SPLIT line.
#[cycle(tree)]
#[tactic(auto, unfolding(crate::specs::Reader::split))]
fn split(
    alloc: Global,
    lines: &mut Lines<'_>,
    format: u8,
    depth: u32,
    atom: u32,
) -> Result<Cert, TextFault>
    ensures { Reads tree (spec.split (spec.tree_within format depth) atom lines.old) result lines.new }
{
    let first = one_tree(alloc, lines, format, depth)?;
    let second = one_tree(alloc, lines, format, depth)?;
    Ok(Cert::Split(atom, Boxed::new(alloc, first)?, Boxed::new(alloc, second)?))
}

/// So many steps, and the node below them.
#[cycle(tree)]
#[tactic(auto, unfolding(crate::specs::Reader::front))]
fn front(
    alloc: Global,
    lines: &mut Lines<'_>,
    format: u8,
    depth: u32,
    count: u32,
) -> Result<Cert, TextFault>
    ensures { Reads tree (spec.front (spec.tree_within format depth) count lines.old) result lines.new }
{
    let steps = steps(alloc, lines, count)?;
    let below = one_tree(alloc, lines, format, depth)?;
    Ok(Cert::Steps(steps, Boxed::new(alloc, below)?))
}

/// The line is nested too deep.
fn too_deep(span: Span) -> TextFault
    ensures { result ≡ too_deep_at span }
{
    TextFault::Limit(Limit {
        span,
        quantity: Quantity::CertificateDepth,
    })
}

/// The n-th formula: its line and its tree.
#[tactic(auto, unfolding(crate::specs::Reader::formula))]
fn formula(alloc: Global, lines: &mut Lines<'_>, format: u8, n: usize) -> Result<Cert, TextFault>
    ensures { Reads tree (spec.formula format 64 n lines.old) result lines.new }
{
    lines.formula(n)?;
    one_tree(alloc, lines, format, MOST_CERTIFICATE_DEPTH)
}

/// The formulas up to the text's end, each with its number.
fn formulas(alloc: Global, lines: &mut Lines<'_>, format: u8) -> Result<Vec<Cert>, TextFault>
    ensures { Reads trees (spec.formulas format 64 (length lines.old.rest) 1 lines.old) result lines.new }
{
    let mut certs = Vec::new(alloc);
    for turn in 0..lines.left() {
        if lines.is_done() {
            break;
        }
        certs.push(formula(alloc, lines, format, turn + 1)?)?;
    }
    Ok(certs)
}

/// A whole text.
#[tactic(auto, unfolding(crate::specs::Reader::file))]
fn file(alloc: Global, lines: &mut Lines<'_>) -> Result<CertFile, TextFault>
    ensures { Reads file_of (spec.file 64 lines.old) result lines.new }
{
    let format = lines.first()?;
    let certs = formulas(alloc, lines, format)?;
    Ok(CertFile { format, certs })
}

/// The certificates that a text spells, in the format that its first line names.
///
/// # Errors
/// The first line that doesn't fit, or that the text ends early, as the rule BadLine; the first SPLIT or STEPS line that
/// stands in 64 others, as the limit of certificate depth; `Memory`.
pub fn read_cert(alloc: Global, text: &[u8]) -> Result<CertFile, TextFault>
    requires { length text.now ≤ 67108864 }
    ensures answers { Answers text.now result }
    ensures only { (f : File) → IsFile 64 f → spelling f ≡ text.now → MatchResult result (λ r. file_of r ≡ f) (λ e. e ≡ fault.Memory) }
{
    file(alloc, &mut Lines::new(text))
}
