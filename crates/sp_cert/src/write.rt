//! Certificates written as their text.

ghost use Rattle.std.specs.Prelude.{◌≡◌, ◌++◌, [], ◌∷◌, OnOk, OnErr, codes, decimal, map, length};
ghost use Rattle.sp_cert.specs.Spelling.{fact_words, formula_line, formula_lines, leaf_line, spelling, split_line, step_line, text, tree_lines};
ghost use Rattle.sp_cert.specs.Within.{IsFile};
ghost use Rattle.sp_cert.specs.Tree.{file_of, tree};

use crate::{Cert, CertFile};
use itoa::Buffer;
use sp_rules::{Fact, Step};
use sp_text::{Memory, push_text};
use std::alloc::Global;

/// Appends the bytes, and then the number.
fn push_field(alloc: Global, out: &mut Vec<u8>, mark: &[u8], n: usize) -> Result<(), Memory>
    ensures { OnOk result (out.new.items ≡ out.old.items ++ (mark.now ++ decimal n)) }
{
    push_text(alloc, out, mark)?;
    let mut buffer = Buffer::new();
    push_text(alloc, out, buffer.format(n).as_bytes())
}

/// Appends the bytes, the number and a line feed.
fn push_line(alloc: Global, out: &mut Vec<u8>, mark: &[u8], n: usize) -> Result<(), Memory>
    ensures { OnOk result (out.new.items ≡ out.old.items ++ ((mark.now ++ decimal n) ++ 10 ∷ [])) }
{
    push_field(alloc, out, mark, n)?;
    push_text(alloc, out, b"\n")
}

fn push_fact(alloc: Global, out: &mut Vec<u8>, fact: Fact) -> Result<(), Memory>
    ensures { OnOk result (out.new.items ≡ out.old.items ++ fact_words fact) }
{
    match fact {
        Fact::Eq(i, j) => {
            push_field(alloc, out, b"EQ ", i as usize)?;
            push_field(alloc, out, b" ", j as usize)
        }
        Fact::Le(i, j) => {
            push_field(alloc, out, b"LE ", i as usize)?;
            push_field(alloc, out, b" ", j as usize)
        }
    }
}

/// Appends a step's line.
#[tactic(auto, unfolding(crate::specs::Spelling::step_line))]
fn push_step(alloc: Global, out: &mut Vec<u8>, step: &Step) -> Result<(), Memory>
    ensures { OnOk result (out.new.items ≡ out.old.items ++ (step_line step.now ++ 10 ∷ [])) }
{
    push_fact(alloc, out, step.fact)?;
    push_field(alloc, out, b" K", usize::from(step.rule))?;
    push_field(alloc, out, b" ", step.p as usize)?;
    push_line(alloc, out, b" ", step.q as usize)
}

fn push_steps(alloc: Global, out: &mut Vec<u8>, steps: &[Step]) -> Result<(), Memory>
    ensures { OnOk result (out.new.items ≡ out.old.items ++ text (map step_line steps.now)) }
{
    for step in steps {
        push_step(alloc, out, step)?;
    }
    Ok(())
}

#[cycle(write)]
#[tactic(auto, using(crate::proofs::Texts::split_pushed, crate::proofs::Texts::leaf_pushed), unfolding(crate::specs::Spelling::leaf_line, crate::specs::Spelling::split_line, crate::specs::Spelling::steps_line))]
fn push_tree(alloc: Global, out: &mut Vec<u8>, cert: &Cert) -> Result<(), Memory>
    ensures { OnOk result (out.new.items ≡ out.old.items ++ text (tree_lines (tree cert.now))) }
{
    match cert {
        Cert::Split(atom, first, second) => {
            push_line(alloc, out, b"SPLIT ", *atom as usize)?;
            push_tree(alloc, out, first.get())?;
            push_tree(alloc, out, second.get())?;
            Ok(())
        }
        Cert::Leaf(steps) => {
            push_line(alloc, out, b"LEAF ", steps.items().len())?;
            push_steps(alloc, out, steps.items())?;
            Ok(())
        }
        Cert::Steps(steps, below) => {
            push_line(alloc, out, b"STEPS ", steps.items().len())?;
            push_steps(alloc, out, steps.items())?;
            push_tree(alloc, out, below.get())?;
            Ok(())
        }
    }
}

fn push_formulas(alloc: Global, out: &mut Vec<u8>, certs: &[Cert]) -> Result<(), Memory>
    ensures { OnOk result (out.new.items ≡ out.old.items ++ text (formula_lines 1 (map tree certs.now))) }
{
    for (place, cert) in certs.iter().enumerate() {
        push_line(alloc, out, b"FORMULA ", place + 1)?;
        push_tree(alloc, out, cert)?;
    }
    Ok(())
}

/// Appends the text of a certificate file: of format 1 without STEPS nodes, or of format 2, with at most 4,294,967,295
/// certificates, whose rules are 1 to 23, whose depth is at most 64 and whose nodes have at most 4,294,967,295 steps.
///
/// # Errors
/// `Memory` where it can't be made; `out` is then as before.
#[tactic(auto, unfolding(crate::specs::Spelling::first_line))]
pub fn write_cert(alloc: Global, file: &CertFile, out: &mut Vec<u8>) -> Result<(), Memory>
    requires { IsFile 64 (file_of file.now) }
    ensures ok { OnOk result (out.new.items ≡ out.old.items ++ spelling (file_of file.now)) }
    ensures err { OnErr result (out.new.items ≡ out.old.items) }
{
    let mut made = Vec::new(alloc);
    push_line(alloc, &mut made, b"CERT ", usize::from(file.format))?;
    push_formulas(alloc, &mut made, &file.certs)?;
    push_text(alloc, out, &made)
}
