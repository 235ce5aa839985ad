//! What the expression of a definition reads, at a call of it.

ghost use Rattle.std.specs.Prelude.{◌≡◌, List, map};
ghost use Rattle.sp_core.specs.Tree.{tree, trees_of};
ghost use Rattle.sp_text.specs.Violations.{first};
ghost use Rattle.sp_text.specs.declared.violation.Violation.{Violation as ViolationValue};
ghost use Rattle.sp_reads.specs.Reads as spec_reads;
ghost use Rattle.sp_reads.specs.Reads.{AreFirsts};

use sp_core::Expr;
use sp_text::{Rule, Span, Violation, breaks, earlier};

pub(crate) fn read(flags: &[bool], place: Span, rule: Rule, g: u16) -> Option<Violation>
    ensures { result ≡ first (spec_reads.read flags.now place rule g) }
{
    match flags.get(g as usize) {
        Some(true) => breaks(place, rule),
        _ => None,
    }
}

fn nth(args: &[Option<Violation>], k: u32) -> Option<Violation>
    ensures { (as' : List (List ViolationValue)) → AreFirsts as' args.now → result ≡ first (spec_reads.nth_list as' k) }
{
    match args.get(k as usize) {
        Some(f) => *f,
        None => None,
    }
}

/// The first read of a flagged V-function, from the first of each argument.
#[cycle(first_read)]
#[tactic(auto, using(crate::proofs::Nodes::nodes_some))]
pub fn first_read(
    flags: &[bool],
    place: Span,
    rule: Rule,
    args: &[Option<Violation>],
    e: &Expr,
) -> Option<Violation>
    ensures { (as' : List (List ViolationValue)) → AreFirsts as' args.now → result ≡ first (spec_reads.reads_put flags.now place rule as' (tree e.now)) }
{
    match e {
        Expr::Const(_) => None,
        Expr::Var(k) => nth(args, *k),
        Expr::Not(a) => first_read(flags, place, rule, args, a.get()),
        Expr::Two(_, a, b) => earlier(
            first_read(flags, place, rule, args, a.get()),
            first_read(flags, place, rule, args, b.get()),
        ),
        Expr::If(c, a, b) => earlier(
            first_read(flags, place, rule, args, c.get()),
            earlier(
                first_read(flags, place, rule, args, a.get()),
                first_read(flags, place, rule, args, b.get()),
            ),
        ),
        Expr::Param(_, parts) => first_read_in(flags, place, rule, args, parts.as_slice()),
        Expr::Look(g, parts) => earlier(
            read(flags, place, rule, *g),
            first_read_in(flags, place, rule, args, parts.as_slice()),
        ),
        Expr::Every(_, _, a) => first_read(flags, place, rule, args, a.get()),
        Expr::New(g, parts) => earlier(
            read(flags, place, rule, *g),
            first_read_in(flags, place, rule, args, parts.as_slice()),
        ),
    }
}

#[cycle(first_read)]
#[tactic(auto, using(crate::proofs::Nodes::nodes_some))]
fn first_read_in(
    flags: &[bool],
    place: Span,
    rule: Rule,
    args: &[Option<Violation>],
    parts: &[Expr],
) -> Option<Violation>
    ensures { (as' : List (List ViolationValue)) → AreFirsts as' args.now → result ≡ first (spec_reads.reads_put_in flags.now place rule as' (trees_of (map tree parts.now))) }
{
    if let [first, rest @ ..] = parts {
        return earlier(
            first_read(flags, place, rule, args, first),
            first_read_in(flags, place, rule, args, rest),
        );
    }
    None
}
