//! The lines of a formula.

ghost use Rattle.std.specs.Prelude.{◌≡◌, ◌++◌, OnOk, OnErr, map};
ghost use Rattle.sp_core.specs.Tree.{tree};
ghost use Rattle.sp_report.specs.Formulas.{expr_line, formula_text, hypothesis_lines};

use crate::expressions::push_expr;
use crate::headings::push_heading;
use sp_core::{Expr, Formal, Spec};
use sp_sequent::Formula;
use sp_text::{Memory, push_text};
use std::alloc::Global;

/// Appends a line of a word and an expression.
fn push_expr_line(
    alloc: Global,
    out: &mut Vec<u8>,
    word: &[u8],
    spec: &Spec,
    vars: &[Formal],
    e: &Expr,
) -> Result<(), Memory>
    ensures { OnOk result (out.new.items ≡ out.old.items ++ expr_line word.now spec.now vars.now (tree e.now)) }
{
    push_text(alloc, out, word)?;
    push_expr(alloc, out, spec, vars, e)?;
    push_text(alloc, out, b"\n")
}

fn push_hypotheses(
    alloc: Global,
    out: &mut Vec<u8>,
    spec: &Spec,
    vars: &[Formal],
    hyps: &[Expr],
) -> Result<(), Memory>
    ensures { OnOk result (out.new.items ≡ out.old.items ++ hypothesis_lines spec.now vars.now (map tree hyps.now)) }
{
    for hyp in hyps {
        push_expr_line(alloc, out, b"HYP ", spec, vars, hyp)?;
    }
    Ok(())
}

fn push_formula(
    alloc: Global,
    out: &mut Vec<u8>,
    spec: &Spec,
    n: u32,
    f: &Formula,
) -> Result<(), Memory>
    ensures { OnOk result (out.new.items ≡ out.old.items ++ formula_text spec.now n f.now) }
{
    push_text(alloc, out, b"FORMULA ")?;
    push_heading(alloc, out, u64::from(n), f)?;
    push_text(alloc, out, b"\n")?;
    push_hypotheses(alloc, out, spec, f.vars.items(), f.hyps.items())?;
    push_expr_line(alloc, out, b"GOAL ", spec, f.vars.items(), &f.goal)
}

/// Appends the lines of the n-th formula: `FORMULA n fun kind`, `HYP e` for each hypothesis in order, and `GOAL e`.
///
/// # Errors
/// `Memory` where they can't be made; `out` is then as before.
pub fn print_formula(
    alloc: Global,
    spec: &Spec,
    n: u32,
    formula: &Formula,
    out: &mut Vec<u8>,
) -> Result<(), Memory>
    ensures ok { OnOk result (out.new.items ≡ out.old.items ++ formula_text spec.now n formula.now) }
    ensures err { OnErr result (out.new.items ≡ out.old.items) }
{
    let mut made = Vec::new(alloc);
    push_formula(alloc, &mut made, spec, n, formula)?;
    push_text(alloc, out, &made)
}
