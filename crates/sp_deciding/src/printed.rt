//! The lines of decisions.

ghost use Rattle.std.specs.Prelude.{◌≡◌, ◌<◌, ◌++◌, OnOk, length, map};
ghost use Rattle.sp_formulas.specs.Formulas.{formula_as};
ghost use Rattle.sp_formulas.specs.Typed.{AreTypedFormulas, IsTypedFormula};
ghost use Rattle.sp_deciding.specs.Verdicts.{all_lines, decision_lines, last_line};

use crate::atoms::push_atoms;
use crate::deciding::Decision;
use sp_core::Spec;
use sp_report::{print_heading, push_count};
use sp_sequent::Formula;
use sp_text::{Memory, push_text};
use sp_unwinding::Accepted;
use std::alloc::Global;

// Appends what was decided of the formula of this number.
fn push_decision(
    alloc: Global,
    out: &mut Vec<u8>,
    spec: &Spec,
    number: usize,
    formula: &Formula,
    decision: &Decision,
) -> Result<(), Memory>
    requires typed { IsTypedFormula spec.now (formula_as formula.now) }
    ensures { OnOk result (out.new.items ≡ out.old.items ++ decision_lines spec.now number (formula_as formula.now) decision.now) }
{
    print_heading(alloc, number as u64, formula, out)?;
    match decision {
        Decision::Proved => push_text(alloc, out, b" PROVED\n"),
        Decision::Open(values) => {
            push_text(alloc, out, b" OPEN\n")?;
            push_atoms(alloc, out, spec, formula, values.items())
        }
    }
}

/// Appends what was decided of formulas, by their numbers from 1.
pub fn push_decisions(
    alloc: Global,
    out: &mut Vec<u8>,
    spec: &Spec,
    formulas: &[Formula],
    decisions: &[Decision],
) -> Result<(), Memory>
    requires typed { AreTypedFormulas spec.now (map formula_as formulas.now) }
    ensures { OnOk result (out.new.items ≡ out.old.items ++ all_lines spec.now 1 (map formula_as formulas.now) decisions.now) }
{
    for (k, decision) in decisions.iter().enumerate() {
        let Some(formula) = formulas.get(k) else {
            return Ok(());
        };
        push_decision(alloc, out, spec, k + 1, formula, decision)?;
    }
    Ok(())
}

/// Appends that all formulas are proved. Whoever does so has an accepted specification.
pub fn push_accepted(
    alloc: Global,
    out: &mut Vec<u8>,
    _accepted: &Accepted,
    count: usize,
) -> Result<(), Memory>
    ensures { OnOk result (out.new.items ≡ out.old.items ++ last_line count 0) }
{
    push_proved(alloc, out, count)
}

/// Appends that all formulas are proved, where they aren't those of an interface.
pub fn push_proved(alloc: Global, out: &mut Vec<u8>, count: usize) -> Result<(), Memory>
    ensures { OnOk result (out.new.items ≡ out.old.items ++ last_line count 0) }
{
    push_text(alloc, out, b"ACCEPTED ")?;
    push_count(alloc, out, count as u64)?;
    push_text(alloc, out, b" formulas\n")
}

/// Appends that so many of the formulas are unproved.
pub fn push_refused(
    alloc: Global,
    out: &mut Vec<u8>,
    unproved: usize,
    count: usize,
) -> Result<(), Memory>
    requires { 0 < unproved }
    ensures { OnOk result (out.new.items ≡ out.old.items ++ last_line count unproved) }
{
    push_text(alloc, out, b"REFUSED ")?;
    push_count(alloc, out, unproved as u64)?;
    push_text(alloc, out, b" of ")?;
    push_count(alloc, out, count as u64)?;
    push_text(alloc, out, b" formulas\n")
}
