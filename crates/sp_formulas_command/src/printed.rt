//! The lines of a list of formulas.

ghost use Rattle.std.specs.Prelude.{◌≡◌, ◌≤◌, ◌++◌, IfOk, OnOk, length, map};
ghost use Rattle.sp_text.specs.declared.limits.TheConstants.{MOST_FORMULAS};
ghost use Rattle.sp_formulas.specs.Formulas.{formula_as};
ghost use Rattle.sp_formulas_command.specs.Printed.{formula_lines, list_lines, list_text};

use sp_core::Spec;
use sp_report::{print_formula, print_interface, push_count};
use sp_sequent::Formula;
use sp_text::{Memory, push_text};
use std::alloc::Global;

// Appends the lines of the formula of this number.
fn push_formula(
    alloc: Global,
    out: &mut Vec<u8>,
    spec: &Spec,
    number: u32,
    formula: &Formula,
) -> Result<(), Memory>
    ensures { OnOk result (out.new.items ≡ out.old.items ++ formula_lines spec.now number (formula_as formula.now)) }
{
    print_formula(alloc, spec, number, formula, out)
}

// Appends the lines of formulas, numbered from 1.
fn push_formulas(
    alloc: Global,
    out: &mut Vec<u8>,
    spec: &Spec,
    all: &[Formula],
) -> Result<(), Memory>
    requires { length all.now ≤ MOST_FORMULAS }
    ensures { OnOk result (out.new.items ≡ out.old.items ++ list_lines spec.now 1 (map formula_as all.now)) }
{
    for (index, formula) in all.iter().enumerate() {
        push_formula(alloc, out, spec, index as u32 + 1, formula)?;
    }
    Ok(())
}

/// The lines of all formulas, and how many they are.
pub fn report_lines(alloc: Global, spec: &Spec, all: &[Formula]) -> Result<Vec<u8>, Memory>
    requires { length all.now ≤ MOST_FORMULAS }
    ensures { IfOk result (λ text. text.items ≡ list_text spec.now (map formula_as all.now)) }
{
    let mut out = Vec::new(alloc);
    print_interface(alloc, spec, &mut out)?;
    push_formulas(alloc, &mut out, spec, all)?;
    push_text(alloc, &mut out, b"FORMULAS ")?;
    push_count(alloc, &mut out, all.len() as u64)?;
    push_text(alloc, &mut out, b"\n")?;
    Ok(out)
}
