//! What is told of a sample.

ghost use Rattle.std.specs.Prelude.{◌≡◌, ◌<◌, IfOk, length, map};
ghost use Rattle.sp_formulas.specs.Formulas.{formula_as};
ghost use Rattle.sp_formulas.specs.Typed.{AreTypedFormulas};
ghost use Rattle.sp_deciding.specs.Decided as decided;
ghost use Rattle.sp_check_command.specs.Check.{check_text};
ghost use Rattle.sp_sample_command.specs.Summary.{summary_of};

use sp_core::Spec;
use sp_deciding::{Decision, push_decisions, push_refused};
use sp_report::print_interface;
use sp_sample::push_numbered;
use sp_sequent::Formula;
use sp_text::{Memory, push_text};
use sp_unwinding::Accepted;
use std::alloc::Global;

/// The summary of a sample. Whoever tells it has an accepted specification.
///
/// # Errors
/// `Memory` where it can't be held.
pub fn summary_text(
    alloc: Global,
    _accepted: &Accepted,
    size: u32,
    functions: usize,
    formulas: usize,
    terms: u64,
) -> Result<Vec<u8>, Memory>
    ensures { IfOk result (λ text. text.items ≡ summary_of size functions formulas terms) }
{
    let mut text = Vec::new(alloc);
    push_numbered(alloc, &mut text, b"SAMPLE ", u64::from(size), b"\n")?;
    push_numbered(alloc, &mut text, b"functions ", functions as u64, b"\n")?;
    push_numbered(alloc, &mut text, b"formulas ", formulas as u64, b"\n")?;
    push_numbered(alloc, &mut text, b"terms ", terms, b"\n")?;
    push_text(alloc, &mut text, b"ACCEPTED\n")?;
    Ok(text)
}

/// What `check` tells where so many formulas are open.
///
/// # Errors
/// `Memory` where it can't be held.
pub fn open_text(
    alloc: Global,
    spec: &Spec,
    made: &[Formula],
    decisions: &[Decision],
    unproved: usize,
) -> Result<Vec<u8>, Memory>
    requires typed { AreTypedFormulas spec.now (map formula_as made.now) }
    requires some { 0 < unproved }
    requires count { unproved ≡ decided.open_count decisions.now }
    ensures { IfOk result (λ text. text.items ≡ check_text spec.now (map formula_as made.now) decisions.now) }
{
    let mut text = Vec::new(alloc);
    print_interface(alloc, spec, &mut text)?;
    push_decisions(alloc, &mut text, spec, made, decisions)?;
    push_refused(alloc, &mut text, unproved, made.len())?;
    Ok(text)
}
