//! The lines of `verify`.

ghost use Rattle.std.specs.Prelude.{◌≡◌, ◌≢◌, ◌<◌, ◌++◌, OnOk, length, map};
ghost use Rattle.sp_formulas.specs.Formulas.{formula_as};
ghost use Rattle.sp_frame.specs.declared.refusal.Verdict.TheVariants as verdict;
ghost use Rattle.sp_verify_command.specs.Judged.{closing_line, extra_line, judgement_line, judgement_lines, judgement_text};

use crate::judging::Judgement;
use sp_report::{print_cert_fault, print_heading, push_count};
use sp_sequent::Formula;
use sp_text::{Memory, push_text};
use std::alloc::Global;

// Appends how a certificate is judged.
fn push_judgement(alloc: Global, out: &mut Vec<u8>, judgement: &Judgement) -> Result<(), Memory>
    ensures { OnOk result (out.new.items ≡ out.old.items ++ judgement_text judgement.now) }
{
    match judgement {
        Judgement::Checked => push_text(alloc, out, b"CHECKED"),
        Judgement::Refused(fault) => {
            push_text(alloc, out, b"REFUSED ")?;
            print_cert_fault(alloc, fault, out)
        }
        Judgement::Absent => push_text(alloc, out, b"REFUSED no certificate"),
    }
}

// Appends how the certificate of the formula of this number is judged.
fn push_formula(
    alloc: Global,
    out: &mut Vec<u8>,
    number: usize,
    formula: &Formula,
    judgement: &Judgement,
) -> Result<(), Memory>
    ensures { OnOk result (out.new.items ≡ out.old.items ++ judgement_line number (formula_as formula.now) judgement.now) }
{
    print_heading(alloc, number as u64, formula, out)?;
    push_text(alloc, out, b" ")?;
    push_judgement(alloc, out, judgement)?;
    push_text(alloc, out, b"\n")
}

/// Appends how the certificates of formulas are judged, by their numbers from 1.
pub fn push_judgements(
    alloc: Global,
    out: &mut Vec<u8>,
    formulas: &[Formula],
    judgements: &[Judgement],
) -> Result<(), Memory>
    ensures { OnOk result (out.new.items ≡ out.old.items ++ judgement_lines 1 (map formula_as formulas.now) judgements.now) }
{
    for (k, judgement) in judgements.iter().enumerate() {
        let Some(formula) = formulas.get(k) else {
            return Ok(());
        };
        push_formula(alloc, out, k + 1, formula, judgement)?;
    }
    Ok(())
}

/// Appends how many certificates are too many, if any are.
pub fn push_extra(alloc: Global, out: &mut Vec<u8>, extra: usize) -> Result<(), Memory>
    ensures { OnOk result (out.new.items ≡ out.old.items ++ extra_line extra) }
{
    if extra == 0 {
        return Ok(());
    }
    push_text(alloc, out, b"EXTRA ")?;
    push_count(alloc, out, extra as u64)?;
    push_text(alloc, out, b"\n")
}

/// Appends that so many of the formulas are refused; none are where certificates are too many.
pub fn push_refused(
    alloc: Global,
    out: &mut Vec<u8>,
    refused: usize,
    count: usize,
) -> Result<(), Memory>
    ensures { OnOk result (out.new.items ≡ out.old.items ++ closing_line count refused verdict.Refused) }
{
    push_text(alloc, out, b"REFUSED ")?;
    push_count(alloc, out, refused as u64)?;
    push_text(alloc, out, b" of ")?;
    push_count(alloc, out, count as u64)?;
    push_text(alloc, out, b" formulas\n")
}
