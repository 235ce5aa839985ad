//! The names of interfaces and of formulas in reports.

ghost use Rattle.std.specs.Prelude.{◌≡◌, ◌++◌, OnErr, OnOk};
ghost use Rattle.sp_report.specs.Headings.{heading, interface_line, kind_text};

use crate::counts::push_count;
use sp_core::Spec;
use sp_sequent::{Formula, FormulaKind};
use sp_text::{Memory, push_text};
use std::alloc::Global;

/// The name of a kind of formulas.
pub fn kind_text(kind: FormulaKind) -> &'static [u8]
    ensures { result.now ≡ kind_text kind }
{
    match kind {
        FormulaKind::ExceptionReference => b"exception-reference",
        FormulaKind::DerivationReference => b"derivation-reference",
        FormulaKind::Change => b"change",
        FormulaKind::GuardReference => b"guard-reference",
        FormulaKind::ValueReference => b"value-reference",
        FormulaKind::TargetReference => b"target-reference",
        FormulaKind::ResultGuardReference => b"result-guard-reference",
        FormulaKind::ResultReference => b"result-reference",
        FormulaKind::Agreement => b"agreement",
        FormulaKind::MappingReference => b"mapping-reference",
    }
}

/// Appends `n fun kind`.
pub fn push_heading(alloc: Global, out: &mut Vec<u8>, n: u64, f: &Formula) -> Result<(), Memory>
    ensures { OnOk result (out.new.items ≡ out.old.items ++ heading n f.now.name f.now.kind) }
{
    push_count(alloc, out, n)?;
    push_text(alloc, out, b" ")?;
    push_text(alloc, out, f.name.bytes())?;
    push_text(alloc, out, b" ")?;
    push_text(alloc, out, kind_text(f.kind))
}

fn push_interface(alloc: Global, out: &mut Vec<u8>, spec: &Spec) -> Result<(), Memory>
    ensures { OnOk result (out.new.items ≡ out.old.items ++ interface_line spec.now) }
{
    push_text(alloc, out, b"INTERFACE ")?;
    push_text(alloc, out, spec.name().bytes())?;
    push_text(alloc, out, b"\n")
}

/// Appends the line `INTERFACE name`.
///
/// # Errors
/// `Memory` where it can't be made; `out` is then as before.
pub fn print_interface(alloc: Global, spec: &Spec, out: &mut Vec<u8>) -> Result<(), Memory>
    ensures ok { OnOk result (out.new.items ≡ out.old.items ++ interface_line spec.now) }
    ensures err { OnErr result (out.new.items ≡ out.old.items) }
{
    let mut made = Vec::new(alloc);
    push_interface(alloc, &mut made, spec)?;
    push_text(alloc, out, &made)
}

/// Appends `n fun kind`, by which a formula is named in reports.
///
/// # Errors
/// `Memory` where it can't be made; `out` is then as before.
pub fn print_heading(
    alloc: Global,
    number: u64,
    formula: &Formula,
    out: &mut Vec<u8>,
) -> Result<(), Memory>
    ensures ok { OnOk result (out.new.items ≡ out.old.items ++ heading number formula.now.name formula.now.kind) }
    ensures err { OnErr result (out.new.items ≡ out.old.items) }
{
    let mut made = Vec::new(alloc);
    push_heading(alloc, &mut made, number, formula)?;
    push_text(alloc, out, &made)
}
