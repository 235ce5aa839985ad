//! The lines of `compare`.

ghost use Rattle.std.specs.Prelude.{◌≡◌, ◌++◌, IfOk, OnOk, slice_get};
ghost use Rattle.sp_run_command.specs.Prepared.{IsPrepared};
ghost use Rattle.sp_compare_command.specs.Compare as definitions;
ghost use Rattle.sp_compare_command.specs.Compare.{differs_text, head_text, same_text};

use sp_core::{Answer, Spec};
use sp_report::{level_name, print_interface, push_count};
use sp_run_command::{Prepared, push_answer, push_conflict};
use sp_text::{Memory, push_text};
use sp_values::{Invocation, Place, Value};
use std::alloc::Global;

// The first lines.
fn push_head(alloc: Global, out: &mut Vec<u8>, spec: &Spec, level: u16) -> Result<(), Memory>
    ensures { OnOk result (out.new.items ≡ out.old.items ++ head_text spec.now level) }
{
    print_interface(alloc, spec, out)?;
    push_text(alloc, out, b"LEVEL ")?;
    push_text(alloc, out, level_name(spec, level))?;
    push_text(alloc, out, b"\n")
}

/// All kept invocations answer the same.
pub fn same_lines(alloc: Global, x: &Prepared, level: u16, kept: usize) -> Result<Vec<u8>, Memory>
    ensures { IfOk result (λ text. text.items ≡ same_text x.now.elaborated.spec level kept) }
{
    let mut out = Vec::new(alloc);
    push_head(alloc, &mut out, &x.elaborated.spec, level)?;
    push_text(alloc, &mut out, b"SAME ")?;
    push_count(alloc, &mut out, kept as u64)?;
    push_text(alloc, &mut out, b"\n")?;
    Ok(out)
}

/// The invocation of this number answers otherwise in the purged run.
pub fn differs_lines(
    alloc: Global,
    x: &Prepared,
    level: u16,
    number: usize,
    whole: Answer,
    purged: Answer,
) -> Result<Vec<u8>, Memory>
    requires { IsPrepared x.now }
    ensures { IfOk result (λ text. text.items ≡ differs_text x.now.elaborated.spec x.now.instance x.now.script level number whole purged) }
{
    let spec = &x.elaborated.spec;
    let instance = &x.instance;
    let function = function_at(x.script.items(), number);
    let mut out = Vec::new(alloc);
    push_head(alloc, &mut out, spec, level)?;
    push_text(alloc, &mut out, b"DIFFERS ")?;
    push_count(alloc, &mut out, number as u64)?;
    push_text(alloc, &mut out, b" ")?;
    push_answer(alloc, &mut out, spec, instance, function, whole)?;
    push_text(alloc, &mut out, b" ")?;
    push_answer(alloc, &mut out, spec, instance, function, purged)?;
    push_text(alloc, &mut out, b"\n")?;
    Ok(out)
}

// The function of the invocation of this number.
fn function_at(script: &[Invocation], number: usize) -> u16
    ensures { result ≡ definitions.function_of (slice_get script.now number) }
{
    match script.get(number) {
        Some(invocation) => invocation.fun,
        None => 0,
    }
}

/// The invocation of this number gives a place two values, in the whole run or in the purged one.
pub fn conflict_lines(
    alloc: Global,
    x: &Prepared,
    level: u16,
    purged: bool,
    number: usize,
    place: &Place,
    first: Value,
    second: Value,
) -> Result<Vec<u8>, Memory>
    requires { IsPrepared x.now }
    ensures { IfOk result (λ text. text.items ≡ definitions.conflict_lines x.now.elaborated.spec x.now.instance level purged number place.now first second) }
{
    let spec = &x.elaborated.spec;
    let mut out = Vec::new(alloc);
    push_head(alloc, &mut out, spec, level)?;
    push_text(alloc, &mut out, b"CONFLICT ")?;
    push_text(alloc, &mut out, run_word(purged))?;
    push_conflict(
        alloc,
        &mut out,
        spec,
        &x.instance,
        number,
        place,
        first,
        second,
    )?;
    Ok(out)
}

// Which run it is.
fn run_word(purged: bool) -> &'static [u8]
    ensures { result.now ≡ definitions.run_word purged }
{
    if purged { b"purged " } else { b"" }
}
