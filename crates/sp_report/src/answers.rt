//! Values and answers of an instance.

ghost use Rattle.std.specs.Prelude.{◌≡◌, ◌++◌, OnOk, OnErr, slice_get};
ghost use Rattle.sp_report.specs.Answers.{IsAnswerIn, IsValueIn, answer_text, exception_name, value_text};

use crate::constants::{level_name, truth_text};
use sp_core::{Answer, Instance, Spec};
use sp_text::{Memory, push_number, push_text};
use sp_values::Value;
use std::alloc::Global;

fn push_value(
    alloc: Global,
    out: &mut Vec<u8>,
    spec: &Spec,
    instance: &Instance,
    value: Value,
) -> Result<(), Memory>
    requires { IsValueIn spec.now instance.now value }
    ensures { OnOk result (out.new.items ≡ out.old.items ++ value_text spec.now instance.now value) }
{
    match value {
        Value::Truth(truth) => push_text(alloc, out, truth_text(truth)),
        Value::Int(n) => push_number(alloc, out, n),
        Value::Level(level) => push_text(alloc, out, level_name(spec, level)),
        Value::Member(ty, member) => push_text(alloc, out, instance.member(ty, member).bytes()),
        Value::Unknown => push_text(alloc, out, b"?"),
    }
}

/// The name of a function's exception, or nothing.
fn exception_name(spec: &Spec, function: u16, exception: u16) -> &[u8]
    ensures { result.now ≡ exception_name (slice_get spec.now.functions function) exception }
{
    match spec.functions().get(usize::from(function)) {
        Some(function) => match function.exceptions.items().get(usize::from(exception)) {
            Some(exception) => exception.0.bytes(),
            None => b"",
        },
        None => b"",
    }
}

fn push_answer(
    alloc: Global,
    out: &mut Vec<u8>,
    spec: &Spec,
    instance: &Instance,
    function: u16,
    answer: Answer,
) -> Result<(), Memory>
    requires { IsAnswerIn spec.now instance.now answer }
    ensures { OnOk result (out.new.items ≡ out.old.items ++ answer_text spec.now instance.now function answer) }
{
    match answer {
        Answer::Done => push_text(alloc, out, b"DONE"),
        Answer::Exception(n) => {
            push_text(alloc, out, b"EXCEPTION ")?;
            push_text(alloc, out, exception_name(spec, function, n))
        }
        Answer::Value(value) => {
            push_text(alloc, out, b"VALUE ")?;
            push_value(alloc, out, spec, instance, value)
        }
    }
}

/// Appends a value of the instance: levels and members by name, integers in decimal.
///
/// # Errors
/// `Memory` where it can't be made; `out` is then as before.
pub fn print_value(
    alloc: Global,
    spec: &Spec,
    instance: &Instance,
    value: Value,
    out: &mut Vec<u8>,
) -> Result<(), Memory>
    requires { IsValueIn spec.now instance.now value }
    ensures ok { OnOk result (out.new.items ≡ out.old.items ++ value_text spec.now instance.now value) }
    ensures err { OnErr result (out.new.items ≡ out.old.items) }
{
    let mut made = Vec::new(alloc);
    push_value(alloc, &mut made, spec, instance, value)?;
    push_text(alloc, out, &made)
}

/// Appends what an invocation of a function answers: `DONE`, `EXCEPTION name` or `VALUE v`.
///
/// # Errors
/// `Memory` where it can't be made; `out` is then as before.
pub fn print_answer(
    alloc: Global,
    spec: &Spec,
    instance: &Instance,
    function: u16,
    answer: &Answer,
    out: &mut Vec<u8>,
) -> Result<(), Memory>
    requires { IsAnswerIn spec.now instance.now answer.now }
    ensures ok { OnOk result (out.new.items ≡ out.old.items ++ answer_text spec.now instance.now function answer.now) }
    ensures err { OnErr result (out.new.items ≡ out.old.items) }
{
    let mut made = Vec::new(alloc);
    push_answer(alloc, &mut made, spec, instance, function, *answer)?;
    push_text(alloc, out, &made)
}
