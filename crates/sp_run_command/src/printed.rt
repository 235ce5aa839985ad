//! The texts of invocations, answers and conflicts.

ghost use Rattle.std.specs.Prelude.{◌≡◌, ◌++◌, OnOk};
ghost use Rattle.sp_core.specs.Instances.{IsInstanceOf};
ghost use Rattle.sp_report.specs.Answers.{answer_text};
ghost use Rattle.sp_run_command.specs.Printed.{answer_line, answer_lines, call_text, conflict_text};

use crate::values::{push_value, push_values};
use sp_core::{Answer, Instance, Spec};
use sp_report::{function_name, print_answer, push_count};
use sp_text::{Memory, push_text};
use sp_values::{Invocation, Place, Value};
use std::alloc::Global;

// Appends a function with its values.
fn push_call(
    alloc: Global,
    out: &mut Vec<u8>,
    spec: &Spec,
    instance: &Instance,
    function: u16,
    values: &[Value],
) -> Result<(), Memory>
    requires { IsInstanceOf spec.now instance.now }
    ensures { OnOk result (out.new.items ≡ out.old.items ++ call_text spec.now instance.now function values.now) }
{
    push_text(alloc, out, function_name(spec, function))?;
    push_text(alloc, out, b"(")?;
    push_values(alloc, out, spec, instance, values)?;
    push_text(alloc, out, b")")
}

/// Appends what a function answers.
pub fn push_answer(
    alloc: Global,
    out: &mut Vec<u8>,
    spec: &Spec,
    instance: &Instance,
    function: u16,
    answer: Answer,
) -> Result<(), Memory>
    requires { IsInstanceOf spec.now instance.now }
    ensures { OnOk result (out.new.items ≡ out.old.items ++ answer_text spec.now instance.now function answer) }
{
    match answer {
        Answer::Value(value) => {
            push_text(alloc, out, b"VALUE ")?;
            push_value(alloc, out, spec, instance, value)
        }
        _ => print_answer(alloc, spec, instance, function, &answer, out),
    }
}

// Appends an invocation by its number, and its answer.
fn push_line(
    alloc: Global,
    out: &mut Vec<u8>,
    spec: &Spec,
    instance: &Instance,
    number: usize,
    invocation: &Invocation,
    answer: Answer,
) -> Result<(), Memory>
    requires { IsInstanceOf spec.now instance.now }
    ensures { OnOk result (out.new.items ≡ out.old.items ++ answer_line spec.now instance.now number invocation.now answer) }
{
    push_count(alloc, out, number as u64)?;
    push_text(alloc, out, b" ")?;
    let function = invocation.fun;
    push_call(
        alloc,
        out,
        spec,
        instance,
        function,
        invocation.args.values(),
    )?;
    push_text(alloc, out, b" ")?;
    push_answer(alloc, out, spec, instance, function, answer)?;
    push_text(alloc, out, b"\n")
}

/// Appends the answers of the first invocations.
pub fn push_lines(
    alloc: Global,
    out: &mut Vec<u8>,
    spec: &Spec,
    instance: &Instance,
    script: &[Invocation],
    answers: &[Answer],
) -> Result<(), Memory>
    requires { IsInstanceOf spec.now instance.now }
    ensures { OnOk result (out.new.items ≡ out.old.items ++ answer_lines spec.now instance.now 0 script.now answers.now) }
{
    for (number, answer) in answers.iter().enumerate() {
        let Some(invocation) = script.get(number) else {
            return Ok(());
        };
        push_line(alloc, out, spec, instance, number, invocation, *answer)?;
    }
    Ok(())
}

/// Appends that the invocation of this number gives a place two values.
pub fn push_conflict(
    alloc: Global,
    out: &mut Vec<u8>,
    spec: &Spec,
    instance: &Instance,
    number: usize,
    place: &Place,
    first: Value,
    second: Value,
) -> Result<(), Memory>
    requires { IsInstanceOf spec.now instance.now }
    ensures { OnOk result (out.new.items ≡ out.old.items ++ conflict_text spec.now instance.now number place.now first second) }
{
    push_count(alloc, out, number as u64)?;
    push_text(alloc, out, b" ")?;
    push_call(alloc, out, spec, instance, place.fun, place.args.values())?;
    push_text(alloc, out, b" ")?;
    push_value(alloc, out, spec, instance, first)?;
    push_text(alloc, out, b" ")?;
    push_value(alloc, out, spec, instance, second)?;
    push_text(alloc, out, b"\n")
}
