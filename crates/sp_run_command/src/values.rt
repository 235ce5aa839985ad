//! The texts of values.

ghost use Rattle.std.specs.Prelude.{◌≡◌, ◌++◌, [], OnOk, slice_index_or};
ghost use Rattle.sp_core.specs.Instances.{IsInstanceOf};
ghost use Rattle.sp_report.specs.Answers.{value_text};
ghost use Rattle.sp_report.specs.Constants.{nth_name};
ghost use Rattle.sp_run_command.specs.Printed.{more_text, values_text};

use sp_core::{Instance, Spec};
use sp_report::{level_name, truth_text};
use sp_text::{Memory, push_number, push_text};
use sp_values::Value;
use std::alloc::Global;

/// Appends a value. One that isn't of the instance has no name.
pub fn push_value(
    alloc: Global,
    out: &mut Vec<u8>,
    spec: &Spec,
    instance: &Instance,
    value: Value,
) -> Result<(), Memory>
    requires { IsInstanceOf spec.now instance.now }
    ensures { OnOk result (out.new.items ≡ out.old.items ++ value_text spec.now instance.now value) }
{
    match value {
        Value::Truth(truth) => push_text(alloc, out, truth_text(truth)),
        Value::Int(n) => push_number(alloc, out, n),
        Value::Level(level) => push_text(alloc, out, level_name(spec, level)),
        Value::Member(ty, member) => push_text(alloc, out, member_name(spec, instance, ty, member)),
        Value::Unknown => push_text(alloc, out, b"?"),
    }
}

// The name of a member of a type, or nothing.
#[tactic(auto, using(crate::proofs::Members::as_many, crate::proofs::Members::no_member, crate::proofs::Members::no_type))]
fn member_name<'a>(spec: &Spec, instance: &'a Instance, ty: u16, member: u16) -> &'a [u8]
    requires { IsInstanceOf spec.now instance.now }
    ensures { result.now ≡ nth_name (slice_index_or instance.now.members ty []) member }
{
    if usize::from(ty) < spec.types().len() && member < instance.size(ty) {
        instance.member(ty, member).bytes()
    } else {
        b""
    }
}

/// Appends values with a comma between two.
pub fn push_values(
    alloc: Global,
    out: &mut Vec<u8>,
    spec: &Spec,
    instance: &Instance,
    values: &[Value],
) -> Result<(), Memory>
    requires { IsInstanceOf spec.now instance.now }
    ensures { OnOk result (out.new.items ≡ out.old.items ++ values_text spec.now instance.now values.now) }
{
    match values {
        [] => Ok(()),
        [first, rest @ ..] => {
            push_value(alloc, out, spec, instance, *first)?;
            push_more(alloc, out, spec, instance, rest)
        }
    }
}

// Appends values with a comma before each.
fn push_more(
    alloc: Global,
    out: &mut Vec<u8>,
    spec: &Spec,
    instance: &Instance,
    values: &[Value],
) -> Result<(), Memory>
    requires { IsInstanceOf spec.now instance.now }
    ensures { OnOk result (out.new.items ≡ out.old.items ++ more_text spec.now instance.now values.now) }
{
    for value in values {
        push_text(alloc, out, b",")?;
        push_value(alloc, out, spec, instance, *value)?;
    }
    Ok(())
}
