//! Names, types and constants of a specification.

ghost use Rattle.std.specs.Prelude.{◌≡◌, ◌++◌, OnOk, slice_get};
ghost use Rattle.sp_report.specs.Constants.{constant_text, name_of_function, name_of_member, name_of_param, nth_name, truth_text, type_text};

use sp_core::Spec;
use sp_text::{Memory, Name, push_number, push_text};
use sp_values::{Ty, Value};
use std::alloc::Global;

/// The k-th of these names, or nothing.
pub fn nth_name(names: &[Name], k: u16) -> &[u8]
    ensures { result.now ≡ nth_name names.now k }
{
    match names.get(usize::from(k)) {
        Some(name) => name.bytes(),
        None => b"",
    }
}

/// The name of a level, or nothing.
pub fn level_name(spec: &Spec, level: u16) -> &[u8]
    ensures { result.now ≡ nth_name spec.now.level_names level }
{
    if level < spec.lattice().count() {
        spec.level_name(level).bytes()
    } else {
        b""
    }
}

/// The name of a parameter, or nothing.
pub fn param_name(spec: &Spec, param: u16) -> &[u8]
    ensures { result.now ≡ name_of_param (slice_get spec.now.params param) }
{
    match spec.params().get(usize::from(param)) {
        Some(param) => param.name.bytes(),
        None => b"",
    }
}

/// The name of a function, or nothing.
pub fn function_name(spec: &Spec, function: u16) -> &[u8]
    ensures { result.now ≡ name_of_function (slice_get spec.now.functions function) }
{
    match spec.functions().get(usize::from(function)) {
        Some(function) => function.name.bytes(),
        None => b"",
    }
}

/// The name of an enumeration's member, or nothing.
fn member_name(spec: &Spec, ty: u16, member: u16) -> &[u8]
    ensures { result.now ≡ name_of_member (slice_get spec.now.types ty) member }
{
    match spec.types().get(usize::from(ty)) {
        Some(info) => match &info.members {
            Some(names) => nth_name(names.items(), member),
            None => b"",
        },
        None => b"",
    }
}

/// The text of a type.
pub fn type_text(spec: &Spec, ty: Ty) -> &[u8]
    ensures { result.now ≡ type_text spec.now ty }
{
    match ty {
        Ty::Boolean => b"BOOLEAN",
        Ty::Integer => b"INTEGER",
        Ty::Level => b"LEVEL",
        Ty::Member(k) => match spec.types().get(usize::from(k)) {
            Some(info) => info.name.bytes(),
            None => b"",
        },
    }
}

/// The text of a truth value.
pub fn truth_text(truth: bool) -> &'static [u8]
    ensures { result.now ≡ truth_text truth }
{
    if truth { b"TRUE" } else { b"FALSE" }
}

/// Appends a constant of an expression.
pub fn push_constant(
    alloc: Global,
    out: &mut Vec<u8>,
    spec: &Spec,
    value: Value,
) -> Result<(), Memory>
    ensures { OnOk result (out.new.items ≡ out.old.items ++ constant_text spec.now value) }
{
    match value {
        Value::Truth(truth) => push_text(alloc, out, truth_text(truth)),
        Value::Int(n) => push_number(alloc, out, n),
        Value::Level(level) => push_text(alloc, out, level_name(spec, level)),
        Value::Member(ty, member) => push_text(alloc, out, member_name(spec, ty, member)),
        Value::Unknown => push_text(alloc, out, b"?"),
    }
}
