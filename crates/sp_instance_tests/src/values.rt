//! What made instances and scripts hold.

use crate::texts::{System, invocations, value_at};
use sp_text::TextFault;
use sp_values::{Invocation, Value};
use std::alloc::Global;

const LEVELS: &[u8] = b"MODULE m PARAMETERS LEVEL l(LEVEL x); END_MODULE";

const HIGH_AT_LOW: &[u8] = b"INSTANCE s PARAMETER l: (LOW) = HIGH; OTHERWISE BOTTOM; END_INSTANCE";

#[test]
fn levels(rt: HostRuntime) {
    let alloc = rt.alloc();
    let (low, high) = (Value::Level(0), Value::Level(1));
    assert_eq!(rt; value_at(alloc, LEVELS, HIGH_AT_LOW, &[low]), Ok(high));
    assert_eq!(rt; value_at(alloc, LEVELS, HIGH_AT_LOW, &[high]), Ok(low));
}

const CHOICES: &[u8] =
    b"MODULE m TYPES c: {p, q}; n: DESIGNATOR; PARAMETERS n k(n x; c y); END_MODULE";

// A table with a row for `?`.
const UNKNOWN: &[u8] =
    b"INSTANCE s POPULATION n = {a, b}; PARAMETER k: (?, q) = ?; OTHERWISE b; END_INSTANCE";

#[test]
fn members(rt: HostRuntime) {
    let alloc = rt.alloc();
    let (q, b) = (Value::Member(0, 1), Value::Member(1, 1));
    assert_eq!(rt;
        value_at(alloc, CHOICES, UNKNOWN, &[Value::Unknown, q]),
        Ok(Value::Unknown)
    );
    assert_eq!(rt; value_at(alloc, CHOICES, UNKNOWN, &[b, q]), Ok(b));
}

const CALLED: System = System {
    interface: b"INTERFACE i MODULES m; LATTICE LOW, HIGH; ORDER LOW < HIGH; LEVEL h() IS LOW;
LEVEL o(x, y, z, w) IS LOW; SAMPLE s; END_INTERFACE",
    module: b"MODULE m TYPES c: {p, q}; FUNCTIONS VFUN h() -> INTEGER; INITIALLY 0;
OFUN o(INTEGER x; BOOLEAN y; LEVEL z; c w); EFFECTS END_MODULE",
    instance: b"INSTANCE s END_INSTANCE",
};

// Whether the second function alone is called, with these values.
fn is_call(list: &[Invocation], values: &[Value]) -> bool {
    match list {
        [one] => one.fun == 1 && one.args.values() == values,
        _ => false,
    }
}

fn calls(alloc: Global, text: &[u8], values: &[Value]) -> Result<bool, TextFault> {
    let list = invocations(alloc, &CALLED, text)?;
    Ok(is_call(list.as_slice(), values))
}

#[test]
fn values_of_each_type(rt: HostRuntime) {
    let values = [
        Value::Int(-1),
        Value::Truth(false),
        Value::Level(1),
        Value::Member(0, 1),
    ];
    assert_eq!(rt;
        calls(rt.alloc(), b"o(-1, FALSE, TOP, q);", &values),
        Ok(true)
    );
}
