//! Single steps: exceptions, results, conflicts, and new values on the right.

use crate::texts::{Ran, Texts, answer, run};
use sp_core::Answer;
use sp_text::TextFault;
use sp_values::Value;
use std::process::Abort;

const INSTANCE: &[u8] = b"INSTANCE s END_INSTANCE";

const EXCEPTIONS: Texts<'static> = Texts {
    interface: b"INTERFACE m MODULES m; LATTICE LOW; LEVEL op(b) IS LOW; SAMPLE s; END_INTERFACE",
    module: b"MODULE m FUNCTIONS OFUN op(BOOLEAN b); EXCEPTIONS first: b; second: TRUE; EFFECTS
END_MODULE",
    instance: INSTANCE,
    script: b"op(TRUE); op(FALSE);",
};

const SWAP: Texts<'static> = Texts {
    interface: b"INTERFACE m MODULES m; LATTICE LOW; LEVEL a() IS LOW; LEVEL b() IS LOW;
LEVEL swap() IS LOW; SAMPLE s; END_INTERFACE",
    module: b"MODULE m FUNCTIONS VFUN a() -> INTEGER; INITIALLY 1; VFUN b() -> INTEGER; INITIALLY 2;
OFUN swap(); EFFECTS 'a() = b(); 'b() = a(); END_MODULE",
    instance: INSTANCE,
    script: b"swap(); a(); b();",
};

const CONFLICT: Texts<'static> = Texts {
    interface: b"INTERFACE m MODULES m; LATTICE LOW; LEVEL p() IS LOW; LEVEL q() IS LOW;
LEVEL g() IS LOW; LEVEL op() IS LOW; SAMPLE s; END_INTERFACE",
    module: b"MODULE m FUNCTIONS VFUN p() -> BOOLEAN; INITIALLY TRUE;
VFUN q() -> BOOLEAN; INITIALLY TRUE; VFUN g() -> INTEGER; INITIALLY 0;
OFUN op(); EFFECTS IF p() THEN 'g() = 1; ELSE END_IF; IF q() THEN 'g() = 2; ELSE END_IF;
END_MODULE",
    instance: INSTANCE,
    script: b"g(); op(); g();",
};

const UNKNOWN: Texts<'static> = Texts {
    interface: b"INTERFACE m MODULES m; LATTICE LOW; LEVEL max() IS LOW; LEVEL le() IS LOW;
LEVEL eq() IS LOW; SAMPLE s; END_INTERFACE",
    module: b"MODULE m FUNCTIONS VFUN max() -> INTEGER; DERIVATION 9223372036854775807 + 1;
VFUN le() -> BOOLEAN; DERIVATION max() <= 0; VFUN eq() -> BOOLEAN; DERIVATION max() = max();
END_MODULE",
    instance: INSTANCE,
    script: b"max(); le(); eq();",
};

// What an OV-function with a result in each branch answers.
const BRANCHES: Texts<'static> = Texts {
    interface: b"INTERFACE m MODULES m; LATTICE LOW; LEVEL pick(b) IS LOW; SAMPLE s; END_INTERFACE",
    module: b"MODULE m FUNCTIONS OVFUN pick(BOOLEAN b) -> INTEGER r;
EFFECTS IF b THEN r = 3; ELSE r = 4; END_IF; END_MODULE",
    instance: INSTANCE,
    script: b"pick(TRUE); pick(FALSE);",
};

// A stack, whose push writes where the new pointer points.
const STACK: Texts<'static> = Texts {
    interface: b"INTERFACE m MODULES m; LATTICE LOW; LEVEL ptr(s) IS LOW; LEVEL stack(s, i) IS LOW;
LEVEL push(s, v) IS LOW; LEVEL pop(s) IS LOW; SAMPLE s; END_INTERFACE",
    module: b"MODULE m TYPES stk: DESIGNATOR; FUNCTIONS VFUN ptr(stk s) -> INTEGER; HIDDEN; INITIALLY 0;
VFUN stack(stk s; INTEGER i) -> INTEGER; HIDDEN; INITIALLY ?;
OFUN push(stk s; INTEGER v); EFFECTS 'ptr(s) = ptr(s) + 1; 'stack(s, 'ptr(s)) = v;
OVFUN pop(stk s) -> INTEGER r; EXCEPTIONS empty: ptr(s) = 0;
EFFECTS r = stack(s, ptr(s)); 'ptr(s) = ptr(s) - 1; END_MODULE",
    instance: b"INSTANCE s POPULATION stk = {k}; END_INSTANCE",
    script: b"push(k, 5); push(k, 6); pop(k); pop(k); pop(k);",
};

fn exception(number: u16) -> Result<Ran, TextFault> {
    Ok(Ran::Answers(Some(Answer::Exception(number))))
}

fn done() -> Result<Ran, TextFault> {
    Ok(Ran::Answers(Some(Answer::Done)))
}

fn value(value: Value) -> Result<Ran, TextFault> {
    Ok(Ran::Answers(Some(Answer::Value(value))))
}

// One place for the assertion, which costs the proof of a test much.
fn shows(rt: &impl Abort, found: Result<Ran, TextFault>, want: Result<Ran, TextFault>) {
    assert_eq!(rt; found, want);
}

#[test]
fn the_first_true_exception_is_answered(rt: HostRuntime) {
    let alloc = rt.alloc();
    shows(&rt, answer(alloc, &EXCEPTIONS, 0), exception(0));
    shows(&rt, answer(alloc, &EXCEPTIONS, 1), exception(1));
}

#[test]
fn effects_read_the_old_state(rt: HostRuntime) {
    let alloc = rt.alloc();
    shows(&rt, answer(alloc, &SWAP, 0), done());
    shows(&rt, answer(alloc, &SWAP, 1), value(Value::Int(2)));
    shows(&rt, answer(alloc, &SWAP, 2), value(Value::Int(1)));
}

#[test]
fn a_conflict_names_its_place_and_both_values_and_changes_nothing(rt: HostRuntime) {
    let refused = Ran::Conflict(1, 2, Value::Int(1), Value::Int(2));
    assert_eq!(rt; run(rt.alloc(), &CONFLICT, 0), Ok((refused, 0)));
}

#[test]
fn a_sum_out_of_range_is_unknown(rt: HostRuntime) {
    let alloc = rt.alloc();
    shows(&rt, answer(alloc, &UNKNOWN, 0), value(Value::Unknown));
    shows(&rt, answer(alloc, &UNKNOWN, 1), value(Value::Truth(false)));
    shows(&rt, answer(alloc, &UNKNOWN, 2), value(Value::Truth(true)));
}

#[test]
fn the_result_of_the_branch_taken_is_answered(rt: HostRuntime) {
    let alloc = rt.alloc();
    shows(&rt, answer(alloc, &BRANCHES, 0), value(Value::Int(3)));
    shows(&rt, answer(alloc, &BRANCHES, 1), value(Value::Int(4)));
}

#[test]
fn a_target_reads_the_new_state(rt: HostRuntime) {
    let alloc = rt.alloc();
    shows(&rt, answer(alloc, &STACK, 1), done());
    shows(&rt, answer(alloc, &STACK, 2), value(Value::Int(6)));
    shows(&rt, answer(alloc, &STACK, 3), value(Value::Int(5)));
    shows(&rt, answer(alloc, &STACK, 4), exception(0));
}
