//! Changes under FORALL, and how many entries a state then has.

use crate::texts::{Ran, Texts, run};
use sp_core::Answer;
use sp_text::TextFault;
use sp_values::Value;
use std::process::Abort;

const INTERFACE: &[u8] =
    b"INTERFACE m MODULES m; LATTICE LOW; LEVEL data(f) IS LOW; LEVEL fill(x) IS LOW;
SAMPLE s; END_INTERFACE";

const MODULE: &[u8] =
    b"MODULE m TYPES file: DESIGNATOR; FUNCTIONS VFUN data(file f) -> INTEGER; INITIALLY 0;
OFUN fill(INTEGER x); EFFECTS FORALL file f: 'data(f) = x; END_FORALL; END_MODULE";

const FILES: Texts<'static> = Texts {
    interface: INTERFACE,
    module: MODULE,
    instance: b"INSTANCE s POPULATION file = {f0, f1, f2}; END_INSTANCE",
    script: b"fill(5); data(f0); data(f2);",
};

const NO_FILES: Texts<'static> = Texts {
    interface: INTERFACE,
    module: MODULE,
    instance: b"INSTANCE s POPULATION file = {}; END_INSTANCE",
    script: b"fill(5);",
};

fn found(answer: Answer, entries: u64) -> Result<(Ran, u64), TextFault> {
    Ok((Ran::Answers(Some(answer)), entries))
}

// One place for the assertion, which costs the proof of a test much.
fn shows(
    rt: &impl Abort,
    found: Result<(Ran, u64), TextFault>,
    want: Result<(Ran, u64), TextFault>,
) {
    assert_eq!(rt; found, want);
}

#[test]
fn each_member_has_its_change(rt: HostRuntime) {
    let alloc = rt.alloc();
    shows(&rt, run(alloc, &FILES, 0), found(Answer::Done, 3));
    let value = Answer::Value(Value::Int(5));
    shows(&rt, run(alloc, &FILES, 1), found(value, 3));
    shows(&rt, run(alloc, &FILES, 2), found(value, 3));
}

#[test]
fn an_empty_population_has_no_change(rt: HostRuntime) {
    shows(&rt, run(rt.alloc(), &NO_FILES, 0), found(Answer::Done, 0));
}
