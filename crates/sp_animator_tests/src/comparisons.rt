//! Purged lists, and runs compared with their purged runs.

use crate::texts::{Ended, Kept, Texts, compared, kept};
use sp_animator::Compared;
use sp_core::Answer;
use sp_text::TextFault;
use sp_values::Value;
use std::process::Abort;

const INTERFACE: &[u8] = b"INTERFACE i MODULES m; LATTICE LOW, HIGH; ORDER LOW < HIGH;
LEVEL data(f) IS cls(f); LEVEL read(u, f) IS clr(u); LEVEL write(u, f, x) IS clr(u);
SAMPLE s; END_INTERFACE";

const INSTANCE: &[u8] = b"INSTANCE s POPULATION user = {alice, bob}; POPULATION file = {memo, plan};
PARAMETER clr: (alice) = HIGH; OTHERWISE LOW; PARAMETER cls: (plan) = HIGH; OTHERWISE LOW;
END_INSTANCE";

const SCRIPT: &[u8] = b"write(alice, memo, 7); read(bob, memo);";

const LEAKY: Texts<'static> = Texts {
    interface: INTERFACE,
    module: b"MODULE m TYPES user: DESIGNATOR; file: DESIGNATOR;
PARAMETERS LEVEL clr(user u); LEVEL cls(file f);
FUNCTIONS VFUN data(file f) -> INTEGER; HIDDEN; INITIALLY 0;
OVFUN read(user u; file f) -> INTEGER r; EXCEPTIONS no_read: NOT cls(f) <= clr(u);
EFFECTS r = data(f); OFUN write(user u; file f; INTEGER x); EFFECTS 'data(f) = x; END_MODULE",
    instance: INSTANCE,
    script: SCRIPT,
};

const FILES: Texts<'static> = Texts {
    interface: INTERFACE,
    module: b"MODULE m TYPES user: DESIGNATOR; file: DESIGNATOR;
PARAMETERS LEVEL clr(user u); LEVEL cls(file f);
FUNCTIONS VFUN data(file f) -> INTEGER; HIDDEN; INITIALLY 0;
OVFUN read(user u; file f) -> INTEGER r; EXCEPTIONS no_read: NOT cls(f) <= clr(u);
EFFECTS r = data(f); OFUN write(user u; file f; INTEGER x);
EXCEPTIONS no_write: NOT clr(u) <= cls(f); EFFECTS 'data(f) = x; END_MODULE",
    instance: INSTANCE,
    script: SCRIPT,
};

// Levels that aren't all comparable.
const DIAMOND: Texts<'static> = Texts {
    interface: b"INTERFACE i MODULES m; LATTICE low, a, b, high; ORDER low < a < high;
ORDER low < b < high; LEVEL va() IS a; LEVEL vb() IS b; LEVEL seta() IS a; LEVEL setb() IS b;
SAMPLE s; END_INTERFACE",
    module: b"MODULE m FUNCTIONS VFUN va() -> INTEGER; INITIALLY 0; VFUN vb() -> INTEGER; INITIALLY 0;
OFUN seta(); EFFECTS 'va() = 1; OFUN setb(); EFFECTS 'vb() = 1; END_MODULE",
    instance: b"INSTANCE s END_INSTANCE",
    script: b"seta(); setb(); va(); vb();",
};

// The low operation is refused unless the high one is before it.
const REFUSED: Texts<'static> = Texts {
    interface: b"INTERFACE i MODULES m; LATTICE LOW, HIGH; ORDER LOW < HIGH; LEVEL p() IS HIGH;
LEVEL g() IS LOW; LEVEL clear() IS HIGH; LEVEL op() IS LOW; SAMPLE s; END_INTERFACE",
    module: b"MODULE m FUNCTIONS VFUN p() -> BOOLEAN; INITIALLY TRUE; VFUN g() -> INTEGER; INITIALLY 0;
OFUN clear(); EFFECTS 'p() = FALSE;
OFUN op(); EFFECTS 'g() = 1; IF p() THEN 'g() = 2; ELSE END_IF; END_MODULE",
    instance: b"INSTANCE s END_INSTANCE",
    script: b"clear(); op();",
};

// One place for the assertion, which costs the proof of a test much.
fn shows(rt: &impl Abort, found: Result<Ended, TextFault>, want: Result<Ended, TextFault>) {
    assert_eq!(rt; found, want);
}

fn stays(rt: &impl Abort, found: Result<Kept, TextFault>, want: Result<Kept, TextFault>) {
    assert_eq!(rt; found, want);
}

#[test]
fn the_first_kept_answer_that_differs_is_told(rt: HostRuntime) {
    let differs = Compared::Differs {
        at: 1,
        whole: Answer::Value(Value::Int(7)),
        purged: Answer::Value(Value::Int(0)),
    };
    shows(
        &rt,
        compared(rt.alloc(), &LEAKY, 0),
        Ok(Ended::Both(differs)),
    );
}

#[test]
fn kept_answers_are_counted(rt: HostRuntime) {
    let alloc = rt.alloc();
    let one = Ended::Both(Compared::Same { kept: 1 });
    shows(&rt, compared(alloc, &FILES, 0), Ok(one));
    let both = Ended::Both(Compared::Same { kept: 2 });
    shows(&rt, compared(alloc, &LEAKY, 1), Ok(both));
}

#[test]
fn incomparable_levels_are_purged(rt: HostRuntime) {
    let alloc = rt.alloc();
    stays(&rt, kept(alloc, &DIAMOND, 0), Ok((0, None)));
    stays(&rt, kept(alloc, &DIAMOND, 1), Ok((2, Some(0))));
    stays(&rt, kept(alloc, &DIAMOND, 3), Ok((4, Some(1))));
    let two = Ended::Both(Compared::Same { kept: 2 });
    shows(&rt, compared(alloc, &DIAMOND, 1), Ok(two));
}

#[test]
fn an_invocation_may_be_refused_in_the_purged_run_alone(rt: HostRuntime) {
    let alloc = rt.alloc();
    let refused = Ended::Conflict(true, 1, Value::Int(1), Value::Int(2));
    shows(&rt, compared(alloc, &REFUSED, 0), Ok(refused));
    let both = Ended::Both(Compared::Same { kept: 2 });
    shows(&rt, compared(alloc, &REFUSED, 1), Ok(both));
}
