//! Effects.

use crate::texts::{Broken, alone, beside, breaks, breaks_beside, shows};
use sp_text::Rule;

const MODULES: [Broken; 3] = [
    (
        b"MODULE m TYPES c: {p, q}; FUNCTIONS VFUN g(c x) -> INTEGER; INITIALLY 0; OFUN f(); \
            EFFECTS FORALL c x: 'g(p) = 1; END_FORALL; END_MODULE",
        103,
        108,
        Rule::TargetNotInjective,
    ),
    (
        b"MODULE m FUNCTIONS OVFUN get() -> INTEGER r; EFFECTS END_MODULE",
        25,
        28,
        Rule::ResultMissing,
    ),
    (
        b"MODULE m FUNCTIONS VFUN a() -> INTEGER; INITIALLY 0; VFUN b() -> INTEGER; INITIALLY \
            0; OFUN f(); EFFECTS 'a() = 'b(); 'b() = 'a(); END_MODULE",
        112,
        116,
        Rule::NewValueCycle,
    ),
];

#[test]
fn effects_of_worked_modules(rt: HostRuntime) {
    let alloc = rt.alloc();
    for (module, start, end, rule) in &MODULES {
        shows(&rt, alone(alloc, module), breaks(1, *start, *end, *rule));
    }
}

const CHANGES: [Broken; 5] = [
    (b"OFUN f(); EFFECTS TRUE;", 18, 22, Rule::NotDetermining),
    (
        b"OFUN f(); EFFECTS ('g() = 1);",
        18,
        28,
        Rule::NotDetermining,
    ),
    (
        b"VFUN d() -> INTEGER; DERIVATION g(); OFUN f(); EFFECTS 'g() = 'd();",
        62,
        66,
        Rule::NewValueOnRight,
    ),
    (
        b"OFUN f(); EFFECTS IF 'g() = 1 THEN ELSE END_IF;",
        21,
        25,
        Rule::NewValueInGuard,
    ),
    (
        b"OFUN f(); EFFECTS 'g() = 'g();",
        25,
        29,
        Rule::NewValueCycle,
    ),
];

#[test]
fn changes(rt: HostRuntime) {
    let alloc = rt.alloc();
    for (functions, start, end, rule) in &CHANGES {
        shows(
            &rt,
            beside(alloc, functions),
            breaks_beside(*start, *end, *rule),
        );
    }
}

const RESULTS: [Broken; 3] = [
    (
        b"OVFUN get() -> INTEGER r; EFFECTS IF g() = 1 THEN r = 1; ELSE END_IF;",
        6,
        9,
        Rule::ResultMissing,
    ),
    (
        b"OVFUN get() -> INTEGER r; EFFECTS r = 1; r = 2;",
        41,
        46,
        Rule::ResultTwice,
    ),
    (
        b"OVFUN get() -> INTEGER r; EFFECTS FORALL c x: r = 1; END_FORALL;",
        46,
        51,
        Rule::ResultTwice,
    ),
];

#[test]
fn results(rt: HostRuntime) {
    let alloc = rt.alloc();
    for (functions, start, end, rule) in &RESULTS {
        shows(
            &rt,
            beside(alloc, functions),
            breaks_beside(*start, *end, *rule),
        );
    }
}
