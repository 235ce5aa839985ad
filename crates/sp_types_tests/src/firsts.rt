//! Which of several faults is told.

use crate::texts::{Broken, beside, breaks, breaks_beside, elaborated, exceeds_beside, shows};
use sp_text::{Quantity, Rule};

// An interface of the modules `m` and `n`, of which a level equation is broken.
const TWO: &[u8] =
    b"INTERFACE i MODULES m, n; LATTICE LOW; LEVEL zz() IS LOW; SAMPLE s; END_INTERFACE";

// Two modules, and the file, the place and the rule that is told: headers come before texts and these before levels, and
// then the first file.
const PAIRS: [(&[u8], &[u8], u16, u32, u32, Rule); 3] = [
    (
        b"MODULE m END_MODULE",
        b"MODULE n ASSERTIONS 1; END_MODULE",
        2,
        20,
        21,
        Rule::WrongType,
    ),
    (
        b"MODULE m ASSERTIONS 1; END_MODULE",
        b"MODULE n PARAMETERS zz x(); END_MODULE",
        2,
        20,
        22,
        Rule::UnknownName,
    ),
    (
        b"MODULE m ASSERTIONS TRUE; zz(); END_MODULE",
        b"MODULE n ASSERTIONS 1; END_MODULE",
        1,
        26,
        28,
        Rule::UnknownName,
    ),
];

#[test]
fn passes_and_files(rt: HostRuntime) {
    let alloc = rt.alloc();
    for (first, second, file, start, end, rule) in &PAIRS {
        shows(
            &rt,
            elaborated(alloc, TWO, &[*first, *second]),
            breaks(*file, *start, *end, *rule),
        );
    }
}

// A missing result is told beside a broken exception, but not beside a broken effect. A read of the state is told where a
// limit that is exceeded begins no sooner. Within its limits a target is judged by its bound variables.
const FUNCTIONS: [Broken; 4] = [
    (
        b"OVFUN f() -> INTEGER r; EXCEPTIONS e: zz; EFFECTS",
        6,
        7,
        Rule::ResultMissing,
    ),
    (
        b"OVFUN f() -> INTEGER r; EFFECTS 'g() = zz;",
        39,
        41,
        Rule::UnknownName,
    ),
    (
        b"VFUN h() -> BOOLEAN; INITIALLY g() = 0 AND FORALL c a: FORALL c b: FORALL c d: \
            FORALL c e: TRUE END_FORALL END_FORALL END_FORALL END_FORALL;",
        31,
        34,
        Rule::ReadsState,
    ),
    (
        b"VFUN h(BOOLEAN x) -> INTEGER; INITIALLY 0; OFUN f(); EFFECTS FORALL c x: 'h(FORALL \
            c a: FORALL c b: FORALL c d: TRUE END_FORALL END_FORALL END_FORALL) = 1; END_FORALL;",
        73,
        150,
        Rule::TargetNotInjective,
    ),
];

#[test]
fn rules(rt: HostRuntime) {
    let alloc = rt.alloc();
    for (functions, start, end, rule) in &FUNCTIONS {
        shows(
            &rt,
            beside(alloc, functions),
            breaks_beside(*start, *end, *rule),
        );
    }
}

// The limit is told where it begins sooner than a read of the state, and where a target exceeds it.
const LIMITS: [(&[u8], u32, u32); 2] = [
    (
        b"VFUN h() -> BOOLEAN; INITIALLY FORALL c a: FORALL c b: FORALL c d: FORALL c e: g() \
            = 0 END_FORALL END_FORALL END_FORALL END_FORALL;",
        31,
        130,
    ),
    (
        b"VFUN h(BOOLEAN x) -> INTEGER; INITIALLY 0; OFUN f(); EFFECTS FORALL c x: 'h(FORALL \
            c a: FORALL c b: FORALL c d: FORALL c e: TRUE END_FORALL END_FORALL END_FORALL \
            END_FORALL) = 1; END_FORALL;",
        76,
        172,
    ),
];

#[test]
fn limits(rt: HostRuntime) {
    let alloc = rt.alloc();
    for (functions, start, end) in &LIMITS {
        shows(
            &rt,
            beside(alloc, functions),
            exceeds_beside(*start, *end, Quantity::Quantifiers),
        );
    }
}
