//! Definitions, assertions, initial values and derivations.

use crate::texts::{Broken, alone, beside, breaks, breaks_beside, shows};
use sp_text::Rule;

const MODULES: [Broken; 5] = [
    (
        b"MODULE m FUNCTIONS VFUN a() -> INTEGER; INITIALLY TRUE; END_MODULE",
        50,
        54,
        Rule::WrongType,
    ),
    (
        b"MODULE m ASSERTIONS FORALL INTEGER x: TRUE END_FORALL; END_MODULE",
        27,
        34,
        Rule::NotFinite,
    ),
    (
        b"MODULE m DEFINITIONS INTEGER k() IS k(); END_MODULE",
        36,
        39,
        Rule::Cyclic,
    ),
    (
        b"MODULE m DEFINITIONS INTEGER k() IS d(); FUNCTIONS VFUN d() -> INTEGER; DERIVATION \
            1 + k(); END_MODULE",
        87,
        90,
        Rule::Cyclic,
    ),
    (
        b"MODULE m DEFINITIONS INTEGER k() IS g(); ASSERTIONS 1 = k(); FUNCTIONS VFUN g() -> \
            INTEGER; INITIALLY 0; END_MODULE",
        56,
        59,
        Rule::ReadsState,
    ),
];

#[test]
fn texts_of_modules(rt: HostRuntime) {
    let alloc = rt.alloc();
    for (module, start, end, rule) in &MODULES {
        shows(&rt, alone(alloc, module), breaks(1, *start, *end, *rule));
    }
}

const FUNCTIONS: [Broken; 5] = [
    (
        b"OFUN f(); EFFECTS FORALL INTEGER x: END_FORALL;",
        25,
        32,
        Rule::NotFinite,
    ),
    (
        b"VFUN d() -> INTEGER; DERIVATION d();",
        32,
        35,
        Rule::Cyclic,
    ),
    (
        b"VFUN d() -> INTEGER; DERIVATION e(); VFUN e() -> INTEGER; DERIVATION 0;",
        32,
        35,
        Rule::Cyclic,
    ),
    (
        b"VFUN h() -> INTEGER; INITIALLY 1 + g();",
        35,
        38,
        Rule::ReadsState,
    ),
    (
        b"VFUN d() -> INTEGER; DERIVATION 'g();",
        32,
        36,
        Rule::NewValueMisplaced,
    ),
];

#[test]
fn texts_of_functions(rt: HostRuntime) {
    let alloc = rt.alloc();
    for (functions, start, end, rule) in &FUNCTIONS {
        shows(
            &rt,
            beside(alloc, functions),
            breaks_beside(*start, *end, *rule),
        );
    }
}
