//! Names: which are declared, known and of the kind that is asked, and how many arguments stand behind them.

use crate::texts::{Broken, NOTHING, alone, beside, breaks, breaks_beside, elaborated, shows};
use sp_text::Rule;

// Modules `m` that break rules of names and headers.
const HEADERS: [Broken; 5] = [
    (b"MODULE n END_MODULE", 7, 8, Rule::WrongName),
    (
        b"MODULE m TYPES c: {p, q}; PARAMETERS INTEGER q(); END_MODULE",
        45,
        46,
        Rule::TwiceDeclared,
    ),
    (
        b"MODULE m PARAMETERS INTEGER z(INTEGER x; INTEGER x); END_MODULE",
        49,
        50,
        Rule::TwiceDeclared,
    ),
    (
        b"MODULE m FUNCTIONS VFUN a() -> COLOR; INITIALLY 0; END_MODULE",
        31,
        36,
        Rule::UnknownName,
    ),
    (
        b"MODULE m TYPES c: {p, q}; PARAMETERS p z(); END_MODULE",
        37,
        38,
        Rule::WrongKind,
    ),
];

#[test]
fn names_of_headers(rt: HostRuntime) {
    let alloc = rt.alloc();
    for (module, start, end, rule) in &HEADERS {
        shows(&rt, alone(alloc, module), breaks(1, *start, *end, *rule));
    }
}

// The same of names within functions.
const FUNCTIONS: [Broken; 4] = [
    (
        b"OFUN f(); EXCEPTIONS e: TRUE; e: TRUE; EFFECTS",
        30,
        31,
        Rule::TwiceDeclared,
    ),
    (
        b"VFUN d() -> INTEGER; DERIVATION zz();",
        32,
        34,
        Rule::UnknownName,
    ),
    (
        b"VFUN d() -> INTEGER; DERIVATION c();",
        32,
        33,
        Rule::WrongKind,
    ),
    (
        b"VFUN d() -> INTEGER; DERIVATION g(1);",
        32,
        33,
        Rule::WrongCount,
    ),
];

#[test]
fn names_in_functions(rt: HostRuntime) {
    let alloc = rt.alloc();
    for (functions, start, end, rule) in &FUNCTIONS {
        shows(
            &rt,
            beside(alloc, functions),
            breaks_beside(*start, *end, *rule),
        );
    }
}

#[test]
fn a_module_that_is_named_twice(rt: HostRuntime) {
    let alloc = rt.alloc();
    let interface = b"INTERFACE i MODULES m, m; LATTICE LOW; SAMPLE s; END_INTERFACE";
    shows(
        &rt,
        elaborated(alloc, interface, &[NOTHING, NOTHING]),
        breaks(0, 23, 24, Rule::TwiceDeclared),
    );
}
