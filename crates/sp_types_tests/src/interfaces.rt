//! What interfaces break: orders that are no lattices, with the two levels that show it, and levels of functions.

use crate::texts::{Broken, NOTHING, OPERATION, alone, below, breaks, shows};
use crate::worked::FILES;
use sp_text::Rule;

// Interfaces of a module that declares nothing.
const ORDERS: [Broken; 3] = [
    (
        b"INTERFACE i MODULES m; CHAIN a; CATEGORIES b, c, b_c; SAMPLE s; END_INTERFACE",
        29,
        30,
        Rule::TwiceDeclared,
    ),
    (
        b"INTERFACE i MODULES m; LATTICE a, b; ORDER a < b; ORDER b < a; SAMPLE s; \
            END_INTERFACE",
        23,
        30,
        Rule::Cycle(0, 1),
    ),
    (
        b"INTERFACE i MODULES m; LATTICE a, b, t; ORDER a < t; ORDER b < t; SAMPLE s; \
            END_INTERFACE",
        23,
        30,
        Rule::NoGlb(0, 1),
    ),
];

#[test]
fn orders(rt: HostRuntime) {
    let alloc = rt.alloc();
    for (interface, start, end, rule) in &ORDERS {
        shows(
            &rt,
            below(alloc, interface, NOTHING),
            breaks(0, *start, *end, *rule),
        );
    }
}

// An interface of the module `files`.
const TWO: &[u8] = b"INTERFACE two
MODULES files;
LATTICE p, q, r, s; ORDER p < r; ORDER p < s; ORDER q < r; ORDER q < s;
LEVEL data(f) IS cls(f);
LEVEL read(u, f) IS clr(u);
LEVEL write(u, f, x) IS clr(u);
SAMPLE small;
END_INTERFACE";

#[test]
fn a_worked_order(rt: HostRuntime) {
    let alloc = rt.alloc();
    shows(
        &rt,
        below(alloc, TWO, FILES),
        breaks(0, 29, 36, Rule::NoLub(0, 1)),
    );
}

// Interfaces of a module with an operation `f`.
const EQUATIONS: [Broken; 4] = [
    (
        b"INTERFACE i MODULES m; LATTICE a, b; ORDER a < f; SAMPLE s; END_INTERFACE",
        47,
        48,
        Rule::WrongKind,
    ),
    (
        b"INTERFACE i MODULES m; LATTICE LOW; LEVEL f() IS LOW; LEVEL f() IS LOW; SAMPLE s; \
            END_INTERFACE",
        60,
        61,
        Rule::TwiceDeclared,
    ),
    (
        b"INTERFACE i MODULES m; LATTICE LOW; LEVEL h() IS LOW; SAMPLE s; END_INTERFACE",
        42,
        43,
        Rule::UnknownName,
    ),
    (
        b"INTERFACE i MODULES m; LATTICE LOW; LEVEL f(x) IS LOW; SAMPLE s; END_INTERFACE",
        42,
        43,
        Rule::WrongCount,
    ),
];

#[test]
fn names_of_equations(rt: HostRuntime) {
    let alloc = rt.alloc();
    for (interface, start, end, rule) in &EQUATIONS {
        shows(
            &rt,
            below(alloc, interface, OPERATION),
            breaks(0, *start, *end, *rule),
        );
    }
}

// A module with a definition that quantifies.
const QUANTIFYING: &[u8] =
    b"MODULE m TYPES c: {p, q}; DEFINITIONS BOOLEAN every() IS FORALL c x: TRUE END_FORALL; \
        FUNCTIONS OFUN f(); EFFECTS END_MODULE";

const QUANTIFIED: [Broken; 2] = [
    (
        b"INTERFACE i MODULES m; LATTICE LOW; LEVEL f() IS IF FORALL c x: TRUE END_FORALL \
            THEN LOW ELSE LOW END_IF; SAMPLE s; END_INTERFACE",
        49,
        104,
        Rule::LevelQuantifies,
    ),
    (
        b"INTERFACE i MODULES m; LATTICE LOW; LEVEL f() IS IF every() THEN LOW ELSE LOW \
            END_IF; SAMPLE s; END_INTERFACE",
        49,
        84,
        Rule::LevelQuantifies,
    ),
];

#[test]
fn levels_with_a_quantifier(rt: HostRuntime) {
    let alloc = rt.alloc();
    for (interface, start, end, rule) in &QUANTIFIED {
        shows(
            &rt,
            below(alloc, interface, QUANTIFYING),
            breaks(0, *start, *end, *rule),
        );
    }
}

// A module with a level as its state.
const LEVELLED: &[u8] = b"MODULE m FUNCTIONS VFUN g() -> LEVEL; INITIALLY LOW; END_MODULE";

#[test]
fn a_level_that_reads_the_state(rt: HostRuntime) {
    let alloc = rt.alloc();
    let interface =
        b"INTERFACE i MODULES m; LATTICE LOW; LEVEL g() IS LUB(LOW, g()); SAMPLE s; END_INTERFACE";
    shows(
        &rt,
        below(alloc, interface, LEVELLED),
        breaks(0, 58, 61, Rule::LevelReadsState),
    );
}

#[test]
fn a_function_without_a_level(rt: HostRuntime) {
    let alloc = rt.alloc();
    shows(
        &rt,
        alone(alloc, OPERATION),
        breaks(1, 24, 25, Rule::NoLevel),
    );
}
