//! Rows of types, what lacks a row, and lattices.

use crate::texts::{
    Broken, FUNCTIONS, LOWER, LOWER_MODULE, PARAMETERS, System, TYPES, TYPES_AT, UPPER, breaks,
    breaks_behind, judged, mapped, shows, with_rows,
};
use sp_text::Rule;

const ROWS: [Broken; 8] = [
    (b"t IS d; c IS e; t IS d;", 16, 17, Rule::TwiceDeclared),
    (b"zz IS d; t IS d; c IS e;", 0, 2, Rule::UnknownName),
    (b"g IS d; t IS d; c IS e;", 0, 1, Rule::WrongKind),
    (b"t IS zz; c IS e;", 5, 7, Rule::UnknownName),
    (b"t IS q; c IS e;", 5, 6, Rule::WrongKind),
    (b"t IS e; c IS e;", 5, 6, Rule::WrongKind),
    (b"t IS d; c IS d;", 13, 14, Rule::WrongKind),
    (b"t IS d; c IS three;", 13, 18, Rule::WrongKind),
];

#[test]
fn rows_of_types(rt: HostRuntime) {
    let alloc = rt.alloc();
    for (rows, start, end, rule) in &ROWS {
        shows(
            &rt,
            with_rows(alloc, rows, PARAMETERS, FUNCTIONS),
            breaks_behind(TYPES_AT, *start, *end, *rule),
        );
    }
}

// What lacks a row is told at the mapping's name, and so before what is broken behind it.
const MISSING: [(&[u8], &[u8], &[u8]); 4] = [
    (b"t IS d;", PARAMETERS, FUNCTIONS),
    (TYPES, b"", FUNCTIONS),
    (TYPES, PARAMETERS, b""),
    (b"t IS e; c IS e;", b"p(a) IS TRUE;", b""),
];

#[test]
fn what_lacks_a_row(rt: HostRuntime) {
    let alloc = rt.alloc();
    for (types, parameters, functions) in &MISSING {
        shows(
            &rt,
            with_rows(alloc, types, parameters, functions),
            breaks(8, 9, Rule::NoMapping),
        );
    }
}

const WHOLE: &[u8] = b"MAPPING m FROM u TO l TYPES t IS d; c IS e; PARAMETERS p(a) IS q(a);
FUNCTIONS g(a) IS h(a, 0); END_MAPPING";

// Lower interfaces whose levels are others than LOW and above it HIGH.
const OTHERS: [&[u8]; 4] = [
    b"INTERFACE l MODULES l; LATTICE LOW, HIGH; ORDER HIGH < LOW; LEVEL h(a, i) IS q(a);
LEVEL put() IS LOW; SAMPLE s; END_INTERFACE",
    b"INTERFACE l MODULES l; LATTICE HIGH, LOW; ORDER LOW < HIGH; LEVEL h(a, i) IS q(a);
LEVEL put() IS LOW; SAMPLE s; END_INTERFACE",
    b"INTERFACE l MODULES l; CHAIN LOW < HIGH < MORE; LEVEL h(a, i) IS q(a);
LEVEL put() IS LOW; SAMPLE s; END_INTERFACE",
    b"INTERFACE l MODULES l; LATTICE HIGH, LOW; ORDER HIGH < LOW; LEVEL h(a, i) IS q(a);
LEVEL put() IS LOW; SAMPLE s; END_INTERFACE",
];

#[test]
fn lattices(rt: HostRuntime) {
    let alloc = rt.alloc();
    for interface in &OTHERS {
        let lower = System {
            interface: *interface,
            module: LOWER_MODULE,
        };
        let differs = breaks(8, 9, Rule::LatticeDiffers);
        shows(&rt, judged(alloc, &UPPER, &lower, WHOLE), differs);
        let without_rows = b"MAPPING m FROM u TO l END_MAPPING";
        shows(&rt, judged(alloc, &UPPER, &lower, without_rows), differs);
    }
}

#[test]
fn a_chain_that_is_the_same_lattice(rt: HostRuntime) {
    let alloc = rt.alloc();
    let chain = System {
        interface: b"INTERFACE l MODULES l; CHAIN LOW < HIGH; LEVEL h(a, i) IS q(a); LEVEL put() IS LOW;
SAMPLE s; END_INTERFACE",
        module: LOWER_MODULE,
    };
    shows(&rt, judged(alloc, &UPPER, &chain, WHOLE), mapped(2, 1));
    shows(&rt, judged(alloc, &UPPER, &LOWER, WHOLE), mapped(2, 1));
}
