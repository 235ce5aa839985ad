//! What the texts of instances break.

use crate::texts::{Broken, breaks, made};
use sp_text::Rule;

// A designator type beside an enumeration.
const MEMBERS: &[u8] = b"MODULE m TYPES c: {p, q}; n: DESIGNATOR; END_MODULE";

const POPULATIONS: [Broken; 5] = [
    (b"INSTANCE s END_INSTANCE", 9, 10, Rule::NoPopulation),
    (
        b"INSTANCE s POPULATION n = {a}; POPULATION n = {b, b}; END_INSTANCE",
        42,
        43,
        Rule::TwiceDeclared,
    ),
    (
        b"INSTANCE s POPULATION n = {a, b, a}; END_INSTANCE",
        33,
        34,
        Rule::TwiceDeclared,
    ),
    (
        b"INSTANCE s POPULATION n = {}; POPULATION z = {}; END_INSTANCE",
        41,
        42,
        Rule::UnknownName,
    ),
    (
        b"INSTANCE s POPULATION n = {}; POPULATION c = {}; END_INSTANCE",
        41,
        42,
        Rule::WrongKind,
    ),
];

#[test]
fn populations(rt: HostRuntime) {
    let alloc = rt.alloc();
    for (text, start, end, rule) in &POPULATIONS {
        assert_eq!(rt;
            made(alloc, MEMBERS, text),
            Err(breaks(*start, *end, *rule))
        );
    }
}

// A parameter without arguments.
const NUMBER: &[u8] = b"MODULE m TYPES c: {p}; PARAMETERS INTEGER z(); END_MODULE";

const TABLES: [Broken; 4] = [
    (b"INSTANCE s END_INSTANCE", 9, 10, Rule::NoTable),
    (
        b"INSTANCE s PARAMETER z: OTHERWISE 1; PARAMETER z: OTHERWISE TRUE; END_INSTANCE",
        47,
        48,
        Rule::TwiceDeclared,
    ),
    (
        b"INSTANCE s PARAMETER z: OTHERWISE 1; PARAMETER y: OTHERWISE 1; END_INSTANCE",
        47,
        48,
        Rule::UnknownName,
    ),
    (
        b"INSTANCE s PARAMETER z: OTHERWISE 1; PARAMETER c: OTHERWISE 1; END_INSTANCE",
        47,
        48,
        Rule::WrongKind,
    ),
];

#[test]
fn tables(rt: HostRuntime) {
    let alloc = rt.alloc();
    for (text, start, end, rule) in &TABLES {
        assert_eq!(rt; made(alloc, NUMBER, text), Err(breaks(*start, *end, *rule)));
    }
}

// A row without arguments is told at its value, and by its arguments alone; their number is told at the table's name.
const ROWS: [Broken; 5] = [
    (
        b"INSTANCE s PARAMETER z: () = 1; () = 2; OTHERWISE 0; END_INSTANCE",
        37,
        38,
        Rule::TwiceDeclared,
    ),
    (
        b"INSTANCE s PARAMETER z: () = 1; () = TRUE; OTHERWISE 0; END_INSTANCE",
        37,
        41,
        Rule::TwiceDeclared,
    ),
    (
        b"INSTANCE s PARAMETER z: () = TRUE; (y) = 1; OTHERWISE 0; END_INSTANCE",
        21,
        22,
        Rule::WrongCount,
    ),
    (
        b"INSTANCE s PARAMETER z: () = TRUE; OTHERWISE FALSE; END_INSTANCE",
        29,
        33,
        Rule::WrongType,
    ),
    (
        b"INSTANCE s PARAMETER z: OTHERWISE TRUE; END_INSTANCE",
        34,
        38,
        Rule::WrongType,
    ),
];

#[test]
fn rows_without_arguments(rt: HostRuntime) {
    let alloc = rt.alloc();
    for (text, start, end, rule) in &ROWS {
        assert_eq!(rt; made(alloc, NUMBER, text), Err(breaks(*start, *end, *rule)));
    }
}

// A parameter from levels to levels.
const LEVELS: &[u8] = b"MODULE m PARAMETERS LEVEL l(LEVEL x); END_MODULE";

// Rows are told apart by what they stand for: LOW is the least level, and HIGH the greatest.
const OF_LEVELS: [Broken; 5] = [
    (
        b"INSTANCE s PARAMETER l: (LOW) = LOW; (BOTTOM) = HIGH; OTHERWISE LOW; END_INSTANCE",
        38,
        44,
        Rule::TwiceDeclared,
    ),
    (
        b"INSTANCE s PARAMETER l: (TOP) = LOW; (HIGH) = 1; OTHERWISE LOW; END_INSTANCE",
        38,
        42,
        Rule::TwiceDeclared,
    ),
    (
        b"INSTANCE s PARAMETER l: (MID) = LOW; OTHERWISE LOW; END_INSTANCE",
        25,
        28,
        Rule::UnknownName,
    ),
    (
        b"INSTANCE s PARAMETER l: (?) = LOW; OTHERWISE LOW; END_INSTANCE",
        25,
        26,
        Rule::WrongType,
    ),
    (
        b"INSTANCE s PARAMETER l: (LOW) = LOW; OTHERWISE 1; END_INSTANCE",
        47,
        48,
        Rule::WrongType,
    ),
];

#[test]
fn rows_of_levels(rt: HostRuntime) {
    let alloc = rt.alloc();
    for (text, start, end, rule) in &OF_LEVELS {
        assert_eq!(rt; made(alloc, LEVELS, text), Err(breaks(*start, *end, *rule)));
    }
}

// A parameter of a member of a population and one of an enumeration.
const CHOICES: &[u8] =
    b"MODULE m TYPES c: {p, q}; n: DESIGNATOR; PARAMETERS n k(n x; c y); END_MODULE";

const OF_MEMBERS: [Broken; 4] = [
    (
        b"INSTANCE s POPULATION n = {a}; PARAMETER k: (a, r) = a; OTHERWISE a; END_INSTANCE",
        48,
        49,
        Rule::WrongType,
    ),
    (
        b"INSTANCE s POPULATION n = {a}; PARAMETER k: (b, p) = a; OTHERWISE a; END_INSTANCE",
        45,
        46,
        Rule::NotInPopulation,
    ),
    (
        b"INSTANCE s POPULATION n = {a}; PARAMETER k: (a, p) = a; OTHERWISE b; END_INSTANCE",
        66,
        67,
        Rule::NotInPopulation,
    ),
    (
        b"INSTANCE s POPULATION n = {a}; PARAMETER k: (b) = b; OTHERWISE a; END_INSTANCE",
        41,
        42,
        Rule::WrongCount,
    ),
];

#[test]
fn rows_of_members(rt: HostRuntime) {
    let alloc = rt.alloc();
    for (text, start, end, rule) in &OF_MEMBERS {
        assert_eq!(rt;
            made(alloc, CHOICES, text),
            Err(breaks(*start, *end, *rule))
        );
    }
}

// Of a missing population and a missing table the population is told, and a missing table beside a broken population.
const MISSING: [Broken; 2] = [
    (b"INSTANCE s END_INSTANCE", 9, 10, Rule::NoPopulation),
    (
        b"INSTANCE s POPULATION n = {a, a}; END_INSTANCE",
        9,
        10,
        Rule::NoTable,
    ),
];

#[test]
fn what_is_missing(rt: HostRuntime) {
    let alloc = rt.alloc();
    for (text, start, end, rule) in &MISSING {
        assert_eq!(rt;
            made(alloc, CHOICES, text),
            Err(breaks(*start, *end, *rule))
        );
    }
}
