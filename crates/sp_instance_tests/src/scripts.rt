//! What the texts of scripts break, and what they stand for.

use crate::texts::{Broken, System, breaks, count};
use sp_text::Rule;

const CALLED: System = System {
    interface: b"INTERFACE i MODULES m; LATTICE LOW, HIGH; ORDER LOW < HIGH; LEVEL h(x) IS LOW;
LEVEL o(x, y, z, w) IS LOW; SAMPLE s; END_INTERFACE",
    module: b"MODULE m TYPES c: {p, q}; FUNCTIONS
VFUN h(INTEGER x) -> INTEGER; HIDDEN; INITIALLY 0;
OFUN o(INTEGER x; BOOLEAN y; LEVEL z; c w); EFFECTS END_MODULE",
    instance: b"INSTANCE s END_INSTANCE",
};

// The values of a call with another number of them aren't judged.
const NAMES: [Broken; 5] = [
    (b"zz();", 0, 2, Rule::UnknownName),
    (b"c();", 0, 1, Rule::WrongKind),
    (b"h(1);", 0, 1, Rule::NotVisible),
    (b"h();", 0, 1, Rule::WrongCount),
    (b"o(zz);", 0, 1, Rule::WrongCount),
];

#[test]
fn names_and_counts(rt: HostRuntime) {
    let alloc = rt.alloc();
    for (text, start, end, rule) in &NAMES {
        assert_eq!(rt;
            count(alloc, &CALLED, text),
            Err(breaks(*start, *end, *rule))
        );
    }
}

const VALUES: [Broken; 7] = [
    (b"o(TRUE, TRUE, LOW, p);", 2, 6, Rule::WrongType),
    (b"o(1, ?, LOW, p);", 5, 6, Rule::WrongType),
    (b"o(1, TRUE, ?, p);", 11, 12, Rule::WrongType),
    (b"o(1, TRUE, MID, p);", 11, 14, Rule::UnknownName),
    (b"o(1, TRUE, LOW, r);", 16, 17, Rule::WrongType),
    (b"o(?, TRUE, LOW, p);", 2, 3, Rule::NotProper),
    (b"o(1, TRUE, LOW, ?);", 16, 17, Rule::NotProper),
];

#[test]
fn values_of_calls(rt: HostRuntime) {
    let alloc = rt.alloc();
    for (text, start, end, rule) in &VALUES {
        assert_eq!(rt;
            count(alloc, &CALLED, text),
            Err(breaks(*start, *end, *rule))
        );
    }
}

const FILES: System = System {
    interface: b"INTERFACE files
MODULES files;
LATTICE LOW, HIGH; ORDER LOW < HIGH;
LEVEL data(f) IS cls(f);
LEVEL read(u, f) IS clr(u);
LEVEL write(u, f, x) IS clr(u);
SAMPLE small;
END_INTERFACE",
    module: b"MODULE files
TYPES user: DESIGNATOR; file: DESIGNATOR;
PARAMETERS LEVEL clr(user u); LEVEL cls(file f);
FUNCTIONS
VFUN data(file f) -> INTEGER; HIDDEN; INITIALLY 0;
OVFUN read(user u; file f) -> INTEGER r;
  EXCEPTIONS no_read: NOT cls(f) <= clr(u);
  EFFECTS r = data(f);
OFUN write(user u; file f; INTEGER x);
  EXCEPTIONS no_write: NOT clr(u) <= cls(f);
  EFFECTS 'data(f) = x;
END_MODULE",
    instance: b"INSTANCE small
POPULATION user = {alice, bob}; POPULATION file = {memo, plan};
PARAMETER clr: (alice) = HIGH; OTHERWISE LOW;
PARAMETER cls: (plan) = HIGH; OTHERWISE LOW;
END_INSTANCE",
};

const OF_FILES: [Broken; 5] = [
    (b"data(memo);", 0, 4, Rule::NotVisible),
    (b"read(carol, memo);", 5, 10, Rule::NotInPopulation),
    (b"read(?, memo);", 5, 6, Rule::NotProper),
    (b"read(bob);", 0, 4, Rule::WrongCount),
    (b"read(bob, memo)", 15, 15, Rule::Unexpected),
];

#[test]
fn scripts_of_files(rt: HostRuntime) {
    let alloc = rt.alloc();
    for (text, start, end, rule) in &OF_FILES {
        assert_eq!(rt;
            count(alloc, &FILES, text),
            Err(breaks(*start, *end, *rule))
        );
    }
}

#[test]
fn a_worked_script(rt: HostRuntime) {
    let text = b"write(alice, memo, 7); read(bob, memo);";
    assert_eq!(rt; count(rt.alloc(), &FILES, text), Ok(2));
}

const FILLED: System = System {
    interface: b"INTERFACE m MODULES m; LATTICE LOW; LEVEL data(f) IS LOW; LEVEL fill(x) IS LOW;
SAMPLE s; END_INTERFACE",
    module: b"MODULE m TYPES file: DESIGNATOR; FUNCTIONS
VFUN data(file f) -> INTEGER; INITIALLY 0;
OFUN fill(INTEGER x); EFFECTS FORALL file f: 'data(f) = x; END_FORALL; END_MODULE",
    instance: b"INSTANCE s POPULATION file = {f0, f1}; END_INSTANCE",
};

#[test]
fn a_file_that_no_population_has(rt: HostRuntime) {
    let alloc = rt.alloc();
    assert_eq!(rt;
        count(alloc, &FILLED, b"data(z);"),
        Err(breaks(5, 6, Rule::NotInPopulation))
    );
    assert_eq!(rt; count(alloc, &FILLED, b"fill(5); data(f1);"), Ok(2));
}

const REFUSING: System = System {
    interface: b"INTERFACE m MODULES m; LATTICE LOW; LEVEL op() IS LOW; SAMPLE s; END_INTERFACE",
    module: b"MODULE m FUNCTIONS OFUN op(); EXCEPTIONS first: TRUE; second: TRUE; EFFECTS END_MODULE",
    instance: b"INSTANCE s END_INSTANCE",
};

#[test]
fn a_call_without_values(rt: HostRuntime) {
    assert_eq!(rt; count(rt.alloc(), &REFUSING, b"op();"), Ok(1));
}
