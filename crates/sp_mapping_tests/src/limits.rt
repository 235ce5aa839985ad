//! Limits of the expressions of a mapping, at their number and above.

use crate::texts::{Judged, System, exceeds, judged, mapped, shows};
use sp_text::{Memory, Quantity, TextFault};
use std::alloc::Global;
use std::process::Abort;

// A text that keeps a limit, and one that exceeds it from one place to the other.
type Limited = (&'static [u8], &'static [u8], u32, u32, Quantity);

const UPPER: System<'static> = System {
    interface: b"INTERFACE u MODULES u; LATTICE LOW, HIGH; ORDER LOW < HIGH; LEVEL f() IS up(p());
SAMPLE s; END_INTERFACE",
    module: b"MODULE u PARAMETERS LEVEL p(); LEVEL up(LEVEL l); FUNCTIONS VFUN f() -> BOOLEAN;
INITIALLY TRUE; END_MODULE",
};

// Of its definitions `e8` has 1,023 nodes, `d7` 511, and `n56` is 57 high.
const LOWER: System<'static> = System {
    interface: b"INTERFACE l MODULES l; LATTICE LOW, HIGH; ORDER LOW < HIGH; SAMPLE s; END_INTERFACE",
    module: b"MODULE l TYPES e: {r, b}; DEFINITIONS
BOOLEAN e0() IS TRUE AND TRUE; BOOLEAN e1() IS e0() AND e0(); BOOLEAN e2() IS e1() AND e1();
BOOLEAN e3() IS e2() AND e2(); BOOLEAN e4() IS e3() AND e3(); BOOLEAN e5() IS e4() AND e4();
BOOLEAN e6() IS e5() AND e5(); BOOLEAN e7() IS e6() AND e6(); BOOLEAN e8() IS e7() AND e7();
LEVEL d0() IS LUB(LOW, LOW); LEVEL d1() IS LUB(d0(), d0()); LEVEL d2() IS LUB(d1(), d1());
LEVEL d3() IS LUB(d2(), d2()); LEVEL d4() IS LUB(d3(), d3()); LEVEL d5() IS LUB(d4(), d4());
LEVEL d6() IS LUB(d5(), d5()); LEVEL d7() IS LUB(d6(), d6());
BOOLEAN n8(BOOLEAN c) IS NOT NOT NOT NOT NOT NOT NOT NOT c;
BOOLEAN n56() IS n8(n8(n8(n8(n8(n8(n8(TRUE))))))); END_MODULE",
};

// Expressions of a function.
const VALUES: [Limited; 3] = [
    (
        b"MAPPING m FROM u TO l PARAMETERS up(l) IS l; p() IS LOW; FUNCTIONS f() IS FORALL e
x: FORALL e y: FORALL e z: TRUE END_FORALL END_FORALL END_FORALL; END_MAPPING",
        b"MAPPING m FROM u TO l PARAMETERS up(l) IS l; p() IS LOW; FUNCTIONS f() IS FORALL e
x: FORALL e y: FORALL e z: FORALL e w: TRUE END_FORALL END_FORALL END_FORALL END_FORALL;
END_MAPPING",
        74,
        170,
        Quantity::Quantifiers,
    ),
    (
        b"MAPPING m FROM u TO l PARAMETERS up(l) IS l; p() IS LOW; FUNCTIONS f() IS NOT e8();
END_MAPPING",
        b"MAPPING m FROM u TO l PARAMETERS up(l) IS l; p() IS LOW; FUNCTIONS f() IS NOT (NOT
e8()); END_MAPPING",
        74,
        88,
        Quantity::ExpressionNodes,
    ),
    (
        b"MAPPING m FROM u TO l PARAMETERS up(l) IS l; p() IS LOW; FUNCTIONS f() IS NOT NOT
NOT NOT NOT NOT NOT n56(); END_MAPPING",
        b"MAPPING m FROM u TO l PARAMETERS up(l) IS l; p() IS LOW; FUNCTIONS f() IS n8(n56());
END_MAPPING",
        74,
        83,
        Quantity::Height,
    ),
];

fn each_is_kept(rt: &impl Abort, alloc: Global, texts: &[Limited]) {
    for (within, beyond, start, end, quantity) in texts {
        shows(rt, judged(alloc, &UPPER, &LOWER, within), mapped(0, 1));
        shows(
            rt,
            judged(alloc, &UPPER, &LOWER, beyond),
            exceeds(*start, *end, *quantity),
        );
    }
}

#[test]
fn limits_of_expressions(rt: HostRuntime) {
    each_is_kept(&rt, rt.alloc(), &VALUES);
}

// Levels of a function, translated; they stand at the name of its row.
const LEVELS: [Limited; 2] = [
    (
        b"MAPPING m FROM u TO l PARAMETERS up(l) IS IF FORALL e x: FORALL e y: l = LOW
END_FORALL END_FORALL THEN LOW ELSE HIGH END_IF; p() IS IF FORALL e x: TRUE END_FORALL THEN LOW
ELSE HIGH END_IF; FUNCTIONS f() IS TRUE; END_MAPPING",
        b"MAPPING m FROM u TO l PARAMETERS up(l) IS IF FORALL e x: FORALL e y: l = LOW
END_FORALL END_FORALL THEN LOW ELSE HIGH END_IF; p() IS IF FORALL e x: FORALL e y: TRUE
END_FORALL END_FORALL THEN LOW ELSE HIGH END_IF; FUNCTIONS f() IS TRUE; END_MAPPING",
        224,
        225,
        Quantity::Quantifiers,
    ),
    (
        b"MAPPING m FROM u TO l PARAMETERS up(l) IS LUB(l, l); p() IS d7(); FUNCTIONS f() IS
TRUE; END_MAPPING",
        b"MAPPING m FROM u TO l PARAMETERS up(l) IS LUB(LOW, LUB(l, l)); p() IS d7();
FUNCTIONS f() IS TRUE; END_MAPPING",
        86,
        87,
        Quantity::ExpressionNodes,
    ),
];

#[test]
fn limits_of_translated_levels(rt: HostRuntime) {
    each_is_kept(&rt, rt.alloc(), &LEVELS);
}

fn push_bounds(text: &mut Vec<u8>, count: u32, inner: &[u8]) -> Result<(), Memory> {
    for _ in 0..count {
        text.extend_from_slice(b"LUB(LOW, ")?;
    }
    text.extend_from_slice(inner)?;
    for _ in 0..count {
        text.extend_from_slice(b")")?;
    }
    Ok(())
}

// A mapping whose level is so many and 32 high.
fn bounded(alloc: Global, count: u32) -> Result<Vec<u8>, Memory> {
    let mut text = Vec::new(alloc);
    text.extend_from_slice(b"MAPPING m FROM u TO l PARAMETERS up(l) IS ")?;
    push_bounds(&mut text, 32, b"l")?;
    text.extend_from_slice(b"; p() IS ")?;
    push_bounds(&mut text, count.saturating_sub(1), b"LOW")?;
    text.extend_from_slice(b"; FUNCTIONS f() IS TRUE; END_MAPPING")?;
    Ok(text)
}

fn judged_bounded(alloc: Global, count: u32) -> Judged {
    match bounded(alloc, count) {
        Ok(text) => judged(alloc, &UPPER, &LOWER, &text),
        Err(_) => Ok(Err(TextFault::Memory)),
    }
}

#[test]
fn translated_levels_up_to_64_high(rt: HostRuntime) {
    let alloc = rt.alloc();
    shows(&rt, judged_bounded(alloc, 32), mapped(0, 1));
    shows(
        &rt,
        judged_bounded(alloc, 33),
        exceeds(707, 708, Quantity::Height),
    );
}
