//! Limits after expansion.

use crate::texts::{exceeds, shows, type_below, type_of};
use sp_text::{Memory, Quantity, TextFault, push_number};
use sp_values::Ty;
use std::alloc::Global;

// `e0` has 3 nodes; each further definition calls the one before it twice, so that `e8` has 1,023.
fn doubling(alloc: Global, count: u16) -> Result<Vec<u8>, Memory> {
    let mut text = Vec::new(alloc);
    text.extend_from_slice(b"BOOLEAN e0() IS TRUE AND TRUE; ")?;
    for k in 1..count {
        text.extend_from_slice(b"BOOLEAN e")?;
        push_number(alloc, &mut text, k as i64)?;
        text.extend_from_slice(b"() IS e")?;
        push_number(alloc, &mut text, k as i64 - 1)?;
        text.extend_from_slice(b"() AND e")?;
        push_number(alloc, &mut text, k as i64 - 1)?;
        text.extend_from_slice(b"(); ")?;
    }
    Ok(text)
}

fn doubled(alloc: Global, count: u16, text: &[u8]) -> Result<Ty, TextFault> {
    type_below(alloc, &doubling(alloc, count)?, &[], None, text)
}

#[test]
fn nodes_up_to_1024(rt: HostRuntime) {
    let alloc = rt.alloc();
    shows(&rt, doubled(alloc, 9, b"e8()"), Ok(Ty::Boolean));
    shows(&rt, doubled(alloc, 9, b"NOT e8()"), Ok(Ty::Boolean));
    shows(
        &rt,
        doubled(alloc, 9, b"NOT NOT e8()"),
        exceeds(0, 12, Quantity::ExpressionNodes),
    );
}

#[test]
fn expansion_is_refused_at_once(rt: HostRuntime) {
    let alloc = rt.alloc();
    shows(
        &rt,
        doubled(alloc, 510, b"e8() AND e8()"),
        exceeds(0, 13, Quantity::ExpressionNodes),
    );
}

// So many NOTs before the text.
fn denied(alloc: Global, count: u16, text: &[u8]) -> Result<Vec<u8>, Memory> {
    let mut all = Vec::new(alloc);
    for _ in 0..count {
        all.extend_from_slice(b"NOT ")?;
    }
    all.extend_from_slice(text)?;
    Ok(all)
}

// The definition `f` has so many NOTs before its variable; what does the text break below it?
fn below_denial(alloc: Global, count: u16, text: &[u8]) -> Result<Ty, TextFault> {
    let mut definition = Vec::new(alloc);
    definition.extend_from_slice(b"BOOLEAN f(BOOLEAN x) IS ")?;
    definition.extend_from_slice(&denied(alloc, count, b"x; ")?)?;
    type_below(alloc, &definition, &[], None, text)
}

#[test]
fn height_up_to_64_after_expansion(rt: HostRuntime) {
    let alloc = rt.alloc();
    shows(
        &rt,
        below_denial(alloc, 60, b"f(NOT NOT NOT TRUE)"),
        Ok(Ty::Boolean),
    );
    shows(
        &rt,
        below_denial(alloc, 61, b"f(NOT NOT NOT TRUE)"),
        exceeds(0, 19, Quantity::Height),
    );
}

#[test]
fn a_translation_that_is_higher_than_its_text(rt: HostRuntime) {
    let alloc = rt.alloc();
    shows(
        &rt,
        below_denial(alloc, 62, b"f(p ~= q)"),
        exceeds(0, 9, Quantity::Height),
    );
    shows(&rt, below_denial(alloc, 62, b"f(p = q)"), Ok(Ty::Boolean));
}

#[test]
fn quantifiers_up_to_three(rt: HostRuntime) {
    let alloc = rt.alloc();
    shows(
        &rt,
        type_of(
            alloc,
            None,
            b"FORALL c x: EXISTS c w: every() END_EXISTS END_FORALL",
        ),
        Ok(Ty::Boolean),
    );
    shows(
        &rt,
        type_of(
            alloc,
            None,
            b"FORALL c x: EXISTS c w: FORALL c u: every() END_FORALL END_EXISTS END_FORALL",
        ),
        exceeds(0, 76, Quantity::Quantifiers),
    );
}

#[test]
fn the_height_counts_before_the_nodes(rt: HostRuntime) -> Result<(), Memory> {
    let alloc = rt.alloc();
    let text = denied(alloc, 60, b"e8()")?;
    shows(
        &rt,
        doubled(alloc, 9, &text),
        exceeds(0, 244, Quantity::Height),
    );
    Ok(())
}
