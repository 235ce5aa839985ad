//! Types.

use crate::texts::{breaks, shows, type_of};
use sp_text::{Rule, TextFault};
use sp_values::Ty;
use std::alloc::Global;

fn integer(alloc: Global, text: &[u8]) -> Result<Ty, TextFault> {
    type_of(alloc, Some(Ty::Integer), text)
}

fn wrong(start: u32, end: u32) -> Result<Ty, TextFault> {
    breaks(start, end, Rule::WrongType)
}

#[test]
fn an_initial_value_of_another_type(rt: HostRuntime) {
    shows(&rt, integer(rt.alloc(), b"TRUE"), wrong(0, 4));
}

#[test]
fn an_assertion_over_integers(rt: HostRuntime) {
    let text = b"FORALL INTEGER x: TRUE END_FORALL";
    shows(
        &rt,
        type_of(rt.alloc(), Some(Ty::Boolean), text),
        breaks(7, 14, Rule::NotFinite),
    );
}

#[test]
fn an_asked_type_goes_through_parentheses_and_branches(rt: HostRuntime) {
    let alloc = rt.alloc();
    shows(&rt, integer(alloc, b"(TRUE)"), wrong(1, 5));
    shows(
        &rt,
        integer(alloc, b"IF TRUE THEN TRUE ELSE FALSE END_IF"),
        wrong(13, 17),
    );
    shows(
        &rt,
        integer(alloc, b"IF TRUE THEN ? ELSE (FALSE) END_IF"),
        wrong(21, 26),
    );
    shows(
        &rt,
        integer(alloc, b"IF 1 THEN ? ELSE TRUE END_IF"),
        wrong(3, 4),
    );
}

#[test]
fn sides_of_two_types_are_told_at_the_right_one(rt: HostRuntime) {
    let alloc = rt.alloc();
    shows(&rt, type_of(alloc, None, b"1 = (TRUE)"), wrong(4, 10));
    shows(&rt, type_of(alloc, None, b"p ~= 1"), wrong(5, 6));
    shows(&rt, type_of(alloc, None, b"1 <= (TRUE)"), wrong(5, 11));
    shows(&rt, type_of(alloc, None, b"LOW <= 1"), wrong(7, 8));
}

#[test]
fn branches_of_two_types_are_told_at_the_else_part(rt: HostRuntime) {
    let text = b"(IF TRUE THEN 1 ELSE FALSE END_IF) = 1";
    shows(&rt, type_of(rt.alloc(), None, text), wrong(21, 26));
}

#[test]
fn an_unknown_beside_a_type_without_it(rt: HostRuntime) {
    let alloc = rt.alloc();
    shows(&rt, type_of(alloc, None, b"? = TRUE"), wrong(0, 1));
    shows(&rt, type_of(alloc, None, b"TRUE = (?)"), wrong(8, 9));
    shows(&rt, type_of(alloc, None, b"? <= LOW"), wrong(0, 1));
    shows(&rt, type_of(alloc, None, b"? = p"), Ok(Ty::Boolean));
}

#[test]
fn sides_of_at_most_are_numbers_or_levels(rt: HostRuntime) {
    let alloc = rt.alloc();
    shows(&rt, type_of(alloc, None, b"TRUE <= 1"), wrong(0, 4));
    shows(&rt, type_of(alloc, None, b"(TRUE) <= 1"), wrong(1, 5));
    shows(&rt, type_of(alloc, None, b"? <= TRUE"), wrong(0, 1));
    shows(&rt, type_of(alloc, None, b"p <= q"), wrong(0, 1));
    shows(&rt, type_of(alloc, None, b"LOW <= TOP"), Ok(Ty::Boolean));
}

#[test]
fn sides_without_a_type(rt: HostRuntime) {
    let alloc = rt.alloc();
    shows(&rt, type_of(alloc, None, b"? < ?"), Ok(Ty::Boolean));
    shows(&rt, type_of(alloc, None, b"? + ?"), Ok(Ty::Integer));
    shows(&rt, type_of(alloc, None, b"? <= ?"), wrong(0, 6));
    shows(&rt, type_of(alloc, None, b"? = ?"), wrong(0, 5));
    shows(&rt, type_of(alloc, None, b"?"), wrong(0, 1));
    shows(&rt, integer(alloc, b"?"), Ok(Ty::Integer));
}

#[test]
fn operators_ask_their_sides(rt: HostRuntime) {
    let alloc = rt.alloc();
    shows(&rt, type_of(alloc, None, b"1 + TRUE"), wrong(4, 8));
    shows(&rt, type_of(alloc, None, b"NOT 1"), wrong(4, 5));
    shows(&rt, type_of(alloc, None, b"TRUE AND (1)"), wrong(10, 11));
    shows(&rt, type_of(alloc, None, b"LUB(LOW, 1)"), wrong(9, 10));
    shows(&rt, type_of(alloc, None, b"b(1)"), wrong(2, 3));
    shows(&rt, integer(alloc, b"1 < 2"), wrong(0, 5));
}

#[test]
fn each_form_has_its_type(rt: HostRuntime) {
    let alloc = rt.alloc();
    shows(&rt, type_of(alloc, None, b"p"), Ok(Ty::Member(0)));
    shows(&rt, type_of(alloc, None, b"GLB(LOW, TOP)"), Ok(Ty::Level));
    shows(&rt, type_of(alloc, None, b"id(-3)"), Ok(Ty::Integer));
    shows(&rt, type_of(alloc, None, b"h(?)"), Ok(Ty::Boolean));
    shows(
        &rt,
        type_of(alloc, None, b"IF b(p) THEN ? ELSE q END_IF"),
        Ok(Ty::Member(0)),
    );
}
