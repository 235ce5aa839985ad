//! Names, counts of arguments, quotes.

use crate::texts::{breaks, shows, type_of, type_with};
use sp_text::Rule;
use sp_values::Ty;

#[test]
fn names_that_are_not_visible(rt: HostRuntime) {
    let alloc = rt.alloc();
    shows(
        &rt,
        type_of(alloc, None, b"zz"),
        breaks(0, 2, Rule::UnknownName),
    );
    shows(
        &rt,
        type_of(alloc, None, b"1 + zz()"),
        breaks(4, 6, Rule::UnknownName),
    );
    shows(
        &rt,
        type_of(alloc, None, b"'zz()"),
        breaks(1, 3, Rule::UnknownName),
    );
}

#[test]
fn names_of_another_kind(rt: HostRuntime) {
    let alloc = rt.alloc();
    shows(
        &rt,
        type_of(alloc, None, b"g"),
        breaks(0, 1, Rule::WrongKind),
    );
    shows(
        &rt,
        type_of(alloc, None, b"c"),
        breaks(0, 1, Rule::WrongKind),
    );
    shows(
        &rt,
        type_of(alloc, None, b"p()"),
        breaks(0, 1, Rule::WrongKind),
    );
    shows(
        &rt,
        type_of(alloc, None, b"o()"),
        breaks(0, 1, Rule::WrongKind),
    );
    shows(
        &rt,
        type_of(alloc, None, b"v()"),
        breaks(0, 1, Rule::WrongKind),
    );
}

#[test]
fn a_quote_asks_a_v_function(rt: HostRuntime) {
    let alloc = rt.alloc();
    shows(
        &rt,
        type_of(alloc, None, b"'z()"),
        breaks(1, 2, Rule::WrongKind),
    );
    shows(
        &rt,
        type_of(alloc, None, b"'id(1)"),
        breaks(1, 3, Rule::WrongKind),
    );
    shows(
        &rt,
        type_of(alloc, None, b"'o()"),
        breaks(1, 2, Rule::WrongKind),
    );
}

#[test]
fn a_quote_stands_in_effects_alone(rt: HostRuntime) {
    let alloc = rt.alloc();
    shows(
        &rt,
        type_of(alloc, None, b"'g()"),
        breaks(0, 4, Rule::NewValueMisplaced),
    );
    shows(
        &rt,
        type_of(alloc, None, b"'g(zz)"),
        breaks(3, 5, Rule::UnknownName),
    );
    shows(
        &rt,
        type_of(alloc, None, b"'g(1)"),
        breaks(1, 2, Rule::WrongCount),
    );
    shows(
        &rt,
        type_of(alloc, Some(Ty::Boolean), b"'g()"),
        breaks(0, 4, Rule::WrongType),
    );
}

#[test]
fn the_arguments_of_a_call_are_judged_before_their_count(rt: HostRuntime) {
    let alloc = rt.alloc();
    shows(
        &rt,
        type_of(alloc, None, b"b(zz, 1)"),
        breaks(2, 4, Rule::UnknownName),
    );
    shows(
        &rt,
        type_of(alloc, None, b"b(TRUE, 1)"),
        breaks(0, 1, Rule::WrongCount),
    );
    shows(
        &rt,
        type_of(alloc, None, b"zz(?)"),
        breaks(0, 2, Rule::UnknownName),
    );
    shows(
        &rt,
        type_of(alloc, None, b"z(?)"),
        breaks(0, 1, Rule::WrongCount),
    );
}

#[test]
fn a_call_of_a_wrong_count_has_no_type_to_judge(rt: HostRuntime) {
    let alloc = rt.alloc();
    shows(
        &rt,
        type_of(alloc, Some(Ty::Boolean), b"z(1)"),
        breaks(0, 1, Rule::WrongCount),
    );
    shows(
        &rt,
        type_of(alloc, Some(Ty::Boolean), b"z()"),
        breaks(0, 3, Rule::WrongType),
    );
}

#[test]
fn a_variable_hides_what_is_shared(rt: HostRuntime) {
    let alloc = rt.alloc();
    shows(&rt, type_with(alloc, b"g", b"g"), Ok(Ty::Integer));
    shows(
        &rt,
        type_with(alloc, b"g", b"g()"),
        breaks(0, 1, Rule::WrongKind),
    );
    shows(&rt, type_with(alloc, b"x", b"g()"), Ok(Ty::Integer));
}

#[test]
fn a_variable_repeats_no_name_around_it(rt: HostRuntime) {
    let alloc = rt.alloc();
    shows(
        &rt,
        type_of(
            alloc,
            None,
            b"FORALL c x: EXISTS c x: TRUE END_EXISTS END_FORALL",
        ),
        breaks(21, 22, Rule::TwiceDeclared),
    );
    shows(
        &rt,
        type_with(alloc, b"y", b"FORALL c y: TRUE END_FORALL"),
        breaks(9, 10, Rule::TwiceDeclared),
    );
    shows(
        &rt,
        type_of(alloc, None, b"FORALL c g: b(g) END_FORALL"),
        Ok(Ty::Boolean),
    );
}

#[test]
fn a_body_is_judged_behind_its_variable(rt: HostRuntime) {
    let alloc = rt.alloc();
    shows(
        &rt,
        type_of(alloc, None, b"FORALL INTEGER x: zz END_FORALL"),
        breaks(7, 14, Rule::NotFinite),
    );
    shows(
        &rt,
        type_of(alloc, None, b"FORALL zz x: yy END_FORALL"),
        breaks(7, 9, Rule::UnknownName),
    );
    shows(
        &rt,
        type_of(alloc, None, b"FORALL g x: yy END_FORALL"),
        breaks(7, 8, Rule::WrongKind),
    );
}
