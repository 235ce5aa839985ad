//! Changes.

use crate::texts::{breaks, effects_made};
use sp_text::Rule;

#[test]
fn changes_of_state(rt: HostRuntime) {
    let alloc = rt.alloc();
    assert_eq!(rt; effects_made(alloc, b"'g() = 1; 'h(y) = 'j();"), Ok(2));
    assert_eq!(rt;
        effects_made(alloc, b"FORALL t x: 'h(x) = z; END_FORALL;"),
        Ok(1)
    );
}

#[test]
fn neither_a_change_nor_a_result(rt: HostRuntime) {
    let alloc = rt.alloc();
    assert_eq!(rt;
        effects_made(alloc, b"'d() = 1;"),
        breaks(0, 8, Rule::NotDetermining)
    );
    assert_eq!(rt;
        effects_made(alloc, b"('g() = 1);"),
        breaks(0, 10, Rule::NotDetermining)
    );
    assert_eq!(rt;
        effects_made(alloc, b"'op() = 1;"),
        breaks(1, 3, Rule::WrongKind)
    );
}

#[test]
fn a_bound_variable_is_one_argument_alone(rt: HostRuntime) {
    let alloc = rt.alloc();
    assert_eq!(rt;
        effects_made(alloc, b"FORALL t x: 'h(y) = 1; END_FORALL;"),
        breaks(12, 17, Rule::TargetNotInjective)
    );
}

#[test]
fn new_values_that_may_not_be_read(rt: HostRuntime) {
    let alloc = rt.alloc();
    assert_eq!(rt;
        effects_made(alloc, b"'g() = 'd();"),
        breaks(7, 11, Rule::NewValueOnRight)
    );
    assert_eq!(rt;
        effects_made(alloc, b"IF 'g() = 1 THEN ELSE END_IF;"),
        breaks(3, 7, Rule::NewValueInGuard)
    );
}

#[test]
fn new_values_in_a_cycle(rt: HostRuntime) {
    let alloc = rt.alloc();
    assert_eq!(rt;
        effects_made(alloc, b"'g() = 'g();"),
        breaks(7, 11, Rule::NewValueCycle)
    );
    assert_eq!(rt;
        effects_made(alloc, b"'g() = 1; 'g() = 'j(); 'j() = 'g();"),
        breaks(17, 21, Rule::NewValueCycle)
    );
}
