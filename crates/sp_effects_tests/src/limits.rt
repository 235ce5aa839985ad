//! Limits of effects.

use crate::texts::{effects_made, exceeds};
use sp_text::{Quantity, TextFault};
use std::alloc::Global;

// What so many changes make, or break.
fn changes(alloc: Global, count: u16) -> Result<usize, TextFault> {
    let mut text = Vec::new(alloc);
    for _ in 0..count {
        text.extend_from_slice(b"'g() = 1; ")?;
    }
    effects_made(alloc, &text)
}

#[test]
fn changes_up_to_64(rt: HostRuntime) {
    let alloc = rt.alloc();
    assert_eq!(rt; changes(alloc, 64), Ok(64));
    assert_eq!(rt; changes(alloc, 65), exceeds(640, 648, Quantity::Changes));
}

#[test]
fn bound_variables_up_to_2(rt: HostRuntime) {
    let alloc = rt.alloc();
    assert_eq!(rt;
        effects_made(
            alloc,
            b"FORALL t a; t b: FORALL t c: 'h(a) = 1; END_FORALL; END_FORALL;"
        ),
        exceeds(26, 27, Quantity::BoundVariables)
    );
}
