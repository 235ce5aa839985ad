//! Results.

use crate::texts::{breaks, breaks_at_name, results_made};
use sp_text::Rule;

#[test]
fn one_result_on_each_path(rt: HostRuntime) {
    let alloc = rt.alloc();
    assert_eq!(rt; results_made(alloc, b"r = 1; 'g() = 2;"), Ok(2));
    assert_eq!(rt;
        results_made(alloc, b"IF g() = 1 THEN r = 1; ELSE r = 2; END_IF;"),
        Ok(1)
    );
}

#[test]
fn a_path_without_a_result(rt: HostRuntime) {
    let alloc = rt.alloc();
    assert_eq!(rt;
        results_made(alloc, b""),
        breaks_at_name(Rule::ResultMissing)
    );
    assert_eq!(rt;
        results_made(alloc, b"IF g() = 1 THEN r = 1; ELSE END_IF;"),
        breaks_at_name(Rule::ResultMissing)
    );
}

#[test]
fn a_second_result(rt: HostRuntime) {
    let alloc = rt.alloc();
    assert_eq!(rt;
        results_made(alloc, b"r = 1; r = 2;"),
        breaks(7, 12, Rule::ResultTwice)
    );
    assert_eq!(rt;
        results_made(alloc, b"FORALL t x: r = 1; END_FORALL;"),
        breaks(12, 17, Rule::ResultTwice)
    );
    assert_eq!(rt;
        results_made(alloc, b"r = 1; r = zz;"),
        breaks(11, 13, Rule::UnknownName)
    );
}
