//! Rows of parameters.

use crate::texts::{Broken, FUNCTIONS, PARAMETERS_AT, TYPES, breaks_behind, shows, with_rows};
use sp_text::Rule;
use std::alloc::Global;
use std::process::Abort;

const HEADS: [Broken; 5] = [
    (b"p(a) IS q(a); p(a) IS q(a);", 14, 15, Rule::TwiceDeclared),
    (b"zz() IS LOW; p(a) IS q(a);", 0, 2, Rule::UnknownName),
    (b"g(a) IS LOW; p(a) IS q(a);", 0, 1, Rule::WrongKind),
    (b"p(a, a) IS LOW;", 5, 6, Rule::TwiceDeclared),
    (b"p(a, b) IS LOW;", 0, 1, Rule::WrongCount),
];

// The expressions are over the lower interface, and read nothing of the state, not by a definition either.
const VALUES: [Broken; 9] = [
    (b"p(a) IS zz(a);", 8, 10, Rule::UnknownName),
    (b"p(a) IS put();", 8, 11, Rule::WrongKind),
    (b"p(a) IS q();", 8, 9, Rule::WrongCount),
    (b"p(a) IS q(1);", 10, 11, Rule::WrongType),
    (b"p(a) IS TRUE;", 8, 12, Rule::WrongType),
    (
        b"p(a) IS IF FORALL INTEGER i: TRUE END_FORALL THEN LOW ELSE LOW END_IF;",
        18,
        25,
        Rule::NotFinite,
    ),
    (
        b"p(a) IS IF h(a, 0) = 0 THEN LOW ELSE LOW END_IF;",
        11,
        18,
        Rule::ReadsState,
    ),
    (b"p(a) IS LUB(LOW, low(a));", 17, 23, Rule::ReadsState),
    (
        b"p(a) IS IF 'h(a, 0) = 0 THEN LOW ELSE LOW END_IF;",
        11,
        19,
        Rule::NewValueMisplaced,
    ),
];

fn each_is_broken(rt: &impl Abort, alloc: Global, texts: &[Broken]) {
    for (rows, start, end, rule) in texts {
        shows(
            rt,
            with_rows(alloc, TYPES, rows, FUNCTIONS),
            breaks_behind(PARAMETERS_AT, *start, *end, *rule),
        );
    }
}

#[test]
fn heads_of_rows(rt: HostRuntime) {
    each_is_broken(&rt, rt.alloc(), &HEADS);
}

#[test]
fn expressions_of_parameters(rt: HostRuntime) {
    each_is_broken(&rt, rt.alloc(), &VALUES);
}
