//! Rows of functions.

use crate::texts::{Broken, FUNCTIONS_AT, PARAMETERS, TYPES, breaks_behind, shows, with_rows};
use sp_text::Rule;
use std::alloc::Global;
use std::process::Abort;

// A definition of the upper interface has no name here. Rows are of primitive V-functions alone.
const HEADS: [Broken; 7] = [
    (
        b"g(a) IS h(a, 0); g(a) IS h(a, 0);",
        17,
        18,
        Rule::TwiceDeclared,
    ),
    (b"zz() IS 0; g(a) IS h(a, 0);", 0, 2, Rule::UnknownName),
    (b"k() IS 0; g(a) IS h(a, 0);", 0, 1, Rule::UnknownName),
    (b"op() IS 0; g(a) IS h(a, 0);", 0, 2, Rule::WrongKind),
    (b"der() IS 0; g(a) IS h(a, 0);", 0, 3, Rule::WrongKind),
    (b"g(a, a) IS 0;", 5, 6, Rule::TwiceDeclared),
    (b"g() IS 0;", 0, 1, Rule::WrongCount),
];

const VALUES: [Broken; 7] = [
    (b"g(a) IS h(zz, 0);", 10, 12, Rule::UnknownName),
    (b"g(a) IS put();", 8, 11, Rule::WrongKind),
    (b"g(a) IS h(a);", 8, 9, Rule::WrongCount),
    (b"g(a) IS h(r, 0);", 10, 11, Rule::WrongType),
    (b"g(a) IS q(a);", 8, 12, Rule::WrongType),
    (
        b"g(a) IS IF EXISTS INTEGER i: h(a, i) = 1 END_EXISTS THEN 1 ELSE 0 END_IF;",
        18,
        25,
        Rule::NotFinite,
    ),
    (b"g(a) IS 'h(a, 0);", 8, 16, Rule::NewValueMisplaced),
];

fn each_is_broken(rt: &impl Abort, alloc: Global, texts: &[Broken]) {
    for (rows, start, end, rule) in texts {
        shows(
            rt,
            with_rows(alloc, TYPES, PARAMETERS, rows),
            breaks_behind(FUNCTIONS_AT, *start, *end, *rule),
        );
    }
}

#[test]
fn heads_of_rows(rt: HostRuntime) {
    each_is_broken(&rt, rt.alloc(), &HEADS);
}

#[test]
fn expressions_of_functions(rt: HostRuntime) {
    each_is_broken(&rt, rt.alloc(), &VALUES);
}
