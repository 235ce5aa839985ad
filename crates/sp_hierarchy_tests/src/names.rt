//! Names of interfaces and of mappings.

use crate::files::outcome_of;
use std::test::Fail;

// A row, and what it comes to.
const ROWS: [(&[u8], &[u8]); 5] = [
    (b"w OVER b BY ab;", b"MALFORMED w.iface 10 11 WrongName\n"),
    (b"a OVER w BY ab;", b"MALFORMED w.iface 10 11 WrongName\n"),
    (b"a OVER b BY own;", b"MALFORMED own.map 8 10 WrongName\n"),
    (
        b"a OVER b BY upper;",
        b"MALFORMED upper.map 19 20 WrongName\n",
    ),
    (
        b"a OVER b BY lower;",
        b"MALFORMED lower.map 24 25 WrongName\n",
    ),
];

#[test]
fn interfaces_and_mappings_have_the_names_of_their_rows(rt: HostRuntime) -> Result<(), Fail> {
    let alloc = rt.alloc();
    for (rows, line) in &ROWS {
        assert_eq!(rt; outcome_of(alloc, rows, Vec::new(alloc))?.as_slice(), *line);
    }
    Ok(())
}
