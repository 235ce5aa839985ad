//! The order in which rows stand.

use crate::files::outcome_of;
use std::test::Fail;

// Rows, which begin at place 12, and what they come to.
const ROWS: [(&[u8], &[u8]); 7] = [
    (b"", b"JUDGED 0 0\n"),
    (b"a OVER b BY ab; b OVER c BY bc;", b"JUDGED 3 2\n"),
    (
        b"a OVER b BY ab; a OVER c BY ac;",
        b"MALFORMED h.hier 28 29 TwiceDeclared\n",
    ),
    (b"a OVER a BY ab;", b"MALFORMED h.hier 12 13 Cyclic\n"),
    (
        b"b OVER c BY bc; a OVER b BY ab; c OVER a BY ab;",
        b"MALFORMED h.hier 44 45 Cyclic\n",
    ),
    (
        b"a OVER b BY ab; a OVER a BY ab;",
        b"MALFORMED h.hier 28 29 TwiceDeclared\n",
    ),
    (
        b"a OVER b BY ab; b OVER a BY ab; a OVER c BY ac;",
        b"MALFORMED h.hier 28 29 Cyclic\n",
    ),
];

#[test]
fn rows_stand_in_an_order(rt: HostRuntime) -> Result<(), Fail> {
    let alloc = rt.alloc();
    for (rows, line) in &ROWS {
        assert_eq!(rt; outcome_of(alloc, rows, Vec::new(alloc))?.as_slice(), *line);
    }
    Ok(())
}

// Rows come before interfaces, and these before mappings; but all texts are read before.
const FIRSTS: [(&[u8], &[u8]); 6] = [
    (b"a OVER a BY none; a OVER w BY own;", b"MISSING none.map\n"),
    (
        b"a OVER w BY own; a OVER b BY ab;",
        b"MALFORMED h.hier 29 30 TwiceDeclared\n",
    ),
    (
        b"a OVER b BY own; b OVER w BY ab;",
        b"MALFORMED w.iface 10 11 WrongName\n",
    ),
    (b"w OVER x BY ab;", b"MALFORMED w.iface 10 11 WrongName\n"),
    (b"x OVER w BY ab;", b"MALFORMED k.special 20 21 WrongType\n"),
    (
        b"a OVER b BY broken; b OVER c BY own;",
        b"MALFORMED broken.map 33 34 UnknownName\n",
    ),
];

#[test]
fn rows_come_before_interfaces_and_these_before_mappings(rt: HostRuntime) -> Result<(), Fail> {
    let alloc = rt.alloc();
    for (rows, line) in &FIRSTS {
        assert_eq!(rt; outcome_of(alloc, rows, Vec::new(alloc))?.as_slice(), *line);
    }
    Ok(())
}

// Twelve loads: the hierarchy; each interface with its module and its sample; two mappings.
#[test]
fn an_interface_of_two_rows_is_loaded_and_judged_once(rt: HostRuntime) -> Result<(), Fail> {
    let alloc = rt.alloc();
    let rows = b"a OVER c BY ac; b OVER c BY bc;";
    let mut last = Vec::new(alloc);
    last.push(11)?;
    assert_eq!(rt;
        outcome_of(alloc, rows, last)?.as_slice(),
        b"READ_FAULT\n".as_slice()
    );
    let mut next = Vec::new(alloc);
    next.push(12)?;
    assert_eq!(rt;
        outcome_of(alloc, rows, next)?.as_slice(),
        b"JUDGED 3 2\n".as_slice()
    );
    Ok(())
}
