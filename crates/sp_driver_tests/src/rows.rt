use crate::given::{Files, ends, outcome_of};
use std::test::Fail;

pub const FILES: &[u8] = b"INTERFACE files MODULES files;
LATTICE LOW, HIGH; ORDER LOW < HIGH;
LEVEL data(f) IS cls(f); LEVEL read(u, f) IS clr(u); LEVEL write(u, f, x) IS clr(u);
SAMPLE small; END_INTERFACE";

pub const GUARDED: &[u8] = b"MODULE files
TYPES user: DESIGNATOR; file: DESIGNATOR;
PARAMETERS LEVEL clr(user u); LEVEL cls(file f);
FUNCTIONS
VFUN data(file f) -> INTEGER; HIDDEN; INITIALLY 0;
OVFUN read(user u; file f) -> INTEGER r; EXCEPTIONS no_read: NOT cls(f) <= clr(u); EFFECTS r = data(f);
OFUN write(user u; file f; INTEGER x); EXCEPTIONS no_write: NOT clr(u) <= cls(f); EFFECTS 'data(f) = x;
END_MODULE";

pub const LEAKY: &[u8] = b"MODULE files
TYPES user: DESIGNATOR; file: DESIGNATOR;
PARAMETERS LEVEL clr(user u); LEVEL cls(file f);
FUNCTIONS
VFUN data(file f) -> INTEGER; HIDDEN; INITIALLY 0;
OVFUN read(user u; file f) -> INTEGER r; EXCEPTIONS no_read: NOT cls(f) <= clr(u); EFFECTS r = data(f);
OFUN write(user u; file f; INTEGER x); EFFECTS 'data(f) = x;
END_MODULE";

pub const SMALL: &[u8] = b"INSTANCE small
POPULATION user = {alice, bob}; POPULATION file = {memo, plan};
PARAMETER clr: (alice) = HIGH; OTHERWISE LOW;
PARAMETER cls: (plan) = HIGH; OTHERWISE LOW;
END_INSTANCE";

const LEAK: &[u8] = b"write(alice, memo, 7); read(bob, memo);";

const RUN: [&str; 4] = ["run", "files.iface", "small.inst", "s.script"];

const LISTED: &[u8] = b"INTERFACE files
FORMULA 1 read result-reference
HYP NOT (u = ?)
HYP NOT (f = ?)
HYP NOT (NOT (cls(f) <= clr(u)))
GOAL cls(f) <= clr(u)
FORMULA 2 write change
HYP NOT (u = ?)
HYP NOT (f = ?)
HYP NOT (x = ?)
HYP NOT (NOT (clr(u) <= cls(f)))
GOAL clr(u) <= cls(f)
FORMULAS 2
";

const ACCEPTED: &[u8] = b"INTERFACE files
1 read result-reference PROVED
2 write change PROVED
ACCEPTED 2 formulas
";

pub const REFUSED: &[u8] = b"INTERFACE files
1 read result-reference PROVED
2 write change OPEN
  u = ? FALSE
  f = ? FALSE
  x = ? FALSE
  clr(u) <= cls(f) FALSE
REFUSED 1 of 2 formulas
";

// The files of the interface above, with this module and this script.
fn texts<'a>(module: &'a [u8], script: &'a [u8]) -> Files<'a> {
    [
        ("files.iface", FILES),
        ("files.special", module),
        ("small.inst", SMALL),
        ("s.script", script),
    ]
}

#[test]
fn answers_are_printed(rt: HostRuntime) -> Result<(), Fail> {
    let alloc = rt.alloc();
    let rows: [(&[u8], &[u8]); 2] = [
        (
            LEAKY,
            b"INTERFACE files\n0 write(alice,memo,7) DONE\n1 read(bob,memo) VALUE 7\nEND 2\n",
        ),
        (
            GUARDED,
            b"INTERFACE files\n0 write(alice,memo,7) EXCEPTION no_write\n1 read(bob,memo) VALUE 0\nEND 2\n",
        ),
    ];
    for (module, printed) in rows {
        ends(
            &rt,
            &outcome_of(alloc, &RUN, texts(module, LEAK), Vec::new(alloc), 200)?,
            0,
            printed,
        );
    }
    Ok(())
}

#[test]
fn formulas_are_listed(rt: HostRuntime) -> Result<(), Fail> {
    let alloc = rt.alloc();
    let words = ["formulas", "files.iface"];
    ends(
        &rt,
        &outcome_of(alloc, &words, texts(GUARDED, b""), Vec::new(alloc), 400)?,
        0,
        LISTED,
    );
    Ok(())
}

#[test]
fn formulas_are_decided(rt: HostRuntime) -> Result<(), Fail> {
    let alloc = rt.alloc();
    let rows: [(&[u8], u8, &[u8]); 2] = [(GUARDED, 0, ACCEPTED), (LEAKY, 1, REFUSED)];
    for (module, code, printed) in rows {
        let words = ["check", "files.iface"];
        ends(
            &rt,
            &outcome_of(alloc, &words, texts(module, b""), Vec::new(alloc), 400)?,
            code,
            printed,
        );
    }
    Ok(())
}

#[test]
fn runs_are_compared(rt: HostRuntime) -> Result<(), Fail> {
    let alloc = rt.alloc();
    let rows: [(&[u8], &str, u8, &[u8]); 4] = [
        (
            LEAKY,
            "LOW",
            1,
            b"INTERFACE files\nLEVEL LOW\nDIFFERS 1 VALUE 7 VALUE 0\n",
        ),
        (GUARDED, "LOW", 0, b"INTERFACE files\nLEVEL LOW\nSAME 1\n"),
        (GUARDED, "TOP", 0, b"INTERFACE files\nLEVEL HIGH\nSAME 2\n"),
        (LEAKY, "MID", 2, b"MALFORMED LEVEL 0 3 UnknownName\n"),
    ];
    for (module, level, code, printed) in rows {
        let words = ["compare", "files.iface", "small.inst", "s.script", level];
        ends(
            &rt,
            &outcome_of(alloc, &words, texts(module, LEAK), Vec::new(alloc), 200)?,
            code,
            printed,
        );
    }
    Ok(())
}

#[test]
fn scripts_are_judged(rt: HostRuntime) -> Result<(), Fail> {
    let alloc = rt.alloc();
    let rows: [(&[u8], &[u8]); 5] = [
        (b"data(memo);", b"MALFORMED s.script 0 4 NotVisible\n"),
        (
            b"read(carol, memo);",
            b"MALFORMED s.script 5 10 NotInPopulation\n",
        ),
        (b"read(?, memo);", b"MALFORMED s.script 5 6 NotProper\n"),
        (b"read(bob);", b"MALFORMED s.script 0 4 WrongCount\n"),
        (b"read(bob, memo)", b"MALFORMED s.script 15 15 Unexpected\n"),
    ];
    for (script, printed) in rows {
        ends(
            &rt,
            &outcome_of(alloc, &RUN, texts(GUARDED, script), Vec::new(alloc), 200)?,
            2,
            printed,
        );
    }
    Ok(())
}
