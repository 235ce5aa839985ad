use crate::root::root;
use crate::texts::with_lines;
use sp_cert::{CertFault, read_cert};
use sp_checker::Checker;
use sp_rules::{Fact, Lack};
use std::alloc::Global;
use std::process::Abort;
use std::test::Fail;

const LEAF: &[u8] = b"LEAF 4\nEQ 12 1 K19 13 0\nEQ 11 0 K19 12 0\nEQ 0 11 K2 0 0\nEQ 0 1 K3 11 0\n";

// What the checker answers of the first certificate of a text.
fn verdict(
    alloc: Global,
    checker: &mut Checker<'_>,
    text: &[u8],
) -> Result<Option<CertFault>, Fail> {
    if text.len() > 67108864 {
        return Err(Fail::new("too long"));
    }
    let file = read_cert(alloc, text)?;
    match file.certs.first() {
        Some(cert) => Ok(checker.accepts(cert).err()),
        None => Err(Fail::new("no certificate")),
    }
}

// The text of format 2 whose one tree has these parts.
fn text_of(alloc: Global, parts: &[&[u8]]) -> Result<Vec<u8>, Fail> {
    let mut text = Vec::from_slice(alloc, b"CERT 2\nFORMULA 1\n")?;
    for part in parts {
        text.extend_from_slice(part)?;
    }
    Ok(text)
}

/// The parts of a tree, and its first fault.
type Row = (&'static [&'static [u8]], Option<CertFault>);

// Asserts what one checker answers of a tree.
fn shows(
    rt: &impl Abort,
    alloc: Global,
    checker: &mut Checker<'_>,
    parts: &[&[u8]],
    fault: Option<CertFault>,
) -> Result<(), Fail> {
    let text = text_of(alloc, parts)?;
    assert_eq!(rt; verdict(alloc, checker, &text)?, fault);
    Ok(())
}

// Asserts what one checker answers of each tree, in this order.
fn show_all(rt: &impl Abort, alloc: Global, rows: &[Row]) -> Result<(), Fail> {
    let root = root(alloc)?;
    let mut checker = Checker::open(alloc, &root)?;
    for (parts, fault) in rows {
        shows(rt, alloc, &mut checker, parts, *fault)?;
    }
    Ok(())
}

const REFUSED: [Row; 5] = [
    (&[LEAF], None),
    (
        &[b"LEAF 1\nEQ 999 1 K2 0 0\n"],
        Some(CertFault::BadStep(1, Lack::Number)),
    ),
    (&[b"LEAF 1\nEQ 0 0 K1 0 0\n"], Some(CertFault::NoClash(1))),
    (
        &[b"SPLIT 3\nLEAF 0\nLEAF 0\n"],
        Some(CertFault::NotAnAtom(1)),
    ),
    (&[LEAF], None),
];

#[test]
fn a_refusal_leaves_the_checker_as_it_was(rt: HostRuntime) -> Result<(), Fail> {
    show_all(&rt, rt.alloc(), &REFUSED)
}

const STEPS: [Row; 2] = [
    (
        &[b"LEAF 2\nEQ 11 0 K19 12 0\nEQ 12 1 K19 13 0\n"],
        Some(CertFault::BadStep(1, Lack::Fact(Fact::Eq(12, 1)))),
    ),
    (
        &[b"LEAF 1\nEQ 12 1 K19 13 1\n"],
        Some(CertFault::BadStep(1, Lack::Form)),
    ),
];

#[test]
fn a_premise_must_come_before(rt: HostRuntime) -> Result<(), Fail> {
    show_all(&rt, rt.alloc(), &STEPS)
}

const BRANCHES: [Row; 3] = [
    (&[b"SPLIT 0\n", LEAF, LEAF], None),
    (
        &[b"SPLIT 0\n", LEAF, b"LEAF 1\nEQ 0 11 K2 0 0\n"],
        Some(CertFault::BadStep(5, Lack::Fact(Fact::Eq(11, 0)))),
    ),
    (
        &[b"SPLIT 0\n", LEAF, b"LEAF 1\nEQ 0 4 K2 0 0\n"],
        Some(CertFault::BadStep(5, Lack::Fact(Fact::Eq(4, 0)))),
    ),
];

#[test]
fn a_branch_knows_nothing_of_the_other(rt: HostRuntime) -> Result<(), Fail> {
    show_all(&rt, rt.alloc(), &BRANCHES)
}

const SHARED: &[u8] = b"STEPS 3\nEQ 12 1 K19 13 0\nEQ 11 0 K19 12 0\nEQ 0 11 K2 0 0\nSPLIT 0\n";

const END: &[u8] = b"LEAF 1\nEQ 0 1 K3 11 0\n";

const BELOW: [Row; 3] = [
    (&[SHARED, END, END], None),
    (
        &[SHARED, END, b"LEAF 1\nEQ 0 1 K3 7 0\n"],
        Some(CertFault::BadStep(5, Lack::Fact(Fact::Eq(0, 7)))),
    ),
    (&[SHARED, END, b"LEAF 0\n"], Some(CertFault::NoClash(4))),
];

#[test]
fn shared_steps_are_known_below(rt: HostRuntime) -> Result<(), Fail> {
    show_all(&rt, rt.alloc(), &BELOW)
}

// So many splits in one another, each in the TRUE branch of the one before, and empty leaves.
fn splits(alloc: Global, count: u32) -> Result<Vec<u8>, Fail> {
    let mut text = Vec::from_slice(alloc, b"CERT 1\nFORMULA 1\n")?;
    with_lines(&mut text, b"SPLIT 0\n", count)?;
    with_lines(&mut text, b"LEAF 0\n", count)?;
    with_lines(&mut text, b"LEAF 0\n", 1)?;
    Ok(text)
}

// What a checker answers of so many splits.
fn verdict_of_splits(alloc: Global, count: u32) -> Result<Option<CertFault>, Fail> {
    let text = splits(alloc, count)?;
    let root = root(alloc)?;
    verdict(alloc, &mut Checker::open(alloc, &root)?, &text)
}

#[test]
fn twenty_splits_around_a_node_are_allowed(rt: HostRuntime) -> Result<(), Fail> {
    let deepest = Some(CertFault::NoClash(21));
    assert!(rt; verdict_of_splits(rt.alloc(), 20)? == deepest);
    let deeper = Some(CertFault::TooDeep(22));
    assert!(rt; verdict_of_splits(rt.alloc(), 21)? == deeper);
    Ok(())
}
