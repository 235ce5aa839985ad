//! Certificates of the first format, migrated and written in the second.

ghost use Rattle.std.specs.Prelude.{◌≡◌, IfSome};
ghost use Rattle.sp_cert.specs.Tree.{file_of, tree};
ghost use Rattle.sp_cert.specs.Within.{IsFile, IsTree};
ghost use Rattle.sp_checker.specs.Migration.{IsPlain};

use crate::root::root;
use sp_cert::{Cert, CertFault, CertFile, read_cert, write_cert};
use sp_checker::{Checker, LiftFault, first_format_is_plain};
use sp_rules::Lack;
use std::alloc::Global;
use std::test::Fail;

const LEAF: &[u8] = b"LEAF 4\nEQ 12 1 K19 13 0\nEQ 11 0 K19 12 0\nEQ 0 11 K2 0 0\nEQ 0 1 K3 11 0\n";

// Another leaf, which begins with the same two steps.
const OTHER: &[u8] =
    b"LEAF 4\nEQ 12 1 K19 13 0\nEQ 11 0 K19 12 0\nEQ 1 11 K2 0 0\nEQ 1 0 K3 11 0\n";

const END: &[u8] = b"LEAF 1\nEQ 0 1 K3 11 0\n";

const OTHER_END: &[u8] = b"LEAF 2\nEQ 1 11 K2 0 0\nEQ 1 0 K3 11 0\n";

// What both branches of a split need.
const SHARED: &[u8] = b"STEPS 3\nEQ 12 1 K19 13 0\nEQ 11 0 K19 12 0\nEQ 0 11 K2 0 0\n";

// What all three leaves of two splits need, and what the inner two.
const UPPER: &[u8] = b"STEPS 2\nEQ 12 1 K19 13 0\nEQ 11 0 K19 12 0\nSPLIT 1\n";

const LOWER: &[u8] = b"STEPS 1\nEQ 0 11 K2 0 0\nSPLIT 0\n";

// The first certificate of a file of the first format.
fn plain_cert(file: &CertFile) -> Option<&Cert>
    requires first { file.now.format ≡ 1 }
    requires file { IsFile 64 (file_of file.now) }
    ensures { IfSome result (λ c. IsPlain (tree c.now) × IsTree 1 64 (tree c.now)) }
{
    first_format_is_plain();
    file.certs.first()
}

// The text of a certificate in the second format.
fn written(alloc: Global, cert: Cert) -> Result<Vec<u8>, Fail>
    requires { IsTree 2 64 (tree cert) }
{
    let mut certs = Vec::new(alloc);
    certs.push(cert)?;
    let mut out = Vec::new(alloc);
    write_cert(alloc, &CertFile { format: 2, certs }, &mut out)?;
    Ok(out)
}

// The first certificate of a text, migrated; where it doesn't check, its fault.
fn lifted(
    alloc: Global,
    checker: &mut Checker<'_>,
    text: &[u8],
) -> Result<Result<Vec<u8>, LiftFault>, Fail> {
    if text.len() > 67108864 {
        return Err(Fail::new("too long"));
    }
    let file = read_cert(alloc, text)?;
    if file.format != 1 {
        return Err(Fail::new("not the first format"));
    }
    let Some(cert) = plain_cert(&file) else {
        return Err(Fail::new("no certificate"));
    };
    match checker.lift(alloc, cert) {
        Ok(cert) => Ok(Ok(written(alloc, cert)?)),
        Err(fault) => Ok(Err(fault)),
    }
}

// Text of these parts.
fn text(alloc: Global, parts: &[&[u8]]) -> Result<Vec<u8>, Fail> {
    let mut text = Vec::new(alloc);
    for part in parts {
        text.extend_from_slice(part)?;
    }
    Ok(text)
}

// The same by a checker of its own.
fn lifted_alone(alloc: Global, text: &[u8]) -> Result<Result<Vec<u8>, LiftFault>, Fail> {
    let root = root(alloc)?;
    lifted(alloc, &mut Checker::open(alloc, &root)?, text)
}

// Whether the tree of the one text is migrated to that of the other.
fn is_lifted(alloc: Global, before: &[&[u8]], after: &[&[u8]]) -> Result<bool, Fail> {
    let before = text(alloc, before)?;
    let after = text(alloc, after)?;
    match lifted_alone(alloc, &before)? {
        Ok(out) => Ok(out.as_slice() == after.as_slice()),
        Err(_) => Ok(false),
    }
}

const TWICE: [&[u8]; 3] = [b"CERT 1\nFORMULA 1\nSPLIT 0\n", LEAF, LEAF];

const ONCE: [&[u8]; 5] = [b"CERT 2\nFORMULA 1\n", SHARED, b"SPLIT 0\n", END, END];

#[test]
fn a_leaf_that_stands_twice_is_shared(rt: HostRuntime) -> Result<(), Fail> {
    assert!(rt; is_lifted(rt.alloc(), &TWICE, &ONCE)?);
    Ok(())
}

const LOW: [&[u8]; 4] = [b"CERT 1\nFORMULA 1\nSPLIT 1\nSPLIT 0\n", LEAF, LEAF, OTHER];

const HIGH: [&[u8]; 6] = [b"CERT 2\nFORMULA 1\n", UPPER, LOWER, END, END, OTHER_END];

#[test]
fn each_step_moves_as_high_as_it_can(rt: HostRuntime) -> Result<(), Fail> {
    assert!(rt; is_lifted(rt.alloc(), &LOW, &HIGH)?);
    Ok(())
}

// Whether the certificate of a text doesn't check, with this fault.
fn is_refused(alloc: Global, before: &[u8], fault: CertFault) -> Result<bool, Fail> {
    Ok(lifted_alone(alloc, before)?.err() == Some(LiftFault::Unchecked(fault)))
}

#[test]
fn what_does_not_check_is_not_migrated(rt: HostRuntime) -> Result<(), Fail> {
    let before = b"CERT 1\nFORMULA 1\nLEAF 1\nEQ 999 1 K2 0 0\n";
    let number = CertFault::BadStep(1, Lack::Number);
    assert!(rt; is_refused(rt.alloc(), before, number)?);
    Ok(())
}
