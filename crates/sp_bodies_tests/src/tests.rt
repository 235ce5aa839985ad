use crate::texts::{breaks, exceeds, found};
use sp_text::{FileViolation, Memory, Quantity, Rule, TextFault, push_number};
use std::alloc::Global;

#[test]
fn modules_that_break_nothing(rt: HostRuntime) {
    let alloc = rt.alloc();
    let m = b"MODULE m DEFINITIONS INTEGER one() IS 1; ASSERTIONS one() = 1;
FUNCTIONS VFUN g() -> INTEGER; INITIALLY one(); END_MODULE";
    let n = b"MODULE n EXTERNALREFS FROM m: g; FUNCTIONS VFUN d() -> INTEGER; DERIVATION g();
OFUN o(INTEGER x); EXCEPTIONS bad: x = d(); EFFECTS END_MODULE";
    assert_eq!(rt; found(alloc, m, n), Ok(None));
}

#[test]
fn the_first_file_counts(rt: HostRuntime) {
    let alloc = rt.alloc();
    let m = b"MODULE m ASSERTIONS TRUE; 1; END_MODULE";
    let n = b"MODULE n DEFINITIONS INTEGER d() IS TRUE; END_MODULE";
    let none = b"MODULE m END_MODULE";
    assert_eq!(rt; found(alloc, m, n), breaks(1, 26, 27, Rule::WrongType));
    assert_eq!(rt; found(alloc, none, n), breaks(2, 36, 40, Rule::WrongType));
}

#[test]
fn a_derivation_reads_no_later_one(rt: HostRuntime) {
    let alloc = rt.alloc();
    let m = b"MODULE m FUNCTIONS VFUN d() -> INTEGER; DERIVATION d(); END_MODULE";
    let n = b"MODULE n FUNCTIONS OFUN o(); EXCEPTIONS bad: 1; EFFECTS END_MODULE";
    let none = b"MODULE m END_MODULE";
    assert_eq!(rt; found(alloc, m, n), breaks(1, 51, 54, Rule::Cyclic));
    assert_eq!(rt; found(alloc, none, n), breaks(2, 45, 46, Rule::WrongType));
}

fn assertions(alloc: Global, module: &[u8], count: u16) -> Result<Vec<u8>, Memory> {
    let mut text = Vec::new(alloc);
    text.extend_from_slice(module)?;
    for _ in 0..count {
        text.extend_from_slice(b"TRUE; ")?;
    }
    text.extend_from_slice(b"END_MODULE")?;
    Ok(text)
}

// What assertions in both modules break, in the second so many.
fn with_assertions(alloc: Global, count: u16) -> Result<Option<FileViolation>, TextFault> {
    let m = assertions(alloc, b"MODULE m ASSERTIONS ", 40)?;
    let n = assertions(alloc, b"MODULE n ASSERTIONS ", count)?;
    found(alloc, &m, &n)
}

#[test]
fn assertions_up_to_64(rt: HostRuntime) {
    let alloc = rt.alloc();
    assert_eq!(rt; with_assertions(alloc, 24), Ok(None));
    assert_eq!(rt;
        with_assertions(alloc, 25),
        exceeds(2, 164, 168, Quantity::Assertions)
    );
}

// Derived functions, each of which but the first reads the one before it.
fn derived(alloc: Global, count: u16) -> Result<Vec<u8>, Memory> {
    let mut text = Vec::new(alloc);
    text.extend_from_slice(b"MODULE n FUNCTIONS VFUN d0() -> INTEGER; DERIVATION 0; ")?;
    for k in 1..count {
        text.extend_from_slice(b"VFUN d")?;
        push_number(alloc, &mut text, k as i64)?;
        text.extend_from_slice(b"() -> INTEGER; DERIVATION d")?;
        push_number(alloc, &mut text, k as i64 - 1)?;
        text.extend_from_slice(b"(); ")?;
    }
    text.extend_from_slice(b"END_MODULE")?;
    Ok(text)
}

fn with_derived(alloc: Global, count: u16) -> Result<Option<FileViolation>, TextFault> {
    let n = derived(alloc, count)?;
    found(alloc, b"MODULE m END_MODULE", &n)
}

#[test]
fn derivations_up_to_16_deep(rt: HostRuntime) {
    let alloc = rt.alloc();
    assert_eq!(rt; with_derived(alloc, 16), Ok(None));
    assert_eq!(rt;
        with_derived(alloc, 17),
        exceeds(2, 656, 659, Quantity::DerivationDepth)
    );
}
