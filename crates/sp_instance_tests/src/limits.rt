//! The limits of instances and scripts, and a large instance.

use crate::texts::{System, count, exceeds, made};
use sp_text::{Memory, Quantity, TextFault, push_number};
use std::alloc::Global;

const FILES: &[u8] = b"MODULE m TYPES file: DESIGNATOR; END_MODULE";

// A population of so many files.
fn files(alloc: Global, count: u16) -> Result<Vec<u8>, Memory> {
    let mut text = Vec::new(alloc);
    text.extend_from_slice(b"INSTANCE s POPULATION file = {f0")?;
    for k in 1..count {
        text.extend_from_slice(b", f")?;
        push_number(alloc, &mut text, k as i64)?;
    }
    text.extend_from_slice(b"}; END_INSTANCE")?;
    Ok(text)
}

fn with_files(alloc: Global, count: u16) -> Result<(), TextFault> {
    made(alloc, FILES, &files(alloc, count)?)
}

#[test]
fn populations_up_to_64(rt: HostRuntime) {
    let alloc = rt.alloc();
    assert_eq!(rt; with_files(alloc, 64), Ok(()));
    assert_eq!(rt;
        with_files(alloc, 65),
        Err(exceeds(340, 343, Quantity::Population))
    );
}

const CALLED: System = System {
    interface: b"INTERFACE i MODULES m; LATTICE LOW; LEVEL f() IS LOW; SAMPLE s; END_INTERFACE",
    module: b"MODULE m FUNCTIONS OFUN f(); EFFECTS END_MODULE",
    instance: b"INSTANCE s END_INSTANCE",
};

fn with_calls(alloc: Global, calls: u16) -> Result<usize, TextFault> {
    let mut text = Vec::new(alloc);
    for _ in 0..calls {
        text.extend_from_slice(b"f();")?;
    }
    count(alloc, &CALLED, &text)
}

#[test]
fn invocations_up_to_10000(rt: HostRuntime) {
    let alloc = rt.alloc();
    assert_eq!(rt; with_calls(alloc, 10_000), Ok(10_000));
    assert_eq!(rt;
        with_calls(alloc, 10_001),
        Err(exceeds(40_000, 40_001, Quantity::Invocations))
    );
}

// So many parameters from numbers to numbers.
fn parameters(alloc: Global, count: u16) -> Result<Vec<u8>, Memory> {
    let mut text = Vec::new(alloc);
    text.extend_from_slice(b"MODULE m PARAMETERS ")?;
    for k in 0..count {
        text.extend_from_slice(b"INTEGER p")?;
        push_number(alloc, &mut text, k as i64)?;
        text.extend_from_slice(b"(INTEGER x); ")?;
    }
    text.extend_from_slice(b"END_MODULE")?;
    Ok(text)
}

// Adds so many rows.
fn push_rows(alloc: Global, text: &mut Vec<u8>, count: u16) -> Result<(), Memory> {
    for k in 0..count {
        text.extend_from_slice(b"(")?;
        push_number(alloc, text, k as i64)?;
        text.extend_from_slice(b") = 1; ")?;
    }
    Ok(())
}

// The tables of so many parameters, each of so many rows.
fn tables(alloc: Global, count: u16, rows: u16) -> Result<Vec<u8>, Memory> {
    let mut text = Vec::new(alloc);
    text.extend_from_slice(b"INSTANCE s ")?;
    for k in 0..count {
        text.extend_from_slice(b"PARAMETER p")?;
        push_number(alloc, &mut text, k as i64)?;
        text.extend_from_slice(b": ")?;
        push_rows(alloc, &mut text, rows)?;
        text.extend_from_slice(b"OTHERWISE 0; ")?;
    }
    text.extend_from_slice(b"END_INSTANCE")?;
    Ok(text)
}

fn with_tables(alloc: Global, count: u16, rows: u16) -> Result<(), TextFault> {
    let module = parameters(alloc, count)?;
    made(alloc, &module, &tables(alloc, count, rows)?)
}

#[test]
fn tables_with_thousands_of_rows(rt: HostRuntime) {
    assert_eq!(rt; with_tables(rt.alloc(), 512, 16), Ok(()));
}
