//! How many interfaces a hierarchy may have.

use crate::files::{outcome, push_file};
use std::alloc::Global;
use std::test::Fail;

fn push_interface(
    alloc: Global,
    files: &mut Vec<(String, Vec<u8>)>,
    number: u32,
) -> Result<(), Fail> {
    let name = format!(in alloc; "i{number}.iface")?;
    let text = format!(in alloc;
        "INTERFACE i{number} MODULES m; LATTICE LOW; SAMPLE s; END_INTERFACE"
    )?;
    push_file(alloc, files, &name, text.as_bytes())?;
    Ok(())
}

fn push_mapping(
    alloc: Global,
    files: &mut Vec<(String, Vec<u8>)>,
    number: u32,
) -> Result<(), Fail> {
    let name = format!(in alloc; "i{number}.map")?;
    let text = format!(in alloc; "MAPPING i{number} FROM i{number} TO i0 END_MAPPING")?;
    push_file(alloc, files, &name, text.as_bytes())?;
    Ok(())
}

// A hierarchy of so many interfaces above `i0`.
fn hierarchy_text(alloc: Global, count: u32) -> Result<String, Fail> {
    let mut text = String::from_str(alloc, "HIERARCHY h ")?;
    for k in 0..count {
        let number = k.saturating_add(1);
        let row = format!(in alloc; "i{number} OVER i0 BY i{number}; ")?;
        text.push_str(&row)?;
    }
    text.push_str("END_HIERARCHY")?;
    Ok(text)
}

fn outcome_above(alloc: Global, count: u32) -> Result<Vec<u8>, Fail> {
    let mut files = Vec::new(alloc);
    push_file(
        alloc,
        &mut files,
        "h.hier",
        hierarchy_text(alloc, count)?.as_bytes(),
    )?;
    push_file(alloc, &mut files, "m.special", b"MODULE m END_MODULE")?;
    push_file(alloc, &mut files, "s.inst", b"INSTANCE s END_INSTANCE")?;
    push_interface(alloc, &mut files, 0)?;
    for k in 0..count {
        push_interface(alloc, &mut files, k.saturating_add(1))?;
        push_mapping(alloc, &mut files, k.saturating_add(1))?;
    }
    Ok(outcome(alloc, files, Vec::new(alloc))?)
}

#[test]
fn interfaces_up_to_16(rt: HostRuntime) -> Result<(), Fail> {
    let alloc = rt.alloc();
    assert_eq!(rt;
        outcome_above(alloc, 15)?.as_slice(),
        b"JUDGED 16 15\n".as_slice()
    );
    assert_eq!(rt;
        outcome_above(alloc, 16)?.as_slice(),
        b"LIMIT interfaces 16 AT h.hier 294\n".as_slice()
    );
    Ok(())
}
