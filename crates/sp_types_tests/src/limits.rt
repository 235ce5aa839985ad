//! Limits of whole specifications, at their number and one above.

use crate::texts::{Counts, alone, below, exceeds, shows};
use sp_text::{Memory, Quantity, SpecFault, push_number};
use std::alloc::Global;

// The text, this name with its number, and the text behind it.
fn push_named(
    alloc: Global,
    text: &mut Vec<u8>,
    front: &[u8],
    number: u16,
    behind: &[u8],
) -> Result<(), Memory> {
    text.extend_from_slice(front)?;
    push_number(alloc, text, number as i64)?;
    text.extend_from_slice(behind)?;
    Ok(())
}

// An interface that gives so many functions `f0` and on a level.
fn levelled(alloc: Global, count: u16) -> Result<Vec<u8>, Memory> {
    let mut text = Vec::new(alloc);
    text.extend_from_slice(b"INTERFACE i MODULES m; LATTICE LOW; ")?;
    for k in 0..count {
        push_named(alloc, &mut text, b"LEVEL f", k, b"() IS LOW; ")?;
    }
    text.extend_from_slice(b"SAMPLE s; END_INTERFACE")?;
    Ok(text)
}

// So many specified parts, and no others.
fn specified(assertions: usize, functions: usize) -> Result<Counts, SpecFault> {
    Ok(Counts {
        types: 0,
        parameters: 0,
        assertions,
        functions,
    })
}

fn asserting(alloc: Global, count: u16) -> Result<Vec<u8>, Memory> {
    let mut text = Vec::new(alloc);
    text.extend_from_slice(b"MODULE m ASSERTIONS ")?;
    for _ in 0..count {
        text.extend_from_slice(b"TRUE; ")?;
    }
    text.extend_from_slice(b"END_MODULE")?;
    Ok(text)
}

#[test]
fn assertions_up_to_64(rt: HostRuntime) -> Result<(), Memory> {
    let alloc = rt.alloc();
    shows(&rt, alone(alloc, &asserting(alloc, 64)?), specified(64, 0));
    shows(
        &rt,
        alone(alloc, &asserting(alloc, 65)?),
        exceeds(1, 404, 408, Quantity::Assertions),
    );
    Ok(())
}

fn operating(alloc: Global, count: u16) -> Result<Vec<u8>, Memory> {
    let mut text = Vec::new(alloc);
    text.extend_from_slice(b"MODULE m FUNCTIONS ")?;
    for k in 0..count {
        push_named(alloc, &mut text, b"OFUN f", k, b"(); EFFECTS ")?;
    }
    text.extend_from_slice(b"END_MODULE")?;
    Ok(text)
}

#[test]
fn functions_up_to_512(rt: HostRuntime) -> Result<(), Memory> {
    let alloc = rt.alloc();
    let interface = levelled(alloc, 512)?;
    shows(
        &rt,
        below(alloc, &interface, &operating(alloc, 512)?),
        specified(0, 512),
    );
    shows(
        &rt,
        below(alloc, &interface, &operating(alloc, 513)?),
        exceeds(1, 10666, 10670, Quantity::Functions),
    );
    Ok(())
}

// So many derived functions, each of which but the first reads the one before it.
fn derivations(alloc: Global, count: u16) -> Result<Vec<u8>, Memory> {
    let mut text = Vec::new(alloc);
    text.extend_from_slice(b"MODULE m FUNCTIONS ")?;
    for k in 0..count {
        push_named(
            alloc,
            &mut text,
            b"VFUN f",
            k,
            b"() -> INTEGER; DERIVATION ",
        )?;
        if k > 0 {
            push_named(alloc, &mut text, b"f", k - 1, b"() + ")?;
        }
        text.extend_from_slice(b"0; ")?;
    }
    text.extend_from_slice(b"END_MODULE")?;
    Ok(text)
}

#[test]
fn derivations_up_to_16_deep(rt: HostRuntime) -> Result<(), Memory> {
    let alloc = rt.alloc();
    let interface = levelled(alloc, 17)?;
    shows(
        &rt,
        below(alloc, &levelled(alloc, 16)?, &derivations(alloc, 16)?),
        specified(0, 16),
    );
    shows(
        &rt,
        below(alloc, &interface, &derivations(alloc, 17)?),
        exceeds(1, 716, 719, Quantity::DerivationDepth),
    );
    Ok(())
}

// `e0` has 3 nodes; each further definition calls the one before it twice, so that `e8` has 1,023.
fn push_doubling(alloc: Global, text: &mut Vec<u8>) -> Result<(), Memory> {
    text.extend_from_slice(b"MODULE m DEFINITIONS BOOLEAN e0() IS TRUE AND TRUE; ")?;
    for k in 1..9 {
        push_named(alloc, text, b"BOOLEAN e", k, b"() IS e")?;
        push_named(alloc, text, b"", k.saturating_sub(1), b"() AND e")?;
        push_named(alloc, text, b"", k.saturating_sub(1), b"(); ")?;
    }
    Ok(())
}

// A function with seven exceptions of 1,024 nodes each and this one.
fn excepting(alloc: Global, last: &[u8]) -> Result<Vec<u8>, Memory> {
    let mut text = Vec::new(alloc);
    push_doubling(alloc, &mut text)?;
    text.extend_from_slice(b"FUNCTIONS OFUN f0(); EXCEPTIONS ")?;
    for k in 0..7 {
        push_named(alloc, &mut text, b"x", k, b": NOT e8(); ")?;
    }
    text.extend_from_slice(last)?;
    text.extend_from_slice(b" EFFECTS END_MODULE")?;
    Ok(text)
}

// The level of the function is a node too.
#[test]
fn nodes_of_a_function_up_to_8192(rt: HostRuntime) -> Result<(), Memory> {
    let alloc = rt.alloc();
    let interface = levelled(alloc, 1)?;
    shows(
        &rt,
        below(alloc, &interface, &excepting(alloc, b"y: e8();")?),
        specified(0, 1),
    );
    shows(
        &rt,
        below(alloc, &interface, &excepting(alloc, b"y: NOT e8();")?),
        exceeds(1, 315, 317, Quantity::FunctionNodes),
    );
    Ok(())
}
