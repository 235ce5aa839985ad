//! Specifications of texts, elaborated.

use sp_core::Spec;
use sp_interface::parse_interface;
use sp_lexer::lex;
use sp_parser::parse_module;
use sp_text::{Limit, Malformed, Memory, Quantity, Rule, Span, SpecFault, TextFault};
use sp_tree::{InterfaceTree, Module};
use sp_types::elaborate;
use std::alloc::Global;
use std::process::Abort;

/// A text that breaks a rule from one place to the other.
pub type Broken = (&'static [u8], u32, u32, Rule);

/// How many of each part a specification has.
#[derive(Clone, Copy, Debug, PartialEq, Eq)]
pub struct Counts {
    pub types: usize,
    pub parameters: usize,
    pub assertions: usize,
    pub functions: usize,
}

/// A module that declares nothing.
pub const NOTHING: &[u8] = b"MODULE m END_MODULE";

/// A module with the function `f` alone.
pub const OPERATION: &[u8] = b"MODULE m FUNCTIONS OFUN f(); EFFECTS END_MODULE";

// What is before the functions that stand beside `g`, and how long it is.
const BEFORE: &[u8] = b"MODULE m TYPES c: {p, q}; FUNCTIONS VFUN g() -> INTEGER; INITIALLY 0; ";

const FUNCTIONS: u32 = 70;

const ONE_LEVEL: &[u8] = b"INTERFACE i MODULES m; LATTICE LOW; SAMPLE s; END_INTERFACE";

// The file of a fault in a text that doesn't read, so that no test takes it for a broken rule of a specification.
const NO_FILE: u16 = 65_535;

fn read_interface(alloc: Global, text: &[u8]) -> Result<InterfaceTree, TextFault> {
    if text.len() > 1_000_000 {
        return Err(TextFault::Memory);
    }
    let tokens = lex(alloc, text)?;
    parse_interface(alloc, tokens.as_slice(), text.len() as u32)
}

fn read_module(alloc: Global, text: &[u8]) -> Result<Module, TextFault> {
    if text.len() > 1_000_000 {
        return Err(TextFault::Memory);
    }
    let tokens = lex(alloc, text)?;
    parse_module(alloc, tokens.as_slice(), text.len() as u32)
}

fn read_modules(alloc: Global, texts: &[&[u8]]) -> Result<Vec<Module>, TextFault> {
    let mut modules = Vec::new(alloc);
    for text in texts {
        modules.push(read_module(alloc, text)?)?;
    }
    Ok(modules)
}

fn counts_of(spec: &Spec) -> Counts {
    Counts {
        types: spec.types().len(),
        parameters: spec.params().len(),
        assertions: spec.assertions().len(),
        functions: spec.functions().len(),
    }
}

// Each function holds one value that has to be dropped: the proof of several in one grows with their product.

fn judged(
    alloc: Global,
    interface: &InterfaceTree,
    modules: &[Module],
) -> Result<Counts, SpecFault> {
    match elaborate(alloc, interface, modules) {
        Ok((spec, _)) => Ok(counts_of(&spec)),
        Err(fault) => Err(fault),
    }
}

fn judged_below(
    alloc: Global,
    interface: &[u8],
    modules: &[Module],
) -> Result<Result<Counts, SpecFault>, TextFault> {
    let interface = read_interface(alloc, interface)?;
    Ok(judged(alloc, &interface, modules))
}

fn read_and_judged(
    alloc: Global,
    interface: &[u8],
    modules: &[&[u8]],
) -> Result<Result<Counts, SpecFault>, TextFault> {
    let modules = read_modules(alloc, modules)?;
    judged_below(alloc, interface, modules.as_slice())
}

/// How much the specification of an interface and its modules has, or what they break.
pub fn elaborated(alloc: Global, interface: &[u8], modules: &[&[u8]]) -> Result<Counts, SpecFault> {
    match read_and_judged(alloc, interface, modules) {
        Ok(answer) => answer,
        Err(fault) => Err(SpecFault {
            file: NO_FILE,
            fault,
        }),
    }
}

/// The same of one module.
pub fn below(alloc: Global, interface: &[u8], module: &[u8]) -> Result<Counts, SpecFault> {
    elaborated(alloc, interface, &[module])
}

/// The same of the module `m` in an interface that gives no function a level.
pub fn alone(alloc: Global, module: &[u8]) -> Result<Counts, SpecFault> {
    below(alloc, ONE_LEVEL, module)
}

fn module_beside(alloc: Global, functions: &[u8]) -> Result<Vec<u8>, Memory> {
    let mut text = Vec::new(alloc);
    text.extend_from_slice(BEFORE)?;
    text.extend_from_slice(functions)?;
    text.extend_from_slice(b" END_MODULE")?;
    Ok(text)
}

/// The same of a module with an enumeration `c`, a number `g` of the state, and these functions.
pub fn beside(alloc: Global, functions: &[u8]) -> Result<Counts, SpecFault> {
    match module_beside(alloc, functions) {
        Ok(module) => alone(alloc, &module),
        Err(_) => Err(SpecFault {
            file: NO_FILE,
            fault: TextFault::Memory,
        }),
    }
}

/// The rule is broken in this file, from one place to the other.
pub fn breaks(file: u16, start: u32, end: u32, rule: Rule) -> Result<Counts, SpecFault> {
    let span = Span { start, end };
    let fault = TextFault::Malformed(Malformed { span, rule });
    Err(SpecFault { file, fault })
}

/// The limit is exceeded there.
pub fn exceeds(file: u16, start: u32, end: u32, quantity: Quantity) -> Result<Counts, SpecFault> {
    let span = Span { start, end };
    let fault = TextFault::Limit(Limit { span, quantity });
    Err(SpecFault { file, fault })
}

fn behind(place: u32) -> u32 {
    place.saturating_add(FUNCTIONS)
}

/// The rule is broken beside `g`, from one place to the other, counted from the first function on.
pub fn breaks_beside(start: u32, end: u32, rule: Rule) -> Result<Counts, SpecFault> {
    breaks(1, behind(start), behind(end), rule)
}

/// The limit is exceeded there.
pub fn exceeds_beside(start: u32, end: u32, quantity: Quantity) -> Result<Counts, SpecFault> {
    exceeds(1, behind(start), behind(end), quantity)
}

/// Asserts what a specification has, or what it breaks. The assertion stands here alone, since each costs the proof of a test much.
pub fn shows(rt: &impl Abort, found: Result<Counts, SpecFault>, want: Result<Counts, SpecFault>) {
    assert_eq!(rt; found, want);
}
