//! What the texts of two modules break.

use sp_bodies::{judge_bodies, view_cores};
use sp_lexer::lex;
use sp_parser::parse_module;
use sp_scopes::Scopes;
use sp_text::{
    FileViolation, Memory, Name, Quantity, Requirement, Rule, Sequence, Span, TextFault, Violation,
};
use sp_tree::{Ident, InterfaceTree, LatticeTree, Module};
use std::alloc::Global;

const PLACE: Span = Span { start: 0, end: 0 };

fn ident(alloc: Global, name: &[u8]) -> Result<Ident, Memory> {
    Ok(Ident {
        name: Name::new(alloc, name)?,
        span: PLACE,
    })
}

fn idents(alloc: Global, names: &[&[u8]]) -> Result<Sequence<Ident>, Memory> {
    let mut all = Vec::new(alloc);
    for name in names {
        all.push(ident(alloc, name)?)?;
    }
    Ok(Sequence::new(all))
}

// The interface of the modules `m` and `n`, with LOW below HIGH.
fn interface(alloc: Global) -> Result<InterfaceTree, Memory> {
    let names: [&[u8]; 2] = [b"LOW", b"HIGH"];
    let mut chains = Vec::new(alloc);
    chains.push(idents(alloc, &names)?)?;
    let chains = Sequence::new(chains);
    Ok(InterfaceTree {
        name: ident(alloc, b"i")?,
        modules: idents(alloc, &[b"m", b"n"])?,
        lattice: LatticeTree::Order(PLACE, idents(alloc, &names)?, chains),
        levels: Sequence::new(Vec::new(alloc)),
        sample: ident(alloc, b"s")?,
    })
}

fn module_of(alloc: Global, text: &[u8]) -> Result<Module, TextFault> {
    if text.len() > 1_000_000 {
        return Err(TextFault::Memory);
    }
    let tokens = lex(alloc, text)?;
    parse_module(alloc, tokens.as_slice(), text.len() as u32)
}

/// The first of what the texts of the modules `m` and `n` break behind their names and headers.
pub fn found(alloc: Global, m: &[u8], n: &[u8]) -> Result<Option<FileViolation>, TextFault> {
    let mut modules = Vec::new(alloc);
    modules.push(module_of(alloc, m)?)?;
    modules.push(module_of(alloc, n)?)?;
    let names = match Scopes::declare(alloc, &interface(alloc)?, modules.as_slice()) {
        Ok(names) => names,
        Err(found) => return Err(found.fault),
    };
    let cores = view_cores(alloc, &names, 0, 1)?;
    Ok(judge_bodies(alloc, &names, 0, 1, &cores, modules.as_slice())?)
}

/// The rule is broken in this file from one place to the other.
pub fn breaks(
    file: u16,
    start: u32,
    end: u32,
    rule: Rule,
) -> Result<Option<FileViolation>, TextFault> {
    let violation = Violation {
        span: Span { start, end },
        broken: Requirement::Rule(rule),
    };
    Ok(Some(FileViolation { file, violation }))
}

/// The limit is exceeded there.
pub fn exceeds(
    file: u16,
    start: u32,
    end: u32,
    quantity: Quantity,
) -> Result<Option<FileViolation>, TextFault> {
    let violation = Violation {
        span: Span { start, end },
        broken: Requirement::Limit(quantity),
    };
    Ok(Some(FileViolation { file, violation }))
}
