//! Expressions of texts, elaborated in a module.

use sp_core::Expr;
use sp_definitions::{has_room, have_room};
use sp_elaborate::elaborate_expr;
use sp_expression::parse_expr;
use sp_lexer::lex;
use sp_order::{has_levels, lattice_of};
use sp_parser::parse_module;
use sp_scopes::{Local, Scopes};
use sp_text::{
    Limit, MOST_HEIGHT, Malformed, Memory, Name, Quantity, Rule, Sequence, Span, TextFault,
};
use sp_tree::{ExprTree, Ident, InterfaceTree, LatticeTree, Module};
use sp_values::Ty;
use std::alloc::Global;
use std::process::Abort;

// What is around an expression, before and behind the definitions.
const TYPES: &[u8] =
    b"MODULE m TYPES c: {p, q}; n: DESIGNATOR; PARAMETERS INTEGER z(); BOOLEAN b(c x);
DEFINITIONS INTEGER id(INTEGER y) IS y; BOOLEAN every() IS FORALL c y: b(y) END_FORALL; ";

const FUNCTIONS: &[u8] =
    b"FUNCTIONS VFUN g() -> INTEGER; INITIALLY 0; VFUN h(c x) -> BOOLEAN; INITIALLY TRUE;
OFUN o(); EFFECTS OVFUN v() -> INTEGER r; EFFECTS r = 0; END_MODULE";

const PLACE: Span = Span { start: 0, end: 0 };

fn ident(alloc: Global, name: &[u8]) -> Result<Ident, Memory> {
    Ok(Ident {
        name: Name::new(alloc, name)?,
        span: PLACE,
    })
}

fn idents(alloc: Global, names: &[&[u8]]) -> Result<Sequence<Ident>, Memory> {
    let mut all = Vec::new(alloc);
    for name in names {
        all.push(ident(alloc, name)?)?;
    }
    Ok(Sequence::new(all))
}

fn lattice(alloc: Global) -> Result<LatticeTree, Memory> {
    let names: [&[u8]; 2] = [b"LOW", b"HIGH"];
    let mut chains = Vec::new(alloc);
    chains.push(idents(alloc, &names)?)?;
    let chains = Sequence::new(chains);
    Ok(LatticeTree::Order(PLACE, idents(alloc, &names)?, chains))
}

// The interface of the module `m`, with LOW below HIGH.
fn interface(alloc: Global) -> Result<InterfaceTree, Memory> {
    let name = ident(alloc, b"i")?;
    let modules = idents(alloc, &[b"m"])?;
    Ok(InterfaceTree {
        name,
        modules,
        lattice: lattice(alloc)?,
        levels: Sequence::new(Vec::new(alloc)),
        sample: ident(alloc, b"s")?,
    })
}

fn module_of(alloc: Global, definitions: &[u8]) -> Result<Module, TextFault> {
    let mut text = Vec::new(alloc);
    text.extend_from_slice(TYPES)?;
    text.extend_from_slice(definitions)?;
    text.extend_from_slice(FUNCTIONS)?;
    if text.len() > 1_000_000 {
        return Err(TextFault::Memory);
    }
    let tokens = lex(alloc, &text)?;
    parse_module(alloc, tokens.as_slice(), text.len() as u32)
}

// Each function from here on holds one value that has to be dropped: the proof of several in one grows with their product.

fn declared(alloc: Global, modules: &[Module]) -> Result<Scopes, TextFault> {
    let interface = interface(alloc)?;
    match Scopes::declare(alloc, &interface, modules) {
        Ok(scopes) => Ok(scopes),
        Err(found) => Err(found.fault),
    }
}

fn names(alloc: Global, definitions: &[u8]) -> Result<Scopes, TextFault> {
    let mut modules = Vec::new(alloc);
    modules.push(module_of(alloc, definitions)?)?;
    declared(alloc, modules.as_slice())
}

fn tree(alloc: Global, text: &[u8]) -> Result<ExprTree, TextFault> {
    if text.len() > 1_000_000 {
        return Err(TextFault::Memory);
    }
    let tokens = lex(alloc, text)?;
    let (tree, _) = parse_expr(alloc, tokens.as_slice(), 0, text.len() as u32, MOST_HEIGHT)?;
    Ok(tree)
}

fn elaborated(
    alloc: Global,
    scopes: &Scopes,
    locals: &[Local],
    asked: Option<Ty>,
    e: &ExprTree,
) -> Result<(Expr, Ty), TextFault> {
    if !has_levels(scopes) {
        return Err(TextFault::Memory);
    }
    if !have_room(scopes) {
        return Err(TextFault::Memory);
    }
    if !has_room(locals, e) {
        return Err(TextFault::Memory);
    }
    match lattice_of(alloc, scopes) {
        Ok(_) => elaborate_expr(alloc, scopes, 0, locals, asked, e),
        Err(_) => Err(TextFault::Memory),
    }
}

fn type_of_tree(
    alloc: Global,
    scopes: &Scopes,
    locals: &[Local],
    asked: Option<Ty>,
    e: &ExprTree,
) -> Result<Ty, TextFault> {
    match elaborated(alloc, scopes, locals, asked, e) {
        Ok((_, ty)) => Ok(ty),
        Err(fault) => Err(fault),
    }
}

fn type_among(
    alloc: Global,
    scopes: &Scopes,
    locals: &[Local],
    asked: Option<Ty>,
    text: &[u8],
) -> Result<Ty, TextFault> {
    let e = tree(alloc, text)?;
    type_of_tree(alloc, scopes, locals, asked, &e)
}

/// The type of the expression of a text below these further definitions and variables, or what it breaks.
pub fn type_below(
    alloc: Global,
    definitions: &[u8],
    locals: &[Local],
    asked: Option<Ty>,
    text: &[u8],
) -> Result<Ty, TextFault> {
    let scopes = names(alloc, definitions)?;
    type_among(alloc, &scopes, locals, asked, text)
}

/// The same without further definitions and variables.
pub fn type_of(alloc: Global, asked: Option<Ty>, text: &[u8]) -> Result<Ty, TextFault> {
    type_below(alloc, b"", &[], asked, text)
}

/// The same below one INTEGER variable.
pub fn type_with(alloc: Global, name: &[u8], text: &[u8]) -> Result<Ty, TextFault> {
    let mut locals = Vec::new(alloc);
    locals.push(Local {
        name: Name::new(alloc, name)?,
        ty: Ty::Integer,
    })?;
    type_below(alloc, b"", locals.as_slice(), None, text)
}

/// The rule is broken from one place to the other.
pub fn breaks(start: u32, end: u32, rule: Rule) -> Result<Ty, TextFault> {
    let span = Span { start, end };
    Err(TextFault::Malformed(Malformed { span, rule }))
}

/// The limit is exceeded from one place to the other.
pub fn exceeds(start: u32, end: u32, quantity: Quantity) -> Result<Ty, TextFault> {
    let span = Span { start, end };
    Err(TextFault::Limit(Limit { span, quantity }))
}

/// Asserts which type a text has, or what it breaks. The assertion stands here alone, since each costs the proof of a test much.
pub fn shows(rt: &impl Abort, found: Result<Ty, TextFault>, want: Result<Ty, TextFault>) {
    assert_eq!(rt; found, want);
}
