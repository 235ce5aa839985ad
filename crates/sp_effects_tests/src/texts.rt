//! Effects of texts, made in a module.

use sp_definitions::{definition_cores, have_room};
use sp_effect_laws::make_effects;
use sp_effects::has_effect_room;
use sp_judge::Scope;
use sp_lexer::lex;
use sp_parser::parse_module;
use sp_scopes::{Head, Local, Scopes, Sort};
use sp_text::{Limit, Malformed, Memory, Name, Quantity, Rule, Sequence, Span, TextFault};
use sp_tree::{Body, FunDecl, Ident, InterfaceTree, LatticeTree, Module};
use std::alloc::Global;

// What is before the function of which effects are made.
const BEFORE: &[u8] = b"MODULE m TYPES t: {p, q}; FUNCTIONS
VFUN g() -> INTEGER; INITIALLY 0; VFUN h(t x) -> INTEGER; INITIALLY 0; VFUN j() -> INTEGER; INITIALLY 0;
VFUN d() -> INTEGER; DERIVATION g(); OFUN op(); EFFECTS
";

// The function up to its effects, without a result and with one; both are equally long, with the name at `NAME`.
const OPERATION: &[u8] = b"OFUN  f(t y; INTEGER z); EFFECTS ";

const VALUED: &[u8] = b"OVFUN f() ->  INTEGER r; EFFECTS ";

const NAME: u32 = 203;

const EFFECTS: u32 = 230;

const PLACE: Span = Span { start: 0, end: 0 };

fn ident(alloc: Global, name: &[u8]) -> Result<Ident, Memory> {
    Ok(Ident {
        name: Name::new(alloc, name)?,
        span: PLACE,
    })
}

fn idents(alloc: Global, names: &[&[u8]]) -> Result<Sequence<Ident>, Memory> {
    let mut all = Vec::new(alloc);
    for name in names {
        all.push(ident(alloc, name)?)?;
    }
    Ok(Sequence::new(all))
}

// The interface of the module `m`, with LOW below HIGH.
fn interface(alloc: Global) -> Result<InterfaceTree, Memory> {
    let names: [&[u8]; 2] = [b"LOW", b"HIGH"];
    let mut chains = Vec::new(alloc);
    chains.push(idents(alloc, &names)?)?;
    let chains = Sequence::new(chains);
    Ok(InterfaceTree {
        name: ident(alloc, b"i")?,
        modules: idents(alloc, &[b"m"])?,
        lattice: LatticeTree::Order(PLACE, idents(alloc, &names)?, chains),
        levels: Sequence::new(Vec::new(alloc)),
        sample: ident(alloc, b"s")?,
    })
}

fn module_of(alloc: Global, function: &[u8], effects: &[u8]) -> Result<Module, TextFault> {
    let mut text = Vec::new(alloc);
    text.extend_from_slice(BEFORE)?;
    text.extend_from_slice(function)?;
    text.extend_from_slice(effects)?;
    text.extend_from_slice(b" END_MODULE")?;
    if text.len() > 1_000_000 {
        return Err(TextFault::Memory);
    }
    let tokens = lex(alloc, &text)?;
    parse_module(alloc, tokens.as_slice(), text.len() as u32)
}

fn answer_of(alloc: Global, head: &Head, name: &Option<Ident>) -> Result<Option<Local>, Memory> {
    match (head.sort, name) {
        (Sort::Both(ty), Some(x)) => Ok(Some(Local {
            name: Name::new(alloc, x.name.bytes())?,
            ty,
        })),
        _ => Ok(None),
    }
}

// How many effects are made of a function with this head.
fn made_of(alloc: Global, names: &Scopes, head: &Head, x: &FunDecl) -> Result<usize, TextFault> {
    let Body::Effects(effects) = &x.body else {
        return Err(TextFault::Memory);
    };
    let (formals, effects) = (head.formals.items(), effects.items());
    if !have_room(names) || !has_effect_room(formals, effects) {
        return Err(TextFault::Memory);
    }
    let cores = definition_cores(alloc, names, 0, 1)?;
    let scope = Scope {
        names,
        module_number: 0,
        cores: &cores,
        bottom: 0,
        top: 1,
    };
    let answer = answer_of(alloc, head, &x.head.result)?;
    let place = x.head.name.span;
    let made = make_effects(alloc, &scope, place, formals, &answer, effects)?;
    Ok(made.as_slice().len())
}

fn made(alloc: Global, function: &[u8], effects: &[u8]) -> Result<usize, TextFault> {
    let mut modules = Vec::new(alloc);
    modules.push(module_of(alloc, function, effects)?)?;
    let names = match Scopes::declare(alloc, &interface(alloc)?, modules.as_slice()) {
        Ok(names) => names,
        Err(found) => return Err(found.fault),
    };
    if let [m, ..] = modules.as_slice() {
        if let ([.., head], [.., x]) = (names.functions(), m.functions.items()) {
            return made_of(alloc, &names, head, x);
        }
    }
    Err(TextFault::Memory)
}

/// How many effects are made of these for an operation of a `t` and a number, or what they break.
pub fn effects_made(alloc: Global, effects: &[u8]) -> Result<usize, TextFault> {
    made(alloc, OPERATION, effects)
}

/// The same for a function without formals that has the result `r`, a number.
pub fn results_made(alloc: Global, effects: &[u8]) -> Result<usize, TextFault> {
    made(alloc, VALUED, effects)
}

fn behind(start: u32, end: u32) -> Span {
    Span {
        start: start.saturating_add(EFFECTS),
        end: end.saturating_add(EFFECTS),
    }
}

/// The rule is broken from one place to the other, counted from the first effect.
pub fn breaks(start: u32, end: u32, rule: Rule) -> Result<usize, TextFault> {
    let span = behind(start, end);
    Err(TextFault::Malformed(Malformed { span, rule }))
}

/// The limit is exceeded there.
pub fn exceeds(start: u32, end: u32, quantity: Quantity) -> Result<usize, TextFault> {
    let span = behind(start, end);
    Err(TextFault::Limit(Limit { span, quantity }))
}

/// The rule is broken at the function's name.
pub fn breaks_at_name(rule: Rule) -> Result<usize, TextFault> {
    let span = Span {
        start: NAME,
        end: NAME + 1,
    };
    Err(TextFault::Malformed(Malformed { span, rule }))
}
