use crate::texts::{is, span, tokens};
use sp_parser::parse_module;
use sp_text::TextFault;
use sp_tree::{Body, EffectTree, FormalTree, FunDecl, Module, TypeTree};
use std::alloc::Global;
use std::test::Fail;

const EVERY_FORM: &[u8] = b"MODULE files
TYPES user: DESIGNATOR; color: {red, green};
PARAMETERS LEVEL clr(user u); INTEGER most();
DEFINITIONS BOOLEAN same(user u; user v) IS u = v;
EXTERNALREFS FROM other: a, b, c; FROM more: d;
ASSERTIONS FORALL user u: clr(u) <= TOP END_FORALL; TRUE;
FUNCTIONS
VFUN data(color c) -> INTEGER; HIDDEN; INITIALLY 0;
VFUN sum(color c) -> INTEGER; EXCEPTIONS low: FALSE; high: TRUE; DERIVATION data(c) + 1;
OFUN set(INTEGER x); EXCEPTIONS bad: x = ?; EFFECTS
  'data(red) = x; IF x = 1 THEN 'data(green) = 2; ELSE END_IF; FORALL color c; user u: END_FORALL;
OVFUN get(user u) -> INTEGER r; EFFECTS r = data(red);
END_MODULE";

/// The module that the text is.
fn read(alloc: Global, text: &[u8]) -> Result<Module, TextFault> {
    let tokens = tokens(alloc, text)?;
    parse_module(alloc, tokens.as_slice(), text.len() as u32)
}

// Whether the module of every form is read so.
fn has_sections(module: &Module) -> bool {
    is(&module.name, b"files")
        && module.types.items().len() == 2
        && module.parameters.items().len() == 2
        && module.definitions.items().len() == 1
        && module.externals.items().len() == 2
        && module.assertions.items().len() == 2
}

// The effects of a function, if it has a list of them.
fn effects(function: &FunDecl) -> Option<&[EffectTree]> {
    match &function.body {
        Body::Effects(effects) => Some(effects.items()),
        Body::Initially(_) | Body::Derivation(_) => None,
    }
}

// Whether a function has so many effects.
fn has_effects(function: &FunDecl, count: usize) -> bool {
    match effects(function) {
        Some(effects) => effects.len() == count,
        None => false,
    }
}

fn has_functions(functions: &[FunDecl]) -> bool {
    let [data, sum, set, get] = functions else {
        return false;
    };
    data.hidden && is_sum(sum) && has_operations(set, get)
}

fn is_sum(sum: &FunDecl) -> bool {
    !sum.hidden && sum.exceptions.items().len() == 2 && matches!(sum.body, Body::Derivation(_))
}

fn has_operations(set: &FunDecl, get: &FunDecl) -> bool {
    has_effects(set, 3) && set.head.ty.is_none() && get.head.result.is_some() && has_effects(get, 1)
}

#[test]
fn every_form_stands_in_its_place(rt: HostRuntime) -> Result<(), Fail> {
    let module = read(rt.alloc(), EVERY_FORM)?;
    assert!(rt; has_sections(&module));
    assert!(rt; has_functions(module.functions.items()));
    Ok(())
}

const NESTED_EFFECTS: &[u8] = b"MODULE m FUNCTIONS OFUN f(user u; INTEGER i); EFFECTS \
    IF a THEN FORALL LEVEL l: END_FORALL; ELSE END_IF; END_MODULE";

// Whether the type spans from one place to the other.
fn spans(ty: &TypeTree, start: u32, end: u32) -> bool {
    match ty {
        TypeTree::Boolean(at) | TypeTree::Integer(at) | TypeTree::Level(at) => {
            *at == span(start, end)
        }
        TypeTree::Named(name) => name.span == span(start, end),
    }
}

// Whether the formals of that function span so.
fn has_formals(formals: &[FormalTree]) -> bool {
    let [user, number] = formals else {
        return false;
    };
    spans(&user.ty, 26, 30) && spans(&number.ty, 34, 41)
}

// Whether its effects span so.
fn has_nested(function: &FunDecl) -> bool {
    let Some([EffectTree::If(keyword, _, yes, _)]) = effects(function) else {
        return false;
    };
    *keyword == span(54, 56) && has_loop(yes.as_slice())
}

fn has_loop(effects: &[EffectTree]) -> bool {
    let [EffectTree::Forall(keyword, variables, _)] = effects else {
        return false;
    };
    let Some(variable) = variables.items().first() else {
        return false;
    };
    *keyword == span(64, 70) && spans(&variable.ty, 71, 76)
}

fn has_spans(functions: &[FunDecl]) -> bool {
    let [function] = functions else {
        return false;
    };
    has_formals(function.head.formals.items()) && has_nested(function)
}

#[test]
fn keywords_and_types_span_their_token(rt: HostRuntime) -> Result<(), Fail> {
    let module = read(rt.alloc(), NESTED_EFFECTS)?;
    assert!(rt; has_spans(module.functions.items()));
    Ok(())
}
