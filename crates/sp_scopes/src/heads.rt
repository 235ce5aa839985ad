//! What headers declare.

ghost use Rattle.std.specs.Prelude.{◌≡◌, IfOk, map, option_copied};
ghost use Rattle.sp_scopes.specs.Headers.{see_of};
ghost use Rattle.sp_scopes.specs.Heads as spec_heads;

use sp_naming::{Declaration, Declared, Entity, Names, seen};
use sp_text::{Memory, Name, Sequence};
use sp_tree::{Body, ExprTree, FormalTree, FunDecl, Header, TypeTree};
use sp_values::Ty;
use std::alloc::Global;

/// A variable of a place, with its type.
#[derive(Debug, Drop)]
pub struct Local {
    pub name: Name,
    pub ty: Ty,
}

/// What is called by a name with arguments, with the type of its value.
#[derive(Clone, Copy, Debug, PartialEq, Eq)]
pub enum Sort {
    /// A parameter or a definition.
    Plain(Ty),
    /// A V-function of the state.
    Primitive(Ty),
    /// A V-function that is computed.
    Derived(Ty),
    /// An O-function.
    Operation,
    /// An OV-function, with the type of its result.
    Both(Ty),
}

/// The name, the formals and the sort of a parameter, a definition or a function.
#[derive(Debug, Drop)]
pub struct Head {
    pub name: Name,
    pub formals: Sequence<Local>,
    pub sort: Sort,
}

fn entity_type(entity: Entity) -> Ty
    ensures { result ≡ spec_heads.entity_type entity }
{
    match entity {
        Entity::Declared(k) => Ty::Member(k),
        Entity::Member(..) => Ty::Boolean,
        Entity::Param(_) => Ty::Boolean,
        Entity::Definition(_) => Ty::Boolean,
        Entity::Function(_) => Ty::Boolean,
        Entity::Level(_) => Ty::Boolean,
    }
}

fn named_type(found: Option<&Declaration>) -> Ty
    ensures { result ≡ spec_heads.named_type (option_copied found.entry) }
{
    match found {
        None => Ty::Boolean,
        Some(d) => entity_type(d.entity),
    }
}

/// The type that is written, as module `k` sees it, which takes these names.
pub fn type_of(declared: &Declared, k: u16, names: &Names, ty: &TypeTree) -> Ty
    ensures { result ≡ spec_heads.type_of (see_of declared.now k names.now) ty.now }
{
    match ty {
        TypeTree::Boolean(_) => Ty::Boolean,
        TypeTree::Integer(_) => Ty::Integer,
        TypeTree::Level(_) => Ty::Level,
        TypeTree::Named(x) => named_type(seen(declared, k, names, x.name.bytes())),
    }
}

fn local_of(
    alloc: Global,
    declared: &Declared,
    k: u16,
    names: &Names,
    formal: &FormalTree,
) -> Result<Local, Memory>
    ensures { IfOk result (λ local. local ≡ spec_heads.local_of (see_of declared.now k names.now) formal.now) }
{
    Ok(Local {
        name: Name::new(alloc, formal.name.name.bytes())?,
        ty: type_of(declared, k, names, &formal.ty),
    })
}

fn locals_of(
    alloc: Global,
    declared: &Declared,
    k: u16,
    names: &Names,
    formals: &[FormalTree],
) -> Result<Vec<Local>, Memory>
    ensures { IfOk result (λ locals. locals.items ≡ map (spec_heads.local_of (see_of declared.now k names.now)) formals.now) }
{
    let mut locals = Vec::new(alloc);
    for formal in formals {
        locals.push(local_of(alloc, declared, k, names, formal)?)?;
    }
    Ok(locals)
}

fn value_type(declared: &Declared, k: u16, names: &Names, ty: &Option<TypeTree>) -> Ty
    ensures { result ≡ spec_heads.value_type (see_of declared.now k names.now) ty.now }
{
    match ty {
        None => Ty::Boolean,
        Some(ty) => type_of(declared, k, names, ty),
    }
}

fn effects_sort(declared: &Declared, k: u16, names: &Names, ty: &Option<TypeTree>) -> Sort
    ensures { result ≡ spec_heads.effects_sort (see_of declared.now k names.now) ty.now }
{
    match ty {
        None => Sort::Operation,
        Some(ty) => Sort::Both(type_of(declared, k, names, ty)),
    }
}

fn function_sort(
    declared: &Declared,
    k: u16,
    names: &Names,
    ty: &Option<TypeTree>,
    body: &Body,
) -> Sort
    ensures { result ≡ spec_heads.function_sort (see_of declared.now k names.now) ty.now body.now }
{
    match body {
        Body::Initially(_) => Sort::Primitive(value_type(declared, k, names, ty)),
        Body::Derivation(_) => Sort::Derived(value_type(declared, k, names, ty)),
        Body::Effects(_) => effects_sort(declared, k, names, ty),
    }
}

fn head_of(
    alloc: Global,
    declared: &Declared,
    k: u16,
    names: &Names,
    header: &Header,
    sort: Sort,
) -> Result<Head, Memory>
    ensures { IfOk result (λ head. head ≡ spec_heads.head_of (see_of declared.now k names.now) header.now sort) }
{
    let formals = locals_of(alloc, declared, k, names, header.formals.items())?;
    let name = Name::new(alloc, header.name.name.bytes())?;
    Ok(Head {
        name,
        formals: Sequence::new(formals),
        sort,
    })
}

/// The heads of a module's parameters.
pub fn parameter_heads(
    alloc: Global,
    declared: &Declared,
    k: u16,
    names: &Names,
    parameters: &[Header],
) -> Result<Vec<Head>, Memory>
    ensures { IfOk result (λ heads. heads.items ≡ map (spec_heads.plain_head (see_of declared.now k names.now)) parameters.now) }
{
    let mut heads = Vec::new(alloc);
    for header in parameters {
        heads.push(plain_head(alloc, declared, k, names, header)?)?;
    }
    Ok(heads)
}

/// The head of a parameter or a definition.
pub fn plain_head(
    alloc: Global,
    declared: &Declared,
    k: u16,
    names: &Names,
    header: &Header,
) -> Result<Head, Memory>
    ensures { IfOk result (λ head. head ≡ spec_heads.plain_head (see_of declared.now k names.now) header.now) }
{
    let sort = Sort::Plain(value_type(declared, k, names, &header.ty));
    head_of(alloc, declared, k, names, header, sort)
}

/// The heads of a module's definitions.
pub fn definition_heads(
    alloc: Global,
    declared: &Declared,
    k: u16,
    names: &Names,
    definitions: &[(Header, ExprTree)],
) -> Result<Vec<Head>, Memory>
    ensures { IfOk result (λ heads. heads.items ≡ map (spec_heads.definition_head (see_of declared.now k names.now)) definitions.now) }
{
    let mut heads = Vec::new(alloc);
    for definition in definitions {
        heads.push(plain_head(alloc, declared, k, names, &definition.0)?)?;
    }
    Ok(heads)
}

fn function_head(
    alloc: Global,
    declared: &Declared,
    k: u16,
    names: &Names,
    function: &FunDecl,
) -> Result<Head, Memory>
    ensures { IfOk result (λ head. head ≡ spec_heads.function_head (see_of declared.now k names.now) function.now) }
{
    let sort = function_sort(declared, k, names, &function.head.ty, &function.body);
    head_of(alloc, declared, k, names, &function.head, sort)
}

/// The heads of a module's functions.
pub fn function_heads(
    alloc: Global,
    declared: &Declared,
    k: u16,
    names: &Names,
    functions: &[FunDecl],
) -> Result<Vec<Head>, Memory>
    ensures { IfOk result (λ heads. heads.items ≡ map (spec_heads.function_head (see_of declared.now k names.now)) functions.now) }
{
    let mut heads = Vec::new(alloc);
    for function in functions {
        heads.push(function_head(alloc, declared, k, names, function)?)?;
    }
    Ok(heads)
}
