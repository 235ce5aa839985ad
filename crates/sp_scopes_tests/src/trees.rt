//! Trees built by hand.

use sp_scopes::Scopes;
use sp_text::{
    Limit, Malformed, Memory, Name, Quantity, Rule, Sequence, Span, SpecFault, TextFault,
};
use sp_tree::{
    Body, ExprNode, ExprTree, FormalTree, FunDecl, Header, Ident, InterfaceTree, LatticeTree,
    Module, TypeDecl, TypeTree,
};
use std::alloc::Global;

fn at(start: u32) -> Span {
    Span { start, end: 9999 }
}

pub fn ident(alloc: Global, name: &[u8], start: u32) -> Result<Ident, Memory> {
    Ok(Ident {
        name: Name::new(alloc, name)?,
        span: at(start),
    })
}

/// Names that stand next to one another, the first at `start`.
pub fn idents(alloc: Global, names: &[&[u8]], start: u16) -> Result<Vec<Ident>, Memory> {
    let mut all = Vec::new(alloc);
    let mut place = start as u32;
    for name in names {
        all.push(ident(alloc, name, place)?)?;
        place = place.saturating_add(1);
    }
    Ok(all)
}

/// So many different names, which end with the first byte.
pub fn numbered(alloc: Global, count: u16, last: u8, start: u16) -> Result<Vec<Ident>, Memory> {
    let mut all = Vec::new(alloc);
    for k in 0..count {
        let bytes = [b'a' + (k / 26 % 26) as u8, b'a' + (k % 26) as u8, last];
        all.push(ident(alloc, &bytes, start as u32 + k as u32)?)?;
    }
    Ok(all)
}

fn list<T>(alloc: Global) -> Sequence<T> {
    Sequence::new(Vec::new(alloc))
}

fn one<T: Drop>(alloc: Global, item: T) -> Result<Sequence<T>, Memory> {
    let mut items = Vec::new(alloc);
    items.push(item)?;
    Ok(Sequence::new(items))
}

/// Levels without an order.
pub fn levels(names: Vec<Ident>) -> LatticeTree {
    let alloc = *names.allocator();
    LatticeTree::Order(at(80), Sequence::new(names), Sequence::new(Vec::new(alloc)))
}

/// Levels with one chain of ORDER.
pub fn ordered(alloc: Global, names: Vec<Ident>, chain: Vec<Ident>) -> Result<LatticeTree, Memory> {
    let chains = one(alloc, Sequence::new(chain))?;
    Ok(LatticeTree::Order(at(80), Sequence::new(names), chains))
}

pub fn product(chain: Vec<Ident>, categories: Vec<Ident>) -> LatticeTree {
    LatticeTree::Product(at(80), Sequence::new(chain), Sequence::new(categories))
}

pub fn interface(
    alloc: Global,
    modules: Vec<Ident>,
    lattice: LatticeTree,
) -> Result<InterfaceTree, Memory> {
    Ok(InterfaceTree {
        name: ident(alloc, b"i", 0)?,
        modules: Sequence::new(modules),
        lattice,
        levels: list(alloc),
        sample: ident(alloc, b"s", 0)?,
    })
}

/// What a module declares or takes, with the place of its first name.
#[derive(Clone, Copy)]
pub enum Item {
    /// A designator type.
    Type(&'static [u8], u32),
    /// A type and its members, which stand behind it.
    Enumeration(&'static [u8], &'static [&'static [u8]], u16),
    /// A parameter of type INTEGER.
    Parameter(&'static [u8], u32),
    /// A definition of type INTEGER.
    Definition(&'static [u8], u32),
    /// A row of EXTERNALREFS: a module, and the names that are taken from it.
    Take(&'static [u8], &'static [&'static [u8]], u16),
    /// A V-function of type INTEGER.
    Value(&'static [u8], u32),
    /// A V-function and its type, which is a name seven bytes behind it.
    TypedValue(&'static [u8], &'static [u8], u16),
    /// An O-function without formals.
    Operation(&'static [u8], u32),
    /// An O-function, and the type of its formal `x`, which stand behind it.
    OperationOn(&'static [u8], &'static [u8], u16),
    /// An O-function with so many INTEGER formals, the first at 100.
    OperationOf(&'static [u8], u16, u32),
}

/// A module that is being written.
#[derive(Drop)]
struct Draft {
    types: Vec<TypeDecl>,
    parameters: Vec<Header>,
    definitions: Vec<(Header, ExprTree)>,
    externals: Vec<(Ident, Sequence<Ident>)>,
    functions: Vec<FunDecl>,
}

fn new_draft(alloc: Global) -> Draft {
    Draft {
        types: Vec::new(alloc),
        parameters: Vec::new(alloc),
        definitions: Vec::new(alloc),
        externals: Vec::new(alloc),
        functions: Vec::new(alloc),
    }
}

// The items are put into a borrowed draft, so that no step that fails has to let go of it.
fn add(alloc: Global, draft: &mut Draft, item: Item) -> Result<(), Memory> {
    match item {
        Item::Type(name, start) => add_type(alloc, draft, name, start),
        Item::Enumeration(name, members, start) => {
            add_enumeration(alloc, draft, name, members, start)
        }
        Item::Parameter(name, start) => add_parameter(alloc, draft, name, start),
        Item::Definition(name, start) => add_definition(alloc, draft, name, start),
        Item::Take(from, names, start) => add_take(alloc, draft, from, names, start),
        Item::Value(name, start) => add_value(alloc, draft, name, start),
        Item::TypedValue(name, ty, start) => add_typed(alloc, draft, name, ty, start),
        Item::Operation(name, start) => {
            let formals = Vec::new(alloc);
            add_operation(alloc, draft, name, formals, start)
        }
        Item::OperationOn(name, ty, start) => add_operation_on(alloc, draft, name, ty, start),
        Item::OperationOf(name, count, start) => {
            add_operation_of(alloc, draft, name, count, start)
        }
    }
}

fn add_type(alloc: Global, draft: &mut Draft, name: &[u8], start: u32) -> Result<(), Memory> {
    draft.types.push(designator(ident(alloc, name, start)?))?;
    Ok(())
}

fn add_enumeration(
    alloc: Global,
    draft: &mut Draft,
    name: &[u8],
    members: &[&[u8]],
    start: u16,
) -> Result<(), Memory> {
    let members = idents(alloc, members, start.saturating_add(1))?;
    let name = ident(alloc, name, start as u32)?;
    draft.types.push(enumeration(name, members))?;
    Ok(())
}

fn add_parameter(alloc: Global, draft: &mut Draft, name: &[u8], start: u32) -> Result<(), Memory> {
    draft.parameters.push(constant(alloc, name, start)?)?;
    Ok(())
}

fn add_definition(alloc: Global, draft: &mut Draft, name: &[u8], start: u32) -> Result<(), Memory> {
    let head = constant(alloc, name, start)?;
    draft.definitions.push((head, number(7)))?;
    Ok(())
}

fn add_take(
    alloc: Global,
    draft: &mut Draft,
    from: &[u8],
    names: &[&[u8]],
    start: u16,
) -> Result<(), Memory> {
    let names = idents(alloc, names, start.saturating_add(1))?;
    let from = ident(alloc, from, start as u32)?;
    draft.externals.push((from, Sequence::new(names)))?;
    Ok(())
}

fn add_value(alloc: Global, draft: &mut Draft, name: &[u8], start: u32) -> Result<(), Memory> {
    let head = constant(alloc, name, start)?;
    draft.functions.push(primitive(alloc, head))?;
    Ok(())
}

fn add_typed(
    alloc: Global,
    draft: &mut Draft,
    name: &[u8],
    ty: &[u8],
    start: u16,
) -> Result<(), Memory> {
    let name = ident(alloc, name, start as u32)?;
    let ty = ident(alloc, ty, start as u32 + 7)?;
    let head = header(name, Vec::new(alloc), Some(TypeTree::Named(ty)));
    draft.functions.push(primitive(alloc, head))?;
    Ok(())
}

fn add_operation(
    alloc: Global,
    draft: &mut Draft,
    name: &[u8],
    formals: Vec<FormalTree>,
    start: u32,
) -> Result<(), Memory> {
    let name = ident(alloc, name, start)?;
    let head = header(name, formals, None);
    draft.functions.push(effects(alloc, head))?;
    Ok(())
}

fn one_formal(alloc: Global, ty: &[u8], start: u16) -> Result<Vec<FormalTree>, Memory> {
    let ty = ident(alloc, ty, start as u32 + 1)?;
    let x = ident(alloc, b"x", start as u32 + 2)?;
    let mut formals = Vec::new(alloc);
    formals.push(formal(ty, x))?;
    Ok(formals)
}

fn add_operation_on(
    alloc: Global,
    draft: &mut Draft,
    name: &[u8],
    ty: &[u8],
    start: u16,
) -> Result<(), Memory> {
    let formals = one_formal(alloc, ty, start)?;
    add_operation(alloc, draft, name, formals, start as u32)
}

fn add_operation_of(
    alloc: Global,
    draft: &mut Draft,
    name: &[u8],
    count: u16,
    start: u32,
) -> Result<(), Memory> {
    let formals = integers(alloc, numbered(alloc, count, b'x', 100)?)?;
    add_operation(alloc, draft, name, formals, start)
}

fn add_all(alloc: Global, draft: &mut Draft, items: &[Item]) -> Result<(), Memory> {
    for item in items {
        add(alloc, draft, *item)?;
    }
    Ok(())
}

fn named(alloc: Global, name: Ident, draft: Draft) -> Module {
    let Draft {
        types,
        parameters,
        definitions,
        externals,
        functions,
    } = draft;
    Module {
        name,
        types: Sequence::new(types),
        parameters: Sequence::new(parameters),
        definitions: Sequence::new(definitions),
        externals: Sequence::new(externals),
        assertions: list(alloc),
        functions: Sequence::new(functions),
    }
}

/// The module with this name, at 7, and these items.
fn module(alloc: Global, name: &[u8], items: &[Item]) -> Result<Module, Memory> {
    let name = ident(alloc, name, 7)?;
    let mut draft = new_draft(alloc);
    add_all(alloc, &mut draft, items)?;
    Ok(named(alloc, name, draft))
}

/// The modules with these names and items.
pub fn modules(alloc: Global, texts: &[(&[u8], &[Item])]) -> Result<Vec<Module>, Memory> {
    let mut modules = Vec::new(alloc);
    for (name, items) in texts {
        modules.push(module(alloc, name, items)?)?;
    }
    Ok(modules)
}

fn enumeration(name: Ident, members: Vec<Ident>) -> TypeDecl {
    let members = Some(Sequence::new(members));
    TypeDecl { name, members }
}

fn designator(name: Ident) -> TypeDecl {
    TypeDecl {
        name,
        members: None,
    }
}

fn integer() -> TypeTree {
    TypeTree::Integer(at(1))
}

/// A formal of a declared type.
fn formal(ty: Ident, name: Ident) -> FormalTree {
    FormalTree {
        ty: TypeTree::Named(ty),
        name,
    }
}

/// INTEGER formals with these names.
fn integers(alloc: Global, names: Vec<Ident>) -> Result<Vec<FormalTree>, Memory> {
    let mut all = Vec::new(alloc);
    for name in names {
        all.push(FormalTree {
            ty: integer(),
            name,
        })?;
    }
    Ok(all)
}

fn header(name: Ident, formals: Vec<FormalTree>, ty: Option<TypeTree>) -> Header {
    Header {
        name,
        formals: Sequence::new(formals),
        ty,
        result: None,
    }
}

/// A header without formals, of type INTEGER.
fn constant(alloc: Global, name: &[u8], start: u32) -> Result<Header, Memory> {
    Ok(header(ident(alloc, name, start)?, Vec::new(alloc), Some(integer())))
}

fn part(node: ExprNode) -> ExprTree {
    ExprTree { span: at(2), node }
}

fn number(n: i64) -> ExprTree {
    part(ExprNode::Number(n))
}

fn primitive(alloc: Global, head: Header) -> FunDecl {
    FunDecl {
        head,
        hidden: false,
        exceptions: list(alloc),
        body: Body::Initially(number(0)),
    }
}

fn effects(alloc: Global, head: Header) -> FunDecl {
    FunDecl {
        head,
        hidden: false,
        exceptions: list(alloc),
        body: Body::Effects(list(alloc)),
    }
}

/// What the names break: the first rule or limit.
pub fn judged(alloc: Global, interface: InterfaceTree, modules: Vec<Module>) -> Option<SpecFault> {
    Scopes::declare(alloc, &interface, &modules).err()
}

pub fn rule(file: u16, start: u32, rule: Rule) -> Option<SpecFault> {
    let span = at(start);
    let fault = TextFault::Malformed(Malformed { span, rule });
    Some(SpecFault { file, fault })
}

pub fn limit(file: u16, start: u32, quantity: Quantity) -> Option<SpecFault> {
    let span = at(start);
    let fault = TextFault::Limit(Limit { span, quantity });
    Some(SpecFault { file, fault })
}
