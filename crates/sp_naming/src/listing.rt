//! The list of the declarations of an interface and its modules.

ghost use Rattle.std.specs.Prelude.{◌≡◌, [], ◌∷◌, ◌++◌, IfOk, OnOk};
ghost use Rattle.sp_naming.specs.Declarations as listed;
ghost use Rattle.sp_naming.specs.Declarations.{module_declarations, modules_declarations, no_counts};
ghost use Rattle.sp_naming.specs.Numbers as numbers;
ghost use Rattle.sp_naming.specs.Numbers.{numbered};

use crate::declaration::{Declaration, Entity};
use sp_text::{Memory, Name};
use sp_tree::{ExprTree, FunDecl, Header, Ident, Module, TypeDecl};
use std::alloc::Global;

/// How many of each sort are declared, or the number of the next one.
#[derive(Clone, Copy)]
pub struct Counts {
    pub types: u16,
    pub parameters: u16,
    pub definitions: u16,
    pub functions: u16,
}

/// The number after this one, or the same where there is none.
pub fn after(number: u16) -> u16
    ensures { result ≡ numbers.after number }
{
    number.saturating_add(1)
}

/// The number that comes `more` numbers after this one.
pub fn counted(number: u16, more: usize) -> u16
    ensures { result ≡ numbers.counted number more }
{
    number.saturating_add(more.min(65535) as u16)
}

/// A name that is no member's.
pub fn declaration(
    alloc: Global,
    file: u16,
    name: &Ident,
    entity: Entity,
) -> Result<Declaration, Memory>
    ensures { IfOk result (λ made. made ≡ listed.declaration file name.now entity) }
{
    Ok(Declaration {
        file,
        name: Name::new(alloc, name.name.bytes())?,
        span: name.span,
        entity,
        owner: None,
    })
}

fn push_declaration(
    alloc: Global,
    all: &mut Vec<Declaration>,
    file: u16,
    name: &Ident,
    entity: Entity,
) -> Result<(), Memory>
    ensures { OnOk result (all.new.items ≡ all.old.items ++ listed.declaration file name.now entity ∷ []) }
{
    all.push(declaration(alloc, file, name, entity)?)?;
    Ok(())
}

fn push_member(
    alloc: Global,
    all: &mut Vec<Declaration>,
    file: u16,
    entity: Entity,
    owner: &Name,
    name: &Ident,
) -> Result<(), Memory>
    ensures { OnOk result (all.new.items ≡ all.old.items ++ listed.owned file entity owner.now name.now ∷ []) }
{
    let owner = Name::new(alloc, owner.bytes())?;
    let made = declaration(alloc, file, name, entity)?;
    all.push(Declaration {
        file: made.file,
        name: made.name,
        span: made.span,
        entity: made.entity,
        owner: Some(owner),
    })?;
    Ok(())
}

fn push_members(
    alloc: Global,
    all: &mut Vec<Declaration>,
    file: u16,
    ty: u16,
    owner: &Name,
    names: &[Ident],
) -> Result<(), Memory>
    ensures { OnOk result (all.new.items ≡ all.old.items ++ numbered (listed.member file ty owner.now) 0 names.now) }
{
    let mut number = 0;
    for name in names {
        push_member(alloc, all, file, Entity::Member(ty, number), owner, name)?;
        number = after(number);
    }
    Ok(())
}

fn push_type(
    alloc: Global,
    all: &mut Vec<Declaration>,
    file: u16,
    number: u16,
    ty: &TypeDecl,
) -> Result<(), Memory>
    ensures { OnOk result (all.new.items ≡ all.old.items ++ listed.type_declaration file number ty.now) }
{
    push_declaration(alloc, all, file, &ty.name, Entity::Declared(number))?;
    match &ty.members {
        None => Ok(()),
        Some(names) => push_members(alloc, all, file, number, &ty.name.name, names.items()),
    }
}

fn push_types(
    alloc: Global,
    all: &mut Vec<Declaration>,
    file: u16,
    first: u16,
    types: &[TypeDecl],
) -> Result<(), Memory>
    ensures { OnOk result (all.new.items ≡ all.old.items ++ numbered (listed.type_declaration file) first types.now) }
{
    let mut number = first;
    for ty in types {
        push_type(alloc, all, file, number, ty)?;
        number = after(number);
    }
    Ok(())
}

fn push_parameters(
    alloc: Global,
    all: &mut Vec<Declaration>,
    file: u16,
    first: u16,
    parameters: &[Header],
) -> Result<(), Memory>
    ensures { OnOk result (all.new.items ≡ all.old.items ++ numbered (listed.param_declaration file) first parameters.now) }
{
    let mut number = first;
    for head in parameters {
        push_declaration(alloc, all, file, &head.name, Entity::Param(number))?;
        number = after(number);
    }
    Ok(())
}

fn push_definitions(
    alloc: Global,
    all: &mut Vec<Declaration>,
    file: u16,
    first: u16,
    definitions: &[(Header, ExprTree)],
) -> Result<(), Memory>
    ensures { OnOk result (all.new.items ≡ all.old.items ++ numbered (listed.definition_declaration file) first definitions.now) }
{
    let mut number = first;
    for definition in definitions {
        push_declaration(
            alloc,
            all,
            file,
            &definition.0.name,
            Entity::Definition(number),
        )?;
        number = after(number);
    }
    Ok(())
}

fn push_functions(
    alloc: Global,
    all: &mut Vec<Declaration>,
    file: u16,
    first: u16,
    functions: &[FunDecl],
) -> Result<(), Memory>
    ensures { OnOk result (all.new.items ≡ all.old.items ++ numbered (listed.function_declaration file) first functions.now) }
{
    let mut number = first;
    for function in functions {
        push_declaration(
            alloc,
            all,
            file,
            &function.head.name,
            Entity::Function(number),
        )?;
        number = after(number);
    }
    Ok(())
}

fn push_module(
    alloc: Global,
    all: &mut Vec<Declaration>,
    file: u16,
    counts: Counts,
    text: &Module,
) -> Result<(), Memory>
    ensures { OnOk result (all.new.items ≡ all.old.items ++ module_declarations file counts text.now) }
{
    push_types(alloc, all, file, counts.types, text.types.items())?;
    push_parameters(alloc, all, file, counts.parameters, text.parameters.items())?;
    push_definitions(
        alloc,
        all,
        file,
        counts.definitions,
        text.definitions.items(),
    )?;
    push_functions(alloc, all, file, counts.functions, text.functions.items())?;
    Ok(())
}

fn counts_after(counts: Counts, text: &Module) -> Counts
    ensures { result ≡ listed.counts_after counts text.now }
{
    Counts {
        types: counted(counts.types, text.types.items().len()),
        parameters: counted(counts.parameters, text.parameters.items().len()),
        definitions: counted(counts.definitions, text.definitions.items().len()),
        functions: counted(counts.functions, text.functions.items().len()),
    }
}

/// Appends what the modules declare.
pub fn push_modules(
    alloc: Global,
    all: &mut Vec<Declaration>,
    modules: &[Module],
) -> Result<(), Memory>
    ensures { OnOk result (all.new.items ≡ all.old.items ++ modules_declarations 1 no_counts modules.now) }
{
    let mut file = 1;
    let mut counts = Counts {
        types: 0,
        parameters: 0,
        definitions: 0,
        functions: 0,
    };
    for text in modules {
        push_module(alloc, all, file, counts, text)?;
        counts = counts_after(counts, text);
        file = after(file);
    }
    Ok(())
}
