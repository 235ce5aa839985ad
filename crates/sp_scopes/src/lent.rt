//! What is lent of the names of an interface: types, definitions, levels and their order.

ghost use Rattle.std.specs.Prelude.{◌≡◌, ◌++◌, IfOk, OnOk, map, option_copied};
ghost use Rattle.std.specs.List.{flat_map};
ghost use Rattle.sp_scopes.specs.Headers.{see_of};
ghost use Rattle.sp_scopes.specs.Lent as spec_lent;

use crate::heads::{Head, plain_head};
use sp_naming::{Declaration, Declared, Entity, Names, counted};
use sp_text::{Memory, Name, Sequence};
use sp_tree::{ExprTree, Header, Ident, LatticeTree, Module, TypeDecl};
use std::alloc::Global;

/// A type that is declared: an enumeration with its members, or, without members, a designator type.
#[derive(Debug, Drop)]
pub struct DeclaredType {
    pub name: Name,
    pub members: Option<Sequence<Name>>,
}

/// A definition: its head and the text that it stands for.
#[derive(Debug, Drop)]
pub struct Definition {
    /// The module that has it, counted from 0, by which the names in its text are found.
    pub module_number: u16,
    pub head: Head,
    pub text: ExprTree,
}

/// The order of levels, as it is declared.
#[derive(Debug, Drop)]
pub enum LevelOrder {
    /// Pairs of levels by their numbers, the lower one first.
    Pairs(Sequence<(u16, u16)>),
    /// The product of so many chain elements and so many categories.
    Product(u16, u16),
}

fn names_in(alloc: Global, idents: &[Ident]) -> Result<Sequence<Name>, Memory>
    ensures { IfOk result (λ names. names ≡ spec_lent.names_in idents.now) }
{
    let mut names = Vec::new(alloc);
    for x in idents {
        names.push(Name::new(alloc, x.name.bytes())?)?;
    }
    Ok(Sequence::new(names))
}

fn member_names(
    alloc: Global,
    members: &Option<Sequence<Ident>>,
) -> Result<Option<Sequence<Name>>, Memory>
    ensures { IfOk result (λ names. names ≡ spec_lent.member_names members.now) }
{
    Ok(match members {
        None => None,
        Some(idents) => Some(names_in(alloc, idents.items())?),
    })
}

fn declared_type(alloc: Global, ty: &TypeDecl) -> Result<DeclaredType, Memory>
    ensures { IfOk result (λ made. made ≡ spec_lent.declared_type ty.now) }
{
    Ok(DeclaredType {
        name: Name::new(alloc, ty.name.name.bytes())?,
        members: member_names(alloc, &ty.members)?,
    })
}

fn module_types(alloc: Global, types: &[TypeDecl]) -> Result<Vec<DeclaredType>, Memory>
    ensures { IfOk result (λ all. all.items ≡ map spec_lent.declared_type types.now) }
{
    let mut all = Vec::new(alloc);
    for ty in types {
        all.push(declared_type(alloc, ty)?)?;
    }
    Ok(all)
}

/// All types that the modules declare.
///
/// # Errors
/// `Memory` where they can't be stored.
pub fn all_types(alloc: Global, modules: &[Module]) -> Result<Vec<DeclaredType>, Memory>
    ensures { IfOk result (λ all. all.items ≡ spec_lent.all_types modules.now) }
{
    let mut all = Vec::new(alloc);
    for text in modules {
        let mut types = module_types(alloc, text.types.items())?;
        all.append(&mut types)?;
    }
    Ok(all)
}

fn definition_of(
    alloc: Global,
    declared: &Declared,
    k: u16,
    names: &Names,
    pair: &(Header, ExprTree),
) -> Result<Definition, Memory>
    ensures { IfOk result (λ made. made ≡ spec_lent.definition_of k (see_of declared.now k names.now) pair.now) }
{
    Ok(Definition {
        module_number: k,
        head: plain_head(alloc, declared, k, names, &pair.0)?,
        text: pair.1.copy(alloc)?,
    })
}

/// The definitions of module `k`, which takes these names.
///
/// # Errors
/// `Memory` where they can't be stored.
pub fn module_definitions(
    alloc: Global,
    declared: &Declared,
    k: u16,
    names: &Names,
    definitions: &[(Header, ExprTree)],
) -> Result<Vec<Definition>, Memory>
    ensures { IfOk result (λ all. all.items ≡ map (spec_lent.definition_of k (see_of declared.now k names.now)) definitions.now) }
{
    let mut all = Vec::new(alloc);
    for pair in definitions {
        all.push(definition_of(alloc, declared, k, names, pair)?)?;
    }
    Ok(all)
}

fn push_level_name(
    alloc: Global,
    names: &mut Vec<Name>,
    name: &Name,
    entity: Entity,
) -> Result<(), Memory>
    ensures { OnOk result (names.new.items ≡ names.old.items ++ spec_lent.level_name name.now entity) }
{
    match entity {
        Entity::Level(_) => {
            names.push(Name::new(alloc, name.bytes())?)?;
            Ok(())
        }
        Entity::Declared(_) => Ok(()),
        Entity::Member(..) => Ok(()),
        Entity::Param(_) => Ok(()),
        Entity::Definition(_) => Ok(()),
        Entity::Function(_) => Ok(()),
    }
}

/// The names of the levels in their order.
///
/// # Errors
/// `Memory` where they can't be stored.
pub fn level_names(alloc: Global, all: &[Declaration]) -> Result<Vec<Name>, Memory>
    ensures { IfOk result (λ names. names.items ≡ spec_lent.level_names all.now) }
{
    let mut names = Vec::new(alloc);
    for d in all {
        push_level_name(alloc, &mut names, &d.name, d.entity)?;
    }
    Ok(names)
}

fn entity_level(entity: Entity) -> u16
    ensures { result ≡ spec_lent.entity_level entity }
{
    match entity {
        Entity::Level(k) => k,
        Entity::Declared(_) => 0,
        Entity::Member(..) => 0,
        Entity::Param(_) => 0,
        Entity::Definition(_) => 0,
        Entity::Function(_) => 0,
    }
}

fn level_of(found: Option<&Declaration>) -> u16
    ensures { result ≡ spec_lent.level_of (option_copied found.entry) }
{
    match found {
        None => 0,
        Some(d) => entity_level(d.entity),
    }
}

fn push_pair(pairs: &mut Vec<(u16, u16)>, last: Option<u16>, level: u16) -> Result<(), Memory>
    ensures { OnOk result (pairs.new.items ≡ pairs.old.items ++ spec_lent.below last level) }
{
    match last {
        None => Ok(()),
        Some(below) => {
            pairs.push((below, level))?;
            Ok(())
        }
    }
}

fn push_chain(
    pairs: &mut Vec<(u16, u16)>,
    declared: &Declared,
    chain: &[Ident],
) -> Result<(), Memory>
    ensures { OnOk result (pairs.new.items ≡ pairs.old.items ++ spec_lent.chain_pairs declared.now chain.now) }
{
    let mut last = None;
    for x in chain {
        let level = level_of(declared.named(x.name.bytes()));
        push_pair(pairs, last, level)?;
        last = Some(level);
    }
    Ok(())
}

fn all_pairs(
    alloc: Global,
    declared: &Declared,
    chains: &[Sequence<Ident>],
) -> Result<Vec<(u16, u16)>, Memory>
    ensures { IfOk result (λ pairs. pairs.items ≡ flat_map (spec_lent.chain_pairs declared.now) chains.now) }
{
    let mut pairs = Vec::new(alloc);
    for chain in chains {
        push_chain(&mut pairs, declared, chain.items())?;
    }
    Ok(pairs)
}

/// The order that a lattice declares.
///
/// # Errors
/// `Memory` where its pairs can't be stored.
pub fn level_order(
    alloc: Global,
    declared: &Declared,
    lattice: &LatticeTree,
) -> Result<LevelOrder, Memory>
    ensures { IfOk result (λ order. order ≡ spec_lent.level_order declared.now lattice.now) }
{
    match lattice {
        LatticeTree::Order(_, _, chains) => {
            let pairs = all_pairs(alloc, declared, chains.items())?;
            Ok(LevelOrder::Pairs(Sequence::new(pairs)))
        }
        LatticeTree::Product(_, chain, categories) => {
            let elements = counted(0, chain.items().len());
            Ok(LevelOrder::Product(elements, counted(0, categories.items().len())))
        }
    }
}
