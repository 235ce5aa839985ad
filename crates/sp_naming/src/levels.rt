//! The levels that a lattice declares.

ghost use Rattle.std.specs.Prelude.{◌≡◌, [], ◌∷◌, ◌++◌, ◌+◌, ◌*◌, ◌^◌, ◌≤◌, IfOk, OnOk, MatchOption, length, nat_le, true, false};
ghost use Rattle.sp_naming.specs.Levels as spec_levels;
ghost use Rattle.sp_naming.specs.Levels.{element_levels, level_declarations, listed_levels, product_levels};

use crate::declaration::{Declaration, Entity};
use crate::listing::after;
use sp_text::{MOST_LEVELS, Memory, Name};
use sp_tree::{Ident, LatticeTree};
use std::alloc::Global;

fn push_level(
    alloc: Global,
    all: &mut Vec<Declaration>,
    at: &Ident,
    name: &[u8],
    number: u16,
) -> Result<(), Memory>
    ensures { OnOk result (all.new.items ≡ all.old.items ++ spec_levels.level at.now name.now number ∷ []) }
{
    all.push(Declaration {
        file: 0,
        name: Name::new(alloc, name)?,
        span: at.span,
        entity: Entity::Level(number),
        owner: None,
    })?;
    Ok(())
}

fn push_listed(alloc: Global, all: &mut Vec<Declaration>, names: &[Ident]) -> Result<(), Memory>
    ensures { OnOk result (all.new.items ≡ all.old.items ++ listed_levels names.now) }
{
    let mut number = 0;
    for name in names {
        push_level(alloc, all, name, name.name.bytes(), number)?;
        number = after(number);
    }
    Ok(())
}

// The name of the level with this set of categories.
fn product_name(
    alloc: Global,
    element: &Name,
    categories: &[Ident],
    set: u32,
) -> Result<Vec<u8>, Memory>
    ensures { IfOk result (λ name. name.items ≡ spec_levels.product_name element.now categories.now set) }
{
    let mut name = element.bytes().to_vec(alloc)?;
    let mut left = set;
    for category in categories {
        if left % 2 == 1 {
            name.push(b'_')?;
            name.extend_from_slice(category.name.bytes())?;
        }
        left /= 2;
    }
    Ok(name)
}

// The levels of a chain element, one for each of so many sets.
fn push_element(
    alloc: Global,
    all: &mut Vec<Declaration>,
    categories: &[Ident],
    element: &Ident,
    first: u32,
    sets: u32,
) -> Result<(), Memory>
    requires { first + sets ≤ 256 }
    ensures { OnOk result (all.new.items ≡ all.old.items ++ element_levels categories.now element.now first 0 sets) }
{
    for set in 0..sets {
        let name = product_name(alloc, &element.name, categories, set)?;
        push_level(alloc, all, element, &name, (first + set) as u16)?;
    }
    Ok(())
}

fn push_product(
    alloc: Global,
    all: &mut Vec<Declaration>,
    chain: &[Ident],
    categories: &[Ident],
    sets: u32,
) -> Result<(), Memory>
    requires few { length chain.now * sets ≤ 256 }
    requires sets { sets ≡ 2 ^ length categories.now }
    ensures { OnOk result (all.new.items ≡ all.old.items ++ product_levels categories.now 0 chain.now) }
{
    let mut first = 0;
    for element in chain {
        push_element(alloc, all, categories, element, first, sets)?;
        first += sets;
    }
    Ok(())
}

// How many sets of categories there are, where the product has at most 256 levels. A chain has at least one element.
fn sets_of(chain: usize, categories: usize) -> Option<u32>
    requires { 1 ≤ chain }
    ensures { MatchOption result (nat_le (chain * 2 ^ categories) MOST_LEVELS ≡ false)
        (λ sets. (sets ≡ 2 ^ categories) × (nat_le (chain * 2 ^ categories) MOST_LEVELS ≡ true)) }
{
    if categories > 8 {
        return None;
    }
    if chain > 256 {
        return None;
    }
    let sets = 2u32.pow(categories as u32);
    if chain as u32 * sets > MOST_LEVELS {
        return None;
    }
    Some(sets)
}

/// Appends the levels that the lattice declares.
pub fn push_levels(
    alloc: Global,
    all: &mut Vec<Declaration>,
    lattice: &LatticeTree,
) -> Result<(), Memory>
    ensures { OnOk result (all.new.items ≡ all.old.items ++ level_declarations lattice.now) }
{
    match lattice {
        LatticeTree::Order(_, names, _) => push_listed(alloc, all, names.items()),
        LatticeTree::Product(_, chain, categories) => {
            push_product_or_chain(alloc, all, chain.items(), categories.items())
        }
    }
}

fn push_product_or_chain(
    alloc: Global,
    all: &mut Vec<Declaration>,
    chain: &[Ident],
    categories: &[Ident],
) -> Result<(), Memory>
    ensures { OnOk result (all.new.items ≡ all.old.items ++ spec_levels.product_or_chain chain.now categories.now) }
{
    if chain.is_empty() {
        return Ok(());
    }
    match sets_of(chain.len(), categories.len()) {
        None => push_listed(alloc, all, chain),
        Some(sets) => push_product(alloc, all, chain, categories, sets),
    }
}
