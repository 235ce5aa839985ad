//! Lattices: levels with their order, or the product of a chain and categories.

ghost use Rattle.std.specs.Prelude.{◌≡◌, ◌++◌, [], Ok};
ghost use Rattle.sp_grammar.specs.Lang.{has};
ghost use Rattle.sp_forms.specs.Cursors.{and_then, lookahead, Reads};
ghost use Rattle.sp_forms.specs.Grammars.{first};
ghost use Rattle.sp_forms.specs.Readers.{read_line, read_name};
ghost use Rattle.sp_interface.specs.Lattices.{above_line, all_above_line, categories_line, chain_line, declared_order_line, lattice_line, order_line, orders_line, product_line};

use sp_cursor::lines::names;
use sp_cursor::marks::{CATEGORIES, CHAIN, LATTICE, LESS, ORDER, SEMICOLON};
use sp_cursor::{Tokens, many, separated};
use sp_text::{Sequence, TextFault};
use sp_tree::{Ident, LatticeTree};
use std::alloc::Global;

/// A name behind `<`.
#[tactic(auto, unfolding(crate::specs::Lattices::above_line))]
fn above(alloc: Global, tokens: &mut Tokens<'_>) -> Result<Ident, TextFault>
    ensures { Reads (read_line above_line tokens.old) result tokens.new }
{
    tokens.expect(LESS)?;
    tokens.name(alloc)
}

#[tactic(auto, unfolding(crate::specs::Lattices::above_line))]
fn begins_above(tokens: &Tokens<'_>) -> bool
    ensures { result ≡ has (first [] above_line) (lookahead tokens.now) }
{
    tokens.is(LESS)
}

/// These levels, and those that stand above them.
fn all_above(
    alloc: Global,
    tokens: &mut Tokens<'_>,
    below: Vec<Ident>,
) -> Result<Sequence<Ident>, TextFault>
    ensures { Reads (and_then (read_line all_above_line tokens.old) (λ found next. Ok (below.items ++ found, next))) result tokens.new }
{
    let mut levels = below;
    for _turn in 0..tokens.left() {
        if !begins_above(tokens) {
            break;
        }
        levels.push(above(alloc, tokens)?)?;
    }
    Ok(Sequence::new(levels))
}

/// Levels, each below the next one.
#[tactic(auto, unfolding(crate::specs::Lattices::order_line))]
fn order(alloc: Global, tokens: &mut Tokens<'_>) -> Result<Sequence<Ident>, TextFault>
    ensures { Reads (read_line order_line tokens.old) result tokens.new }
{
    tokens.expect(ORDER)?;
    let mut lowest = Vec::new(alloc);
    lowest.push(tokens.name(alloc)?)?;
    lowest.push(above(alloc, tokens)?)?;
    let levels = all_above(alloc, tokens, lowest)?;
    tokens.expect(SEMICOLON)?;
    Ok(levels)
}

#[tactic(auto, unfolding(crate::specs::Lattices::order_line))]
fn begins_order(tokens: &Tokens<'_>) -> bool
    ensures { result ≡ has (first [] order_line) (lookahead tokens.now) }
{
    tokens.is(ORDER)
}

fn orders(alloc: Global, tokens: &mut Tokens<'_>) -> Result<Sequence<Sequence<Ident>>, TextFault>
    ensures { Reads (read_line orders_line tokens.old) result tokens.new }
{
    many(alloc, tokens, begins_order, order)
}

/// Levels and their order.
#[tactic(auto, unfolding(crate::specs::Lattices::declared_order_line))]
fn declared_order(alloc: Global, tokens: &mut Tokens<'_>) -> Result<LatticeTree, TextFault>
    ensures { Reads (read_line declared_order_line tokens.old) result tokens.new }
{
    let start = tokens.place();
    tokens.expect(LATTICE)?;
    let levels = names(alloc, tokens)?;
    tokens.expect(SEMICOLON)?;
    let orders = orders(alloc, tokens)?;
    Ok(LatticeTree::Order(tokens.span_at(start), levels, orders))
}

fn name(alloc: Global, tokens: &mut Tokens<'_>) -> Result<Ident, TextFault>
    ensures { Reads (read_name tokens.old) result tokens.new }
{
    tokens.name(alloc)
}

/// Names, each below the next one.
fn chain(alloc: Global, tokens: &mut Tokens<'_>) -> Result<Sequence<Ident>, TextFault>
    ensures { Reads (read_line chain_line tokens.old) result tokens.new }
{
    separated(alloc, tokens, LESS, name)
}

/// Categories with their keyword, or none.
#[tactic(auto, unfolding(crate::specs::Lattices::categories_line))]
fn categories(alloc: Global, tokens: &mut Tokens<'_>) -> Result<Sequence<Ident>, TextFault>
    ensures { Reads (read_line categories_line tokens.old) result tokens.new }
{
    if !tokens.eat(CATEGORIES) {
        return Ok(Sequence::new(Vec::new(alloc)));
    }
    let categories = names(alloc, tokens)?;
    tokens.expect(SEMICOLON)?;
    Ok(categories)
}

/// A chain and categories.
#[tactic(auto, unfolding(crate::specs::Lattices::product_line))]
fn product(alloc: Global, tokens: &mut Tokens<'_>) -> Result<LatticeTree, TextFault>
    ensures { Reads (read_line product_line tokens.old) result tokens.new }
{
    let start = tokens.place();
    tokens.expect(CHAIN)?;
    let chain = chain(alloc, tokens)?;
    tokens.expect(SEMICOLON)?;
    let categories = categories(alloc, tokens)?;
    Ok(LatticeTree::Product(tokens.span_at(start), chain, categories))
}

/// A lattice.
#[tactic(auto, unfolding(crate::specs::Lattices::lattice_line, crate::specs::Lattices::declared_order_line))]
pub fn lattice(alloc: Global, tokens: &mut Tokens<'_>) -> Result<LatticeTree, TextFault>
    ensures { Reads (read_line lattice_line tokens.old) result tokens.new }
{
    if tokens.is(LATTICE) {
        return declared_order(alloc, tokens);
    }
    product(alloc, tokens)
}
