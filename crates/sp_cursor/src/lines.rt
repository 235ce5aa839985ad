//! The lines that several texts share.

ghost use Rattle.std.specs.Prelude.{◌≡◌, []};
ghost use Rattle.sp_grammar.specs.Lang.{has};
ghost use Rattle.sp_forms.specs.Cursors.{lookahead, Reads};
ghost use Rattle.sp_forms.specs.Grammars.{first};
ghost use Rattle.sp_forms.specs.Readers.{read_line, read_name};
ghost use Rattle.sp_cursor.specs.Lines.{formal_line, names_line, type_line};

use crate::lists::separated;
use crate::marks::{BOOLEAN, COMMA, INTEGER, LEVEL};
use crate::tokens::Tokens;
use sp_text::{Sequence, TextFault};
use sp_tree::{FormalTree, Ident, TypeTree};
use std::alloc::Global;

/// Whether a type can begin with the next token.
#[tactic(auto, unfolding(crate::specs::Lines::type_line))]
pub fn begins_type(tokens: &Tokens<'_>) -> bool
    ensures { result ≡ has (first [] type_line) (lookahead tokens.now) }
{
    tokens.is(BOOLEAN) || tokens.is(INTEGER) || tokens.is(LEVEL) || tokens.is_name()
}

/// A type.
#[tactic(auto, unfolding(crate::specs::Lines::type_line))]
pub fn type_tree(alloc: Global, tokens: &mut Tokens<'_>) -> Result<TypeTree, TextFault>
    ensures { Reads (read_line type_line tokens.old) result tokens.new }
{
    let start = tokens.place();
    if tokens.eat(BOOLEAN) {
        return Ok(TypeTree::Boolean(tokens.since(start)));
    }
    if tokens.eat(INTEGER) {
        return Ok(TypeTree::Integer(tokens.since(start)));
    }
    if tokens.eat(LEVEL) {
        return Ok(TypeTree::Level(tokens.since(start)));
    }
    Ok(TypeTree::Named(tokens.name(alloc)?))
}

/// A type and a name.
#[tactic(auto, unfolding(crate::specs::Lines::formal_line))]
pub fn formal(alloc: Global, tokens: &mut Tokens<'_>) -> Result<FormalTree, TextFault>
    ensures { Reads (read_line formal_line tokens.old) result tokens.new }
{
    let ty = type_tree(alloc, tokens)?;
    let name = tokens.name(alloc)?;
    Ok(FormalTree { ty, name })
}

fn name(alloc: Global, tokens: &mut Tokens<'_>) -> Result<Ident, TextFault>
    ensures { Reads (read_name tokens.old) result tokens.new }
{
    tokens.name(alloc)
}

/// Names, with commas between them.
pub fn names(alloc: Global, tokens: &mut Tokens<'_>) -> Result<Sequence<Ident>, TextFault>
    ensures { Reads (read_line names_line tokens.old) result tokens.new }
{
    separated(alloc, tokens, COMMA, name)
}

/// Whether names begin with the next token.
#[tactic(auto, unfolding(crate::specs::Lines::names_line))]
pub fn begins_names(tokens: &Tokens<'_>) -> bool
    ensures { result ≡ has (first [] names_line) (lookahead tokens.now) }
{
    tokens.is_name()
}
