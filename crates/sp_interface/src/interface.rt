//! Interfaces.

ghost use Rattle.std.specs.Prelude.{◌≡◌, []};
ghost use Rattle.sp_grammar.specs.Lang.{has};
ghost use Rattle.sp_forms.specs.Cursors.{lookahead, Reads};
ghost use Rattle.sp_forms.specs.Grammars.{first};
ghost use Rattle.sp_forms.specs.Readers.{counted, read_line, read_text};
ghost use Rattle.sp_interface.specs.Counts.{over_modules};
ghost use Rattle.sp_interface.specs.Interfaces.{interface_grammar, level_line, levels_line, modules_line, sample_line};

use crate::counts::module_over;
use crate::equation::equation;
use crate::lattice::lattice;
use sp_cursor::lines::names;
use sp_cursor::marks::{END_INTERFACE, INTERFACE, LEVEL, MODULES, SAMPLE, SEMICOLON};
use sp_cursor::{Tokens, many};
use sp_text::{Sequence, TextFault};
use sp_tree::{Equation, Ident, InterfaceTree};
use std::alloc::Global;

#[tactic(auto, unfolding(crate::specs::Interfaces::modules_line))]
fn modules(alloc: Global, tokens: &mut Tokens<'_>) -> Result<Sequence<Ident>, TextFault>
    ensures { Reads (read_line modules_line tokens.old) result tokens.new }
{
    tokens.expect(MODULES)?;
    let modules = names(alloc, tokens)?;
    tokens.expect(SEMICOLON)?;
    Ok(modules)
}

/// The level of a function.
#[tactic(auto, unfolding(crate::specs::Interfaces::level_line))]
fn level(alloc: Global, tokens: &mut Tokens<'_>) -> Result<Equation, TextFault>
    ensures { Reads (read_line level_line tokens.old) result tokens.new }
{
    tokens.expect(LEVEL)?;
    equation(alloc, tokens)
}

#[tactic(auto, unfolding(crate::specs::Interfaces::level_line))]
fn begins_level(tokens: &Tokens<'_>) -> bool
    ensures { result ≡ has (first [] level_line) (lookahead tokens.now) }
{
    tokens.is(LEVEL)
}

fn levels(alloc: Global, tokens: &mut Tokens<'_>) -> Result<Sequence<Equation>, TextFault>
    ensures { Reads (read_line levels_line tokens.old) result tokens.new }
{
    many(alloc, tokens, begins_level, level)
}

/// The name of the sample instance.
#[tactic(auto, unfolding(crate::specs::Interfaces::sample_line))]
fn sample(alloc: Global, tokens: &mut Tokens<'_>) -> Result<Ident, TextFault>
    ensures { Reads (read_line sample_line tokens.old) result tokens.new }
{
    tokens.expect(SAMPLE)?;
    let sample = tokens.name(alloc)?;
    tokens.expect(SEMICOLON)?;
    Ok(sample)
}

/// The interface that all the tokens are.
#[tactic(auto, unfolding(crate::specs::Interfaces::interface_grammar))]
fn interface(alloc: Global, tokens: &mut Tokens<'_>) -> Result<InterfaceTree, TextFault>
    ensures { Reads (read_text interface_grammar tokens.old) result tokens.new }
{
    tokens.expect(INTERFACE)?;
    let name = tokens.name(alloc)?;
    let modules = modules(alloc, tokens)?;
    let lattice = lattice(alloc, tokens)?;
    let levels = levels(alloc, tokens)?;
    let sample = sample(alloc, tokens)?;
    tokens.expect(END_INTERFACE)?;
    tokens.finish()?;
    Ok(InterfaceTree {
        name,
        modules,
        lattice,
        levels,
        sample,
    })
}

/// The interface that all the tokens are, unless it has too many modules.
pub fn counted_interface(alloc: Global, tokens: &mut Tokens<'_>) -> Result<InterfaceTree, TextFault>
    ensures { Reads (counted over_modules (read_text interface_grammar) tokens.old) result tokens.new }
{
    let tree = interface(alloc, tokens)?;
    match module_over(&tree) {
        Some(limit) => Err(TextFault::Limit(limit)),
        None => Ok(tree),
    }
}
