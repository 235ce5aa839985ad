//! Mappings.

ghost use Rattle.std.specs.Prelude.{◌≡◌, []};
ghost use Rattle.sp_grammar.specs.Lang.{has};
ghost use Rattle.sp_forms.specs.Cursors.{lookahead, Reads};
ghost use Rattle.sp_forms.specs.Grammars.{first};
ghost use Rattle.sp_forms.specs.Readers.{read_line, read_text};
ghost use Rattle.sp_interface.specs.Mappings.{functions_line, mapping_grammar, parameters_line, type_pair_line, types_line};

use crate::equation::{begins_equation, equation};
use sp_cursor::marks::{
    END_MAPPING, FROM, FUNCTIONS, IS, MAPPING, PARAMETERS, SEMICOLON, TO, TYPES,
};
use sp_cursor::{Tokens, section};
use sp_text::{Sequence, TextFault};
use sp_tree::{Equation, Ident, MappingTree};
use std::alloc::Global;

/// An upper type and the lower one that stands for it.
#[tactic(auto, unfolding(crate::specs::Mappings::type_pair_line))]
fn type_pair(alloc: Global, tokens: &mut Tokens<'_>) -> Result<(Ident, Ident), TextFault>
    ensures { Reads (read_line type_pair_line tokens.old) result tokens.new }
{
    let upper = tokens.name(alloc)?;
    tokens.expect(IS)?;
    let lower = tokens.name(alloc)?;
    tokens.expect(SEMICOLON)?;
    Ok((upper, lower))
}

#[tactic(auto, unfolding(crate::specs::Mappings::type_pair_line))]
fn begins_type_pair(tokens: &Tokens<'_>) -> bool
    ensures { result ≡ has (first [] type_pair_line) (lookahead tokens.now) }
{
    tokens.is_name()
}

fn types(alloc: Global, tokens: &mut Tokens<'_>) -> Result<Sequence<(Ident, Ident)>, TextFault>
    ensures { Reads (read_line types_line tokens.old) result tokens.new }
{
    section(alloc, tokens, TYPES, begins_type_pair, type_pair)
}

fn parameters(alloc: Global, tokens: &mut Tokens<'_>) -> Result<Sequence<Equation>, TextFault>
    ensures { Reads (read_line parameters_line tokens.old) result tokens.new }
{
    section(alloc, tokens, PARAMETERS, begins_equation, equation)
}

fn functions(alloc: Global, tokens: &mut Tokens<'_>) -> Result<Sequence<Equation>, TextFault>
    ensures { Reads (read_line functions_line tokens.old) result tokens.new }
{
    section(alloc, tokens, FUNCTIONS, begins_equation, equation)
}

/// The mapping that all the tokens are.
#[tactic(auto, unfolding(crate::specs::Mappings::mapping_grammar))]
pub fn mapping(alloc: Global, tokens: &mut Tokens<'_>) -> Result<MappingTree, TextFault>
    ensures { Reads (read_text mapping_grammar tokens.old) result tokens.new }
{
    tokens.expect(MAPPING)?;
    let name = tokens.name(alloc)?;
    tokens.expect(FROM)?;
    let upper = tokens.name(alloc)?;
    tokens.expect(TO)?;
    let lower = tokens.name(alloc)?;
    let types = types(alloc, tokens)?;
    let parameters = parameters(alloc, tokens)?;
    let functions = functions(alloc, tokens)?;
    tokens.expect(END_MAPPING)?;
    tokens.finish()?;
    Ok(MappingTree {
        name,
        upper,
        lower,
        types,
        parameters,
        functions,
    })
}
