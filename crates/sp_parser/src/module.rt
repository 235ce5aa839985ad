//! Modules.

ghost use Rattle.sp_forms.specs.Cursors.{Reads};
ghost use Rattle.sp_forms.specs.Readers.{read_text_in};
ghost use Rattle.sp_parser.specs.Modules.{module_grammar, nested_effects};

use crate::functions::functions;
use crate::sections::{assertions, definitions, externals, parameters, types};
use sp_cursor::Tokens;
use sp_cursor::marks::{END_MODULE, MODULE};
use sp_text::TextFault;
use sp_tree::Module;
use std::alloc::Global;

/// The module that all the tokens are.
#[tactic(auto, unfolding(crate::specs::Modules::module_grammar))]
pub fn module(alloc: Global, tokens: &mut Tokens<'_>) -> Result<Module, TextFault>
    ensures { Reads (read_text_in nested_effects module_grammar tokens.old) result tokens.new }
{
    tokens.expect(MODULE)?;
    let name = tokens.name(alloc)?;
    let types = types(alloc, tokens)?;
    let parameters = parameters(alloc, tokens)?;
    let definitions = definitions(alloc, tokens)?;
    let externals = externals(alloc, tokens)?;
    let assertions = assertions(alloc, tokens)?;
    let functions = functions(alloc, tokens)?;
    tokens.expect(END_MODULE)?;
    tokens.finish()?;
    Ok(Module {
        name,
        types,
        parameters,
        definitions,
        externals,
        assertions,
        functions,
    })
}
