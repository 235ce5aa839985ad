//! Scripts.

ghost use Rattle.std.specs.Prelude.{◌≡◌, []};
ghost use Rattle.sp_grammar.specs.Lang.{has};
ghost use Rattle.sp_forms.specs.Cursors.{lookahead, Reads};
ghost use Rattle.sp_forms.specs.Grammars.{first};
ghost use Rattle.sp_forms.specs.Readers.{read_line, read_text};
ghost use Rattle.sp_instance_text.specs.Scripts.{call_line, calls_line, script_grammar};

use crate::value::values;
use sp_cursor::marks::SEMICOLON;
use sp_cursor::{Tokens, many};
use sp_text::{Sequence, TextFault};
use sp_tree::{Ident, ScriptTree, ValueTree};
use std::alloc::Global;

/// A call of a function with values.
#[tactic(auto, unfolding(crate::specs::Scripts::call_line))]
fn call(alloc: Global, tokens: &mut Tokens<'_>) -> Result<(Ident, Sequence<ValueTree>), TextFault>
    ensures { Reads (read_line call_line tokens.old) result tokens.new }
{
    let name = tokens.name(alloc)?;
    let values = values(alloc, tokens)?;
    tokens.expect(SEMICOLON)?;
    Ok((name, values))
}

#[tactic(auto, unfolding(crate::specs::Scripts::call_line))]
fn begins_call(tokens: &Tokens<'_>) -> bool
    ensures { result ≡ has (first [] call_line) (lookahead tokens.now) }
{
    tokens.is_name()
}

fn calls(
    alloc: Global,
    tokens: &mut Tokens<'_>,
) -> Result<Sequence<(Ident, Sequence<ValueTree>)>, TextFault>
    ensures { Reads (read_line calls_line tokens.old) result tokens.new }
{
    many(alloc, tokens, begins_call, call)
}

/// The script that all the tokens are.
#[tactic(auto, unfolding(crate::specs::Scripts::script_grammar))]
pub fn script(alloc: Global, tokens: &mut Tokens<'_>) -> Result<ScriptTree, TextFault>
    ensures { Reads (read_text script_grammar tokens.old) result tokens.new }
{
    let calls = calls(alloc, tokens)?;
    tokens.finish()?;
    Ok(ScriptTree { calls })
}
