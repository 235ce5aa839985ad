//! Equations: what stands for a name with its formals.

ghost use Rattle.std.specs.Prelude.{◌≡◌, []};
ghost use Rattle.sp_grammar.specs.Lang.{has};
ghost use Rattle.sp_forms.specs.Cursors.{lookahead, Reads};
ghost use Rattle.sp_forms.specs.Grammars.{first};
ghost use Rattle.sp_forms.specs.Readers.{read_line};
ghost use Rattle.sp_interface.specs.Equations.{equation_line, formal_names_line};

use sp_cursor::Tokens;
use sp_cursor::lines::{begins_names, names};
use sp_cursor::marks::{IS, LEFT_PARENTHESIS, RIGHT_PARENTHESIS, SEMICOLON};
use sp_text::{Sequence, TextFault};
use sp_tree::{Equation, Ident};
use std::alloc::Global;

/// The names of formals, with their parentheses.
#[tactic(auto, unfolding(crate::specs::Equations::formal_names_line))]
fn formal_names(alloc: Global, tokens: &mut Tokens<'_>) -> Result<Sequence<Ident>, TextFault>
    ensures { Reads (read_line formal_names_line tokens.old) result tokens.new }
{
    tokens.expect(LEFT_PARENTHESIS)?;
    if !begins_names(tokens) {
        tokens.expect(RIGHT_PARENTHESIS)?;
        return Ok(Sequence::new(Vec::new(alloc)));
    }
    let formals = names(alloc, tokens)?;
    tokens.expect(RIGHT_PARENTHESIS)?;
    Ok(formals)
}

/// Whether an equation begins with the next token.
#[tactic(auto, unfolding(crate::specs::Equations::equation_line))]
pub fn begins_equation(tokens: &Tokens<'_>) -> bool
    ensures { result ≡ has (first [] equation_line) (lookahead tokens.now) }
{
    tokens.is_name()
}

/// What stands for the name with its formals.
#[tactic(auto, unfolding(crate::specs::Equations::equation_line))]
pub fn equation(alloc: Global, tokens: &mut Tokens<'_>) -> Result<Equation, TextFault>
    ensures { Reads (read_line equation_line tokens.old) result tokens.new }
{
    let name = tokens.name(alloc)?;
    let formals = formal_names(alloc, tokens)?;
    tokens.expect(IS)?;
    let value = tokens.expression(alloc)?;
    tokens.expect(SEMICOLON)?;
    Ok(Equation {
        name,
        formals,
        value,
    })
}
