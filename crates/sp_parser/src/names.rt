//! Names with their formals.

ghost use Rattle.std.specs.Prelude.{◌≡◌, []};
ghost use Rattle.sp_grammar.specs.Lang.{has};
ghost use Rattle.sp_forms.specs.Cursors.{lookahead, Reads};
ghost use Rattle.sp_forms.specs.Grammars.{first};
ghost use Rattle.sp_forms.specs.Readers.{read_line};
ghost use Rattle.sp_parser.specs.Modules.{formals_line, header_line, named_line, returned_line, some_formals};

use sp_cursor::lines::{begins_type, formal, type_tree};
use sp_cursor::marks::{ARROW, LEFT_PARENTHESIS, RIGHT_PARENTHESIS, SEMICOLON};
use sp_cursor::{Tokens, separated};
use sp_text::{Sequence, TextFault};
use sp_tree::{FormalTree, Header, Ident, TypeTree};
use std::alloc::Global;

fn some_formals(alloc: Global, tokens: &mut Tokens<'_>) -> Result<Sequence<FormalTree>, TextFault>
    ensures { Reads (read_line some_formals tokens.old) result tokens.new }
{
    separated(alloc, tokens, SEMICOLON, formal)
}

#[tactic(auto, unfolding(crate::specs::Modules::some_formals, sp_cursor::specs::Lines::formal_line, sp_cursor::specs::Lines::type_line))]
fn begins_formals(tokens: &Tokens<'_>) -> bool
    ensures { result ≡ has (first [] some_formals) (lookahead tokens.now) }
{
    begins_type(tokens)
}

/// Formals, with their parentheses.
#[tactic(auto, unfolding(crate::specs::Modules::formals_line))]
pub fn formals(alloc: Global, tokens: &mut Tokens<'_>) -> Result<Sequence<FormalTree>, TextFault>
    ensures { Reads (read_line formals_line tokens.old) result tokens.new }
{
    tokens.expect(LEFT_PARENTHESIS)?;
    if !begins_formals(tokens) {
        tokens.expect(RIGHT_PARENTHESIS)?;
        return Ok(Sequence::new(Vec::new(alloc)));
    }
    let formals = some_formals(alloc, tokens)?;
    tokens.expect(RIGHT_PARENTHESIS)?;
    Ok(formals)
}

/// A name with its formals.
#[tactic(auto, unfolding(crate::specs::Modules::named_line))]
pub fn named(
    alloc: Global,
    tokens: &mut Tokens<'_>,
) -> Result<(Ident, Sequence<FormalTree>), TextFault>
    ensures { Reads (read_line named_line tokens.old) result tokens.new }
{
    let name = tokens.name(alloc)?;
    let formals = formals(alloc, tokens)?;
    Ok((name, formals))
}

/// A type, and a name with its formals.
#[tactic(auto, unfolding(crate::specs::Modules::header_line))]
pub fn header(alloc: Global, tokens: &mut Tokens<'_>) -> Result<Header, TextFault>
    ensures { Reads (read_line header_line tokens.old) result tokens.new }
{
    let ty = type_tree(alloc, tokens)?;
    let (name, formals) = named(alloc, tokens)?;
    Ok(Header {
        name,
        formals,
        ty: Some(ty),
        result: None,
    })
}

/// Whether a type and a name with its formals begin with the next token.
#[tactic(auto, unfolding(crate::specs::Modules::header_line, sp_cursor::specs::Lines::type_line))]
pub fn begins_header(tokens: &Tokens<'_>) -> bool
    ensures { result ≡ has (first [] header_line) (lookahead tokens.now) }
{
    begins_type(tokens)
}

/// The type of a value, behind an arrow.
#[tactic(auto, unfolding(crate::specs::Modules::returned_line))]
pub fn returned(alloc: Global, tokens: &mut Tokens<'_>) -> Result<TypeTree, TextFault>
    ensures { Reads (read_line returned_line tokens.old) result tokens.new }
{
    tokens.expect(ARROW)?;
    type_tree(alloc, tokens)
}
