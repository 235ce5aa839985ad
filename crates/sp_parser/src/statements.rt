//! The items of the sections of a module.

ghost use Rattle.std.specs.Prelude.{◌≡◌, []};
ghost use Rattle.sp_grammar.specs.Lang.{has};
ghost use Rattle.sp_forms.specs.Cursors.{lookahead, Reads};
ghost use Rattle.sp_forms.specs.Grammars.{first};
ghost use Rattle.sp_forms.specs.Readers.{read_line};
ghost use Rattle.sp_parser.specs.Modules.{definition_line, exception_line, external_line, members_line, parameter_line, statement_line, type_decl_line};

use crate::names::{begins_header, header};
use sp_cursor::Tokens;
use sp_cursor::lines::names;
use sp_cursor::marks::{COLON, DESIGNATOR, FROM, IS, LEFT_BRACE, RIGHT_BRACE, SEMICOLON};
use sp_text::{Sequence, TextFault};
use sp_tree::{ExprTree, Header, Ident, TypeDecl};
use std::alloc::Global;

/// An expression and a semicolon.
#[tactic(auto, unfolding(crate::specs::Modules::statement_line))]
pub fn statement(alloc: Global, tokens: &mut Tokens<'_>) -> Result<ExprTree, TextFault>
    ensures { Reads (read_line statement_line tokens.old) result tokens.new }
{
    let expr = tokens.expression(alloc)?;
    tokens.expect(SEMICOLON)?;
    Ok(expr)
}

/// Whether an expression and a semicolon begin with the next token.
#[tactic(auto, unfolding(crate::specs::Modules::statement_line))]
pub fn begins_statement(tokens: &Tokens<'_>) -> bool
    ensures { result ≡ has (first [] statement_line) (lookahead tokens.now) }
{
    tokens.begins_expression()
}

/// What a type is: a designator type has no members.
#[tactic(auto, unfolding(crate::specs::Modules::members_line))]
fn members(alloc: Global, tokens: &mut Tokens<'_>) -> Result<Option<Sequence<Ident>>, TextFault>
    ensures { Reads (read_line members_line tokens.old) result tokens.new }
{
    if tokens.eat(DESIGNATOR) {
        return Ok(None);
    }
    tokens.expect(LEFT_BRACE)?;
    let names = names(alloc, tokens)?;
    tokens.expect(RIGHT_BRACE)?;
    Ok(Some(names))
}

/// The declaration of a type.
#[tactic(auto, unfolding(crate::specs::Modules::type_decl_line))]
pub fn type_decl(alloc: Global, tokens: &mut Tokens<'_>) -> Result<TypeDecl, TextFault>
    ensures { Reads (read_line type_decl_line tokens.old) result tokens.new }
{
    let name = tokens.name(alloc)?;
    tokens.expect(COLON)?;
    let members = members(alloc, tokens)?;
    tokens.expect(SEMICOLON)?;
    Ok(TypeDecl { name, members })
}

/// Whether the declaration of a type begins with the next token.
#[tactic(auto, unfolding(crate::specs::Modules::type_decl_line))]
pub fn begins_type_decl(tokens: &Tokens<'_>) -> bool
    ensures { result ≡ has (first [] type_decl_line) (lookahead tokens.now) }
{
    tokens.is_name()
}

/// The declaration of a parameter.
#[tactic(auto, unfolding(crate::specs::Modules::parameter_line))]
pub fn parameter(alloc: Global, tokens: &mut Tokens<'_>) -> Result<Header, TextFault>
    ensures { Reads (read_line parameter_line tokens.old) result tokens.new }
{
    let header = header(alloc, tokens)?;
    tokens.expect(SEMICOLON)?;
    Ok(header)
}

/// Whether the declaration of a parameter begins with the next token.
#[tactic(auto, unfolding(crate::specs::Modules::parameter_line, crate::specs::Modules::header_line, sp_cursor::specs::Lines::type_line))]
pub fn begins_parameter(tokens: &Tokens<'_>) -> bool
    ensures { result ≡ has (first [] parameter_line) (lookahead tokens.now) }
{
    begins_header(tokens)
}

/// The definition of an expression.
#[tactic(auto, unfolding(crate::specs::Modules::definition_line))]
pub fn definition(alloc: Global, tokens: &mut Tokens<'_>) -> Result<(Header, ExprTree), TextFault>
    ensures { Reads (read_line definition_line tokens.old) result tokens.new }
{
    let header = header(alloc, tokens)?;
    tokens.expect(IS)?;
    let value = statement(alloc, tokens)?;
    Ok((header, value))
}

/// Whether a definition begins with the next token.
#[tactic(auto, unfolding(crate::specs::Modules::definition_line, crate::specs::Modules::header_line, sp_cursor::specs::Lines::type_line))]
pub fn begins_definition(tokens: &Tokens<'_>) -> bool
    ensures { result ≡ has (first [] definition_line) (lookahead tokens.now) }
{
    begins_header(tokens)
}

/// The names taken from another module.
#[tactic(auto, unfolding(crate::specs::Modules::external_line))]
pub fn external(
    alloc: Global,
    tokens: &mut Tokens<'_>,
) -> Result<(Ident, Sequence<Ident>), TextFault>
    ensures { Reads (read_line external_line tokens.old) result tokens.new }
{
    tokens.expect(FROM)?;
    let name = tokens.name(alloc)?;
    tokens.expect(COLON)?;
    let names = names(alloc, tokens)?;
    tokens.expect(SEMICOLON)?;
    Ok((name, names))
}

/// Whether names taken from another module begin with the next token.
#[tactic(auto, unfolding(crate::specs::Modules::external_line))]
pub fn begins_external(tokens: &Tokens<'_>) -> bool
    ensures { result ≡ has (first [] external_line) (lookahead tokens.now) }
{
    tokens.is(FROM)
}

/// An exception.
#[tactic(auto, unfolding(crate::specs::Modules::exception_line))]
pub fn exception(alloc: Global, tokens: &mut Tokens<'_>) -> Result<(Ident, ExprTree), TextFault>
    ensures { Reads (read_line exception_line tokens.old) result tokens.new }
{
    let name = tokens.name(alloc)?;
    tokens.expect(COLON)?;
    let condition = statement(alloc, tokens)?;
    Ok((name, condition))
}

/// Whether an exception begins with the next token.
#[tactic(auto, unfolding(crate::specs::Modules::exception_line))]
pub fn begins_exception(tokens: &Tokens<'_>) -> bool
    ensures { result ≡ has (first [] exception_line) (lookahead tokens.now) }
{
    tokens.is_name()
}
