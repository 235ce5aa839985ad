//! Functions.

ghost use Rattle.std.specs.Prelude.{◌≡◌};
ghost use Rattle.sp_grammar.specs.Lang.{has};
ghost use Rattle.sp_grammar.specs.Texts.{most};
ghost use Rattle.sp_forms.specs.Cursors.{lookahead, Reads};
ghost use Rattle.sp_forms.specs.Grammars.{first, star};
ghost use Rattle.sp_forms.specs.Readers.{read_in, read_line};
ghost use Rattle.sp_parser.specs.Modules.{exception_line, exceptions_line, function_line, functions_line, marks_line, maybe_exceptions, nested_effects, operation_body, operation_line, value_body, value_function_line, value_operation_line};

use crate::effect::outer_effects;
use crate::names::{named, returned};
use crate::statements::{begins_exception, exception, statement};
use sp_cursor::marks::{
    DERIVATION, EFFECTS, EXCEPTIONS, FUNCTIONS, HIDDEN, INITIALLY, OFUN, OVFUN, SEMICOLON, VFUN,
};
use sp_cursor::{Tokens, many, section};
use sp_text::{Sequence, TextFault};
use sp_tree::{Body, EffectTree, ExprTree, FunDecl, Header, Ident};
use std::alloc::Global;

/// Exceptions by name, in order.
type Exceptions = Sequence<(Ident, ExprTree)>;

fn exception_list(alloc: Global, tokens: &mut Tokens<'_>) -> Result<Exceptions, TextFault>
    ensures { Reads (read_line (star exception_line) tokens.old) result tokens.new }
{
    many(alloc, tokens, begins_exception, exception)
}

/// Exceptions with their keyword, or none.
fn maybe_exceptions(alloc: Global, tokens: &mut Tokens<'_>) -> Result<Exceptions, TextFault>
    ensures { Reads (read_line maybe_exceptions tokens.old) result tokens.new }
{
    section(alloc, tokens, EXCEPTIONS, begins_exception, exception)
}

/// Exceptions, with their keyword.
#[tactic(auto, unfolding(crate::specs::Modules::exceptions_line))]
fn exceptions(alloc: Global, tokens: &mut Tokens<'_>) -> Result<Exceptions, TextFault>
    ensures { Reads (read_line exceptions_line tokens.old) result tokens.new }
{
    tokens.expect(EXCEPTIONS)?;
    exception_list(alloc, tokens)
}

/// Whether a value function is hidden, and its exceptions.
#[tactic(auto, unfolding(crate::specs::Modules::marks_line, crate::specs::Modules::exceptions_line))]
fn marks(alloc: Global, tokens: &mut Tokens<'_>) -> Result<(bool, Exceptions), TextFault>
    ensures { Reads (read_line marks_line tokens.old) result tokens.new }
{
    if tokens.is(HIDDEN) {
        tokens.expect(HIDDEN)?;
        tokens.expect(SEMICOLON)?;
        return Ok((true, Sequence::new(Vec::new(alloc))));
    }
    if tokens.is(EXCEPTIONS) {
        return Ok((false, exceptions(alloc, tokens)?));
    }
    Ok((false, Sequence::new(Vec::new(alloc))))
}

/// The first value of a value function, or what it is derived as.
#[tactic(auto, unfolding(crate::specs::Modules::value_body))]
fn value_body(alloc: Global, tokens: &mut Tokens<'_>) -> Result<Body, TextFault>
    ensures { Reads (read_line value_body tokens.old) result tokens.new }
{
    if tokens.eat(INITIALLY) {
        return Ok(Body::Initially(statement(alloc, tokens)?));
    }
    tokens.expect(DERIVATION)?;
    Ok(Body::Derivation(statement(alloc, tokens)?))
}

/// A value function.
#[tactic(auto, unfolding(crate::specs::Modules::value_function_line))]
fn value_function(alloc: Global, tokens: &mut Tokens<'_>) -> Result<FunDecl, TextFault>
    ensures { Reads (read_line value_function_line tokens.old) result tokens.new }
{
    tokens.expect(VFUN)?;
    let (name, formals) = named(alloc, tokens)?;
    let ty = Some(returned(alloc, tokens)?);
    tokens.expect(SEMICOLON)?;
    let (hidden, exceptions) = marks(alloc, tokens)?;
    let body = value_body(alloc, tokens)?;
    let head = Header {
        name,
        formals,
        ty,
        result: None,
    };
    Ok(FunDecl {
        head,
        hidden,
        exceptions,
        body,
    })
}

/// The exceptions of an operation, and its effects.
#[tactic(auto, unfolding(crate::specs::Modules::operation_body))]
fn operation_body(
    alloc: Global,
    tokens: &mut Tokens<'_>,
) -> Result<(Exceptions, Sequence<EffectTree>), TextFault>
    ensures { Reads (read_in nested_effects most.nesting operation_body tokens.old) result tokens.new }
{
    let exceptions = maybe_exceptions(alloc, tokens)?;
    tokens.expect(EFFECTS)?;
    let effects = outer_effects(alloc, tokens)?;
    Ok((exceptions, effects))
}

/// An operation without a value.
#[tactic(auto, unfolding(crate::specs::Modules::operation_line))]
fn operation(alloc: Global, tokens: &mut Tokens<'_>) -> Result<FunDecl, TextFault>
    ensures { Reads (read_in nested_effects most.nesting operation_line tokens.old) result tokens.new }
{
    tokens.expect(OFUN)?;
    let (name, formals) = named(alloc, tokens)?;
    tokens.expect(SEMICOLON)?;
    let (exceptions, effects) = operation_body(alloc, tokens)?;
    let head = Header {
        name,
        formals,
        ty: None,
        result: None,
    };
    Ok(FunDecl {
        head,
        hidden: false,
        exceptions,
        body: Body::Effects(effects),
    })
}

/// An operation with a value, by the name of its result.
#[tactic(auto, unfolding(crate::specs::Modules::value_operation_line))]
fn value_operation(alloc: Global, tokens: &mut Tokens<'_>) -> Result<FunDecl, TextFault>
    ensures { Reads (read_in nested_effects most.nesting value_operation_line tokens.old) result tokens.new }
{
    tokens.expect(OVFUN)?;
    let (name, formals) = named(alloc, tokens)?;
    let ty = Some(returned(alloc, tokens)?);
    let result_name = Some(tokens.name(alloc)?);
    tokens.expect(SEMICOLON)?;
    let (exceptions, effects) = operation_body(alloc, tokens)?;
    let head = Header {
        name,
        formals,
        ty,
        result: result_name,
    };
    Ok(FunDecl {
        head,
        hidden: false,
        exceptions,
        body: Body::Effects(effects),
    })
}

/// A function.
#[tactic(auto, unfolding(crate::specs::Modules::function_line, crate::specs::Modules::value_function_line, crate::specs::Modules::operation_line))]
fn function(alloc: Global, tokens: &mut Tokens<'_>) -> Result<FunDecl, TextFault>
    ensures { Reads (read_in nested_effects most.nesting function_line tokens.old) result tokens.new }
{
    if tokens.is(VFUN) {
        return value_function(alloc, tokens);
    }
    if tokens.is(OFUN) {
        return operation(alloc, tokens);
    }
    value_operation(alloc, tokens)
}

/// Whether a function begins with the next token.
#[tactic(auto, unfolding(crate::specs::Modules::function_line, crate::specs::Modules::value_function_line, crate::specs::Modules::operation_line, crate::specs::Modules::value_operation_line))]
fn begins_function(tokens: &Tokens<'_>) -> bool
    ensures { result ≡ has (first nested_effects.begin function_line) (lookahead tokens.now) }
{
    tokens.is(VFUN) || tokens.is(OFUN) || tokens.is(OVFUN)
}

/// The functions, behind their keyword, or none.
pub fn functions(alloc: Global, tokens: &mut Tokens<'_>) -> Result<Sequence<FunDecl>, TextFault>
    ensures { Reads (read_in nested_effects most.nesting functions_line tokens.old) result tokens.new }
{
    section(alloc, tokens, FUNCTIONS, begins_function, function)
}
