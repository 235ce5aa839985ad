//! Values, and lists of them.

ghost use Rattle.std.specs.Prelude.{◌≡◌, []};
ghost use Rattle.sp_grammar.specs.Lang.{has};
ghost use Rattle.sp_forms.specs.Cursors.{lookahead, Reads};
ghost use Rattle.sp_forms.specs.Grammars.{first};
ghost use Rattle.sp_forms.specs.Readers.{read_line};
ghost use Rattle.sp_instance_text.specs.Values.{constant_line, node_line, number_line, some_values, value_line, values_line};

use sp_cursor::marks::{
    BOTTOM, COMMA, FALSE, LEFT_PARENTHESIS, MINUS, QUESTION, RIGHT_PARENTHESIS, TOP, TRUE,
};
use sp_cursor::{Tokens, separated};
use sp_text::{Sequence, TextFault};
use sp_tree::{ValueNode, ValueTree};
use std::alloc::Global;

#[tactic(auto, unfolding(crate::specs::Values::number_line))]
fn begins_number(tokens: &Tokens<'_>) -> bool
    ensures { result ≡ has (first [] number_line) (lookahead tokens.now) }
{
    tokens.is(MINUS) || tokens.is_number()
}

/// A number with its sign.
#[tactic(auto, unfolding(crate::specs::Values::number_line))]
fn number(tokens: &mut Tokens<'_>) -> Result<i64, TextFault>
    ensures { Reads (read_line number_line tokens.old) result tokens.new }
{
    if tokens.eat(MINUS) {
        Ok(0 - tokens.digits()?)
    } else {
        tokens.digits()
    }
}

#[tactic(auto, unfolding(crate::specs::Values::constant_line))]
fn begins_constant(tokens: &Tokens<'_>) -> bool
    ensures { result ≡ has (first [] constant_line) (lookahead tokens.now) }
{
    tokens.is(QUESTION)
        || tokens.is(TRUE)
        || tokens.is(FALSE)
        || tokens.is(BOTTOM)
        || tokens.is(TOP)
}

/// A value of one token that isn't a number or a name.
#[tactic(auto, unfolding(crate::specs::Values::constant_line))]
fn constant(tokens: &mut Tokens<'_>) -> Result<ValueNode, TextFault>
    ensures { Reads (read_line constant_line tokens.old) result tokens.new }
{
    if tokens.eat(QUESTION) {
        return Ok(ValueNode::Unknown);
    }
    if tokens.eat(TRUE) {
        return Ok(ValueNode::Truth(true));
    }
    if tokens.eat(FALSE) {
        return Ok(ValueNode::Truth(false));
    }
    if tokens.eat(BOTTOM) {
        return Ok(ValueNode::Bottom);
    }
    tokens.expect(TOP)?;
    Ok(ValueNode::Top)
}

/// What a value is.
#[tactic(auto, unfolding(crate::specs::Values::node_line))]
fn node(alloc: Global, tokens: &mut Tokens<'_>) -> Result<ValueNode, TextFault>
    ensures { Reads (read_line node_line tokens.old) result tokens.new }
{
    if begins_constant(tokens) {
        return constant(tokens);
    }
    if begins_number(tokens) {
        return Ok(ValueNode::Int(number(tokens)?));
    }
    Ok(ValueNode::Name(tokens.name(alloc)?.name))
}

/// A value and its place.
#[tactic(auto, unfolding(crate::specs::Values::value_line))]
pub fn value(alloc: Global, tokens: &mut Tokens<'_>) -> Result<ValueTree, TextFault>
    ensures { Reads (read_line value_line tokens.old) result tokens.new }
{
    let start = tokens.place();
    let node = node(alloc, tokens)?;
    Ok(ValueTree {
        span: tokens.since(start),
        node,
    })
}

#[tactic(auto, unfolding(crate::specs::Values::some_values, crate::specs::Values::value_line, crate::specs::Values::node_line, crate::specs::Values::constant_line, crate::specs::Values::number_line))]
fn begins_values(tokens: &Tokens<'_>) -> bool
    ensures { result ≡ has (first [] some_values) (lookahead tokens.now) }
{
    begins_constant(tokens) || begins_number(tokens) || tokens.is_name()
}

fn some_values(alloc: Global, tokens: &mut Tokens<'_>) -> Result<Sequence<ValueTree>, TextFault>
    ensures { Reads (read_line some_values tokens.old) result tokens.new }
{
    separated(alloc, tokens, COMMA, value)
}

/// Values, with their parentheses.
#[tactic(auto, unfolding(crate::specs::Values::values_line))]
pub fn values(alloc: Global, tokens: &mut Tokens<'_>) -> Result<Sequence<ValueTree>, TextFault>
    ensures { Reads (read_line values_line tokens.old) result tokens.new }
{
    tokens.expect(LEFT_PARENTHESIS)?;
    if !begins_values(tokens) {
        tokens.expect(RIGHT_PARENTHESIS)?;
        return Ok(Sequence::new(Vec::new(alloc)));
    }
    let values = some_values(alloc, tokens)?;
    tokens.expect(RIGHT_PARENTHESIS)?;
    Ok(values)
}
