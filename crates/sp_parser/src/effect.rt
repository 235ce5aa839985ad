//! Effects, which stand in one another.

ghost use Rattle.std.specs.Prelude.{◌≡◌};
ghost use Rattle.sp_grammar.specs.Lang.{has};
ghost use Rattle.sp_grammar.specs.Texts.{most};
ghost use Rattle.sp_forms.specs.Cursors.{lookahead, Reads};
ghost use Rattle.sp_forms.specs.Grammars.{again};
ghost use Rattle.sp_forms.specs.Readers.{read_in, read_line};
ghost use Rattle.sp_parser.specs.Modules.{bound_line, effects_line, forall_effect_line, if_effect_line, nested_effects};

use crate::statements::statement;
use sp_cursor::lines::formal;
use sp_cursor::marks::{COLON, ELSE, END_FORALL, END_IF, FORALL, IF, SEMICOLON, THEN};
use sp_cursor::{Tokens, many};
use sp_text::{MOST_EFFECT_NESTING, Sequence, TextFault};
use sp_tree::{EffectTree, FormalTree};
use sqlite_items::Items;
use std::alloc::Global;

/// Whether an effect begins with the next token.
#[tactic(auto, unfolding(crate::specs::Modules::nested_effects))]
fn begins_effect(tokens: &Tokens<'_>) -> bool
    ensures { result ≡ has nested_effects.begin (lookahead tokens.now) }
{
    tokens.begins_expression()
}

/// Any number of effects, in which others stand in at most `nesting` levels.
#[cycle(effect)]
#[tactic(auto, unfolding(crate::specs::Modules::effects_line))]
fn effects(
    alloc: Global,
    tokens: &mut Tokens<'_>,
    nesting: u32,
) -> Result<Items<EffectTree>, TextFault>
    ensures { Reads (read_in nested_effects nesting effects_line tokens.old) result tokens.new }
{
    let mut items = Vec::new(alloc);
    for _turn in 0..tokens.left() {
        if !begins_effect(tokens) {
            break;
        }
        items.push(effect(alloc, tokens, nesting)?)?;
    }
    Ok(Items::from_vec(items))
}

/// An effect, in which others stand in at most `nesting` levels.
#[cycle(effect)]
#[tactic(auto, using(sp_forms::proofs::Levels::unroll), unfolding(crate::specs::Modules::nested_effects, crate::specs::Modules::if_effect_line, crate::specs::Modules::forall_effect_line, crate::specs::Modules::plain_line))]
fn effect(alloc: Global, tokens: &mut Tokens<'_>, nesting: u32) -> Result<EffectTree, TextFault>
    ensures { Reads (read_in nested_effects nesting again tokens.old) result tokens.new }
{
    if tokens.is(IF) {
        if nesting == 0 {
            return Err(tokens.too_deep());
        }
        return if_effect(alloc, tokens, nesting - 1);
    }
    if tokens.is(FORALL) {
        if nesting == 0 {
            return Err(tokens.too_deep());
        }
        return forall_effect(alloc, tokens, nesting - 1);
    }
    Ok(EffectTree::Plain(statement(alloc, tokens)?))
}

/// The effects under a condition, and those under its opposite.
#[cycle(effect)]
#[tactic(auto, unfolding(crate::specs::Modules::if_effect_line))]
fn if_effect(alloc: Global, tokens: &mut Tokens<'_>, nesting: u32) -> Result<EffectTree, TextFault>
    ensures { Reads (read_in nested_effects nesting if_effect_line tokens.old) result tokens.new }
{
    let start = tokens.place();
    tokens.expect(IF)?;
    let condition = tokens.expression(alloc)?;
    tokens.expect(THEN)?;
    let yes = effects(alloc, tokens, nesting)?;
    tokens.expect(ELSE)?;
    let no = effects(alloc, tokens, nesting)?;
    tokens.expect(END_IF)?;
    tokens.expect(SEMICOLON)?;
    Ok(EffectTree::If(tokens.span_at(start), condition, yes, no))
}

/// The effects for all values of one variable or two.
#[cycle(effect)]
#[tactic(auto, unfolding(crate::specs::Modules::forall_effect_line))]
fn forall_effect(
    alloc: Global,
    tokens: &mut Tokens<'_>,
    nesting: u32,
) -> Result<EffectTree, TextFault>
    ensures { Reads (read_in nested_effects nesting forall_effect_line tokens.old) result tokens.new }
{
    let start = tokens.place();
    tokens.expect(FORALL)?;
    let variables = bound(alloc, tokens)?;
    tokens.expect(COLON)?;
    let below = effects(alloc, tokens, nesting)?;
    tokens.expect(END_FORALL)?;
    tokens.expect(SEMICOLON)?;
    Ok(EffectTree::Forall(tokens.span_at(start), variables, below))
}

/// One variable, or two.
#[tactic(auto, unfolding(crate::specs::Modules::bound_line))]
fn bound(alloc: Global, tokens: &mut Tokens<'_>) -> Result<Sequence<FormalTree>, TextFault>
    ensures { Reads (read_line bound_line tokens.old) result tokens.new }
{
    let mut variables = Vec::new(alloc);
    variables.push(formal(alloc, tokens)?)?;
    if tokens.is(SEMICOLON) {
        tokens.expect(SEMICOLON)?;
        variables.push(formal(alloc, tokens)?)?;
    }
    Ok(Sequence::new(variables))
}

/// An effect of a function.
fn outer_effect(alloc: Global, tokens: &mut Tokens<'_>) -> Result<EffectTree, TextFault>
    ensures { Reads (read_in nested_effects most.nesting again tokens.old) result tokens.new }
{
    effect(alloc, tokens, MOST_EFFECT_NESTING)
}

/// The effects of a function.
pub fn outer_effects(
    alloc: Global,
    tokens: &mut Tokens<'_>,
) -> Result<Sequence<EffectTree>, TextFault>
    ensures { Reads (read_in nested_effects most.nesting effects_line tokens.old) result tokens.new }
{
    many(alloc, tokens, begins_effect, outer_effect)
}
