//! Whether the variables of effects can be numbered.

ghost use Rattle.std.specs.Prelude.{◌≡◌, ◌+◌, ◌<◌, IsTrue, length, map, nat_le};
ghost use Rattle.sp_plain.specs.Text.{text, texts_of};
ghost use Rattle.sp_judge.specs.Translation.{binders, binders_in};
ghost use Rattle.sp_effects.specs.EffectText.{effect_binders, effect_binders_in, effect_text, effect_texts_of};

use sp_scopes::Local;
use sp_tree::{EffectTree, ExprNode, ExprTree};

// More variables than any text of limited height binds in one another.
const MANY: usize = 1_000_000;

// Whether at most so many quantifiers of an expression stand in one another.
#[cycle(room)]
#[tactic(auto, using(sp_judge::proofs::Weights::weight_some, crate::proofs::Greatest::at_most_max, crate::proofs::Greatest::at_most_three, crate::proofs::Greatest::at_most_zero))]
fn has_binders(most: usize, e: &ExprTree) -> bool
    ensures { result ≡ nat_le (binders (text e.now)) most }
{
    match &e.node {
        ExprNode::Name(_) => true,
        ExprNode::Number(_) => true,
        ExprNode::Truth(_) => true,
        ExprNode::Unknown => true,
        ExprNode::Bottom => true,
        ExprNode::Top => true,
        ExprNode::Call(_, args) => have_binders(most, args.as_slice()),
        ExprNode::New(_, args) => have_binders(most, args.as_slice()),
        ExprNode::Paren(a) => has_binders(most, a.get()),
        ExprNode::Not(a) => has_binders(most, a.get()),
        ExprNode::Binary(_, a, b) => has_binders(most, a.get()) && has_binders(most, b.get()),
        ExprNode::Join(_, a, b) => has_binders(most, a.get()) && has_binders(most, b.get()),
        ExprNode::If(c, a, b) => {
            has_binders(most, c.get()) && (has_binders(most, a.get()) && has_binders(most, b.get()))
        }
        ExprNode::Quant(_, _, b) => most > 0 && has_binders(most - 1, b.get()),
    }
}

#[cycle(room)]
#[tactic(auto, using(sp_judge::proofs::Weights::weight_some, crate::proofs::Greatest::at_most_max, crate::proofs::Greatest::at_most_zero))]
fn have_binders(most: usize, args: &[ExprTree]) -> bool
    ensures { result ≡ nat_le (binders_in (texts_of (map text args.now))) most }
{
    if let [first, rest @ ..] = args {
        return has_binders(most, first) && have_binders(most, rest);
    }
    true
}

// Whether at most so many variables of an effect stand in one another.
#[cycle(effect_room)]
#[tactic(auto, using(crate::proofs::Lengths::effect_some, crate::proofs::Greatest::at_most_sum, crate::proofs::Greatest::at_most_three))]
fn effect_fits(most: usize, w: &EffectTree) -> bool
    ensures { result ≡ nat_le (effect_binders (effect_text w.now)) most }
{
    match w {
        EffectTree::Plain(e) => has_binders(most, e),
        EffectTree::If(_, c, a, b) => {
            has_binders(most, c)
                && (effects_fit(most, a.as_slice()) && effects_fit(most, b.as_slice()))
        }
        EffectTree::Forall(_, variables, body) => {
            let count = variables.items().len();
            count <= most && effects_fit(most - count, body.as_slice())
        }
    }
}

#[cycle(effect_room)]
#[tactic(auto, using(crate::proofs::Lengths::effect_some, crate::proofs::Greatest::at_most_max, crate::proofs::Greatest::at_most_zero))]
fn effects_fit(most: usize, ws: &[EffectTree]) -> bool
    ensures { result ≡ nat_le (effect_binders_in (effect_texts_of (map effect_text ws.now))) most }
{
    if let [first, rest @ ..] = ws {
        return effect_fits(most, first) && effects_fit(most, rest);
    }
    true
}

/// Whether the variables of effects, with the formals, can be numbered. Those of a text of limited height and nesting
/// can.
#[tactic(auto, using(crate::proofs::Greatest::few))]
pub fn has_effect_room(formals: &[Local], ws: &[EffectTree]) -> bool
    ensures { IsTrue result → length formals.now + effect_binders_in (effect_texts_of (map effect_text ws.now)) < 4294967288 }
{
    formals.len() <= MANY && effects_fit(MANY, ws)
}
