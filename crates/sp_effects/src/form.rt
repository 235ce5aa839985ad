//! What an effect is.

ghost use Rattle.std.specs.Prelude.{◌≡◌, ◌||◌, ◌&&◌, map};
ghost use Rattle.std.specs.Option.{option_copied};
ghost use Rattle.sp_plain.specs.Text.{text};
ghost use Rattle.sp_judge.specs.Broken.{primitive_of};
ghost use Rattle.sp_effects.specs.EffectText.{effect_text, effect_texts_of};
ghost use Rattle.sp_effects.specs.Forms as spec_forms;

use sp_judge::{Meaning, Scope};
use sp_naming::Entity;
use sp_scopes::{Head, Local, Sort};
use sp_text::Name;
use sp_tree::{BinOp, EffectTree, ExprNode, ExprTree};
use sp_values::Ty;

/// What a change changes: a primitive V-function, by its number, and its type.
#[derive(Clone, Copy, Debug, PartialEq, Eq)]
pub struct Target {
    pub fun: u16,
    pub ty: Ty,
}

fn primitive_of(head: Option<&Head>) -> Option<Ty>
    ensures { result ≡ primitive_of (option_copied head.entry) }
{
    match head {
        None => None,
        Some(head) => match head.sort {
            Sort::Primitive(ty) => Some(ty),
            _ => None,
        },
    }
}

fn as_target(fun: u16, ty: Option<Ty>) -> Option<Target>
    ensures { result ≡ spec_forms.as_target fun ty }
{
    match ty {
        None => None,
        Some(ty) => Some(Target { fun, ty }),
    }
}

/// The primitive V-function that a name stands for.
pub(crate) fn target_of(scope: &Scope, meaning: Meaning) -> Option<Target>
    ensures { result ≡ spec_forms.target_of scope.now meaning }
{
    match meaning {
        Meaning::Shared(Entity::Function(g)) => as_target(g, primitive_of(scope.head_of(meaning))),
        _ => None,
    }
}

fn names_result(answer: &Option<Local>, name: &Name) -> bool
    ensures { result ≡ spec_forms.names_result answer.now name.now }
{
    match answer {
        None => false,
        Some(answer) => answer.name == *name,
    }
}

fn is_result_side(answer: &Option<Local>, e: &ExprTree) -> bool
    ensures { result ≡ spec_forms.is_result_side answer.now (text e.now) }
{
    match &e.node {
        ExprNode::Name(x) => names_result(answer, x),
        _ => false,
    }
}

fn is_result(answer: &Option<Local>, e: &ExprTree) -> bool
    ensures { result ≡ spec_forms.is_result answer.now (text e.now) }
{
    match &e.node {
        ExprNode::Binary(BinOp::Eq, a, _) => is_result_side(answer, a.get()),
        _ => false,
    }
}

fn either(a: bool, b: bool) -> bool
    ensures { result ≡ (a || b) }
{
    a || b
}

fn both(a: bool, b: bool) -> bool
    ensures { result ≡ (a && b) }
{
    a && b
}

// Whether some path through an effect has a result.
#[cycle(may)]
#[tactic(auto, using(crate::proofs::Lengths::effect_some))]
fn may(answer: &Option<Local>, w: &EffectTree) -> bool
    ensures { result ≡ spec_forms.may answer.now (effect_text w.now) }
{
    match w {
        EffectTree::Plain(e) => is_result(answer, e),
        EffectTree::If(_, _, a, b) => either(
            may_in(answer, a.as_slice()),
            may_in(answer, b.as_slice()),
        ),
        EffectTree::Forall(_, _, body) => may_in(answer, body.as_slice()),
    }
}

#[cycle(may)]
#[tactic(auto, using(crate::proofs::Lengths::effect_some))]
fn may_in(answer: &Option<Local>, ws: &[EffectTree]) -> bool
    ensures { result ≡ spec_forms.may_in answer.now (effect_texts_of (map effect_text ws.now)) }
{
    if let [first, rest @ ..] = ws {
        if may(answer, first) {
            return true;
        }
        return may_in(answer, rest);
    }
    false
}

/// Whether a result is taken on some path before what follows an effect.
pub(crate) fn taken_after(taken: bool, answer: &Option<Local>, w: &EffectTree) -> bool
    ensures { result ≡ (taken || spec_forms.may answer.now (effect_text w.now)) }
{
    either(taken, may(answer, w))
}

// Whether each path through an effect has a result.
#[cycle(must)]
#[tactic(auto, using(crate::proofs::Lengths::effect_some))]
fn must(answer: &Option<Local>, w: &EffectTree) -> bool
    ensures { result ≡ spec_forms.must answer.now (effect_text w.now) }
{
    match w {
        EffectTree::Plain(e) => is_result(answer, e),
        EffectTree::If(_, _, a, b) => both(
            must_in(answer, a.as_slice()),
            must_in(answer, b.as_slice()),
        ),
        EffectTree::Forall(_, _, _) => false,
    }
}

/// Whether each path through effects has a result.
#[cycle(must)]
#[tactic(auto, using(crate::proofs::Lengths::effect_some))]
pub(crate) fn must_in(answer: &Option<Local>, ws: &[EffectTree]) -> bool
    ensures { result ≡ spec_forms.must_in answer.now (effect_texts_of (map effect_text ws.now)) }
{
    if let [first, rest @ ..] = ws {
        if must(answer, first) {
            return true;
        }
        return must_in(answer, rest);
    }
    false
}
