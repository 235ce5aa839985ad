//! Where the changes of a function stand.

ghost use Rattle.std.specs.Prelude.{◌≡◌, ◌++◌, ◌∷◌, [], ◌<◌, ◌+◌, ◌^◌, length, map, OnOk, IfOk};
ghost use Rattle.sp_text.specs.Violations.{first};
ghost use Rattle.sp_text.specs.declared.limits.TheConstants.{MOST_CHANGES};
ghost use Rattle.sp_plain.specs.Text.{text};
ghost use Rattle.sp_judge.specs.Translation.{binders};
ghost use Rattle.sp_effects.specs.EffectRules as spec_rules;
ghost use Rattle.sp_effects.specs.EffectText.{effect_binders, effect_binders_in, effect_text, effect_texts_of};
ghost use Rattle.sp_effects.specs.Forms as spec_forms;

use crate::form::target_of;
use crate::judging::extend_all;
use sp_judge::{Scope, find};
use sp_plain::span_of;
use sp_scopes::Local;
use sp_text::{MOST_CHANGES, Memory, Quantity, Span, Violation, exceeds};
use sp_tree::{BinOp, EffectTree, ExprNode, ExprTree};
use sqlite_items::at;
use std::alloc::Global;

fn push_place(place: Span, out: &mut Vec<Span>) -> Result<(), Memory>
    ensures { OnOk result (out.new.items ≡ out.old.items ++ place ∷ []) }
{
    out.push(place)?;
    Ok(())
}

// Appends the place of an equation, where it is a change.
#[tactic(auto, using(crate::proofs::Appended::nothing, crate::proofs::Appended::result_change))]
fn push_equation(
    scope: &Scope,
    answer: &Option<Local>,
    locals: &[Local],
    e: &ExprTree,
    a: &ExprTree,
    v: &ExprTree,
    out: &mut Vec<Span>,
) -> Result<(), Memory>
    requires { length locals.now < 2 ^ 32 }
    ensures { OnOk result (out.new.items ≡ out.old.items ++ spec_rules.form_change (text e.now) (spec_forms.equation_form scope.now locals.now answer.now (text a.now) (text v.now))) }
{
    let _ = answer;
    let _ = v;
    match &a.node {
        ExprNode::New(f, _) => match target_of(scope, find(scope, locals, &f.name)) {
            None => Ok(()),
            Some(_) => push_place(span_of(e), out),
        },
        _ => Ok(()),
    }
}

#[tactic(auto, using(crate::proofs::Appended::nothing))]
fn push_plain(
    scope: &Scope,
    answer: &Option<Local>,
    locals: &[Local],
    e: &ExprTree,
    out: &mut Vec<Span>,
) -> Result<(), Memory>
    requires { length locals.now < 2 ^ 32 }
    ensures { OnOk result (out.new.items ≡ out.old.items ++ spec_rules.form_change (text e.now) (spec_forms.form scope.now locals.now answer.now (text e.now))) }
{
    match &e.node {
        ExprNode::Binary(BinOp::Eq, a, v) => {
            push_equation(scope, answer, locals, e, a.get(), v.get(), out)
        }
        _ => Ok(()),
    }
}

// Appends the places of the changes in an effect.
#[cycle(places)]
#[tactic(auto, using(crate::proofs::Lengths::formals_length, crate::proofs::Lengths::effect_some, crate::proofs::Appended::nothing, crate::proofs::Appended::twice))]
fn push_effect(
    alloc: Global,
    scope: &Scope,
    answer: &Option<Local>,
    locals: &[Local],
    w: &EffectTree,
    out: &mut Vec<Span>,
) -> Result<(), Memory>
    requires { length locals.now + effect_binders (effect_text w.now) < 2 ^ 32 }
    ensures { OnOk result (out.new.items ≡ out.old.items ++ spec_rules.change_places scope.now answer.now locals.now (effect_text w.now)) }
{
    match w {
        EffectTree::Plain(e) => push_plain(scope, answer, locals, e, out),
        EffectTree::If(_, _, a, b) => {
            push_effects(alloc, scope, answer, locals, a.as_slice(), out)?;
            push_effects(alloc, scope, answer, locals, b.as_slice(), out)
        }
        EffectTree::Forall(_, variables, body) => {
            let variables = variables.items();
            let around = extend_all(alloc, scope, locals, variables)?;
            push_effects(alloc, scope, answer, &around, body.as_slice(), out)
        }
    }
}

#[cycle(places)]
fn push_effects(
    alloc: Global,
    scope: &Scope,
    answer: &Option<Local>,
    locals: &[Local],
    ws: &[EffectTree],
    out: &mut Vec<Span>,
) -> Result<(), Memory>
    requires { length locals.now + effect_binders_in (effect_texts_of (map effect_text ws.now)) < 2 ^ 32 }
    ensures { OnOk result (out.new.items ≡ out.old.items ++ spec_rules.change_places_in scope.now answer.now locals.now (effect_texts_of (map effect_text ws.now))) }
{
    for w in ws {
        push_effect(alloc, scope, answer, locals, w, out)?;
    }
    Ok(())
}

// The place after so many, if there is one.
#[tactic(auto, using(crate::proofs::Beyond::beyond_some, crate::proofs::Beyond::beyond_none))]
fn beyond(places: &[Span]) -> Option<Violation>
    ensures { result ≡ first (spec_rules.beyond MOST_CHANGES places.now) }
{
    match at(places, MOST_CHANGES as usize) {
        Some(place) => exceeds(*place, Quantity::Changes),
        None => None,
    }
}

/// The first change over their greatest number.
///
/// # Errors
/// `Memory` where the changes can't be listed.
pub(crate) fn judge_count(
    alloc: Global,
    scope: &Scope,
    answer: &Option<Local>,
    locals: &[Local],
    ws: &[EffectTree],
) -> Result<Option<Violation>, Memory>
    requires { length locals.now + effect_binders_in (effect_texts_of (map effect_text ws.now)) < 2 ^ 32 }
    ensures { IfOk result (λ r. r ≡ first (spec_rules.beyond MOST_CHANGES (spec_rules.change_places_in scope.now answer.now locals.now (effect_texts_of (map effect_text ws.now))))) }
{
    let mut places = Vec::new(alloc);
    push_effects(alloc, scope, answer, locals, ws, &mut places)?;
    Ok(beyond(&places))
}
