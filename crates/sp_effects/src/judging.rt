//! The first rule that effects break by themselves.

ghost use Rattle.std.specs.Prelude.{◌≡◌, ◌+◌, ◌<◌, ◌^◌, [], nat_lt, if◌then◌else◌, length, map, IfOk};
ghost use Rattle.sp_text.specs.Violations.{exceeds as spec_exceeds, first};
ghost use Rattle.sp_text.specs.declared.fault.Quantity.TheVariants as quantity;
ghost use Rattle.sp_text.specs.declared.limits.TheConstants.{MOST_BOUND_VARIABLES};
ghost use Rattle.sp_judge.specs.Translation.{AreFine};
ghost use Rattle.sp_effects.specs.EffectRules as spec_rules;
ghost use Rattle.sp_effects.specs.EffectText.{effect_binders, effect_binders_in, effect_text, effect_texts_of};

use crate::change::{judge_plain, judge_whole};
use crate::form::taken_after;
use sp_judge::{Scope, Site, extend, formal_rules};
use sp_scopes::Local;
use sp_text::{
    MOST_BOUND_VARIABLES, Memory, Name, Quantity, Span, Violation, earlier, exceeds, otherwise,
};
use sp_tree::{EffectTree, FormalTree};
use sp_values::Ty;
use std::alloc::Global;

fn bound_rule(bound: u32, place: Span) -> Option<Violation>
    ensures { result ≡ first (if nat_lt bound MOST_BOUND_VARIABLES then [] else spec_exceeds place quantity.BoundVariables) }
{
    if bound < MOST_BOUND_VARIABLES {
        None
    } else {
        exceeds(place, Quantity::BoundVariables)
    }
}

fn bound_rules(
    scope: &Scope,
    bound: u32,
    locals: &[Local],
    formal: &FormalTree,
) -> Option<Violation>
    ensures { result ≡ first (spec_rules.bound_rules scope.now bound locals.now formal.now) }
{
    earlier(
        formal_rules(scope, locals, formal),
        bound_rule(bound, formal.name.span),
    )
}

/// The first rule that the variables of a FORALL effect break.
pub(crate) fn judge_formals(
    alloc: Global,
    scope: &Scope,
    bound: u32,
    locals: &[Local],
    formals: &[FormalTree],
) -> Result<Option<Violation>, Memory>
    requires { bound + length formals.now < 2 ^ 32 }
    ensures { IfOk result (λ r. r ≡ first (spec_rules.all_bound scope.now bound locals.now formals.now)) }
{
    if let [formal, formals @ ..] = formals {
        let own = bound_rules(scope, bound, locals, formal);
        let around = extend(alloc, scope, locals, formal)?;
        let others = judge_formals(alloc, scope, bound + 1, &around, formals)?;
        return Ok(earlier(own, others));
    }
    Ok(None)
}

fn copies(alloc: Global, locals: &[Local]) -> Result<Vec<Local>, Memory>
    ensures { IfOk result (λ all. all.items ≡ locals.now) }
{
    let mut all = Vec::new(alloc);
    for local in locals {
        all.push(Local {
            name: Name::new(alloc, local.name.bytes())?,
            ty: local.ty,
        })?;
    }
    Ok(all)
}

/// The variables and those of a FORALL effect.
pub(crate) fn extend_all(
    alloc: Global,
    scope: &Scope,
    locals: &[Local],
    formals: &[FormalTree],
) -> Result<Vec<Local>, Memory>
    ensures { IfOk result (λ all. all.items ≡ spec_rules.with_formals scope.now locals.now formals.now) }
{
    if let [formal, formals @ ..] = formals {
        let around = extend(alloc, scope, locals, formal)?;
        return extend_all(alloc, scope, &around, formals);
    }
    copies(alloc, locals)
}

// The first rule that an effect breaks. FORALL effects bind `bound` variables around it, and `taken` says whether a
// result would be a second one.
#[cycle(effects)]
#[tactic(auto, using(crate::proofs::Lengths::formals_length, crate::proofs::Lengths::effect_some))]
fn judge_effect(
    alloc: Global,
    scope: &Scope,
    formals: u32,
    answer: &Option<Local>,
    bound: u32,
    locals: &[Local],
    taken: bool,
    w: &EffectTree,
) -> Result<Option<Violation>, Memory>
    requires fine { AreFine scope.now.cores }
    requires room { length locals.now + effect_binders (effect_text w.now) < 4294967288 }
    requires few { formals + bound + effect_binders (effect_text w.now) < 2 ^ 32 }
    ensures { IfOk result (λ r. r ≡ first (spec_rules.effect_broken scope.now formals answer.now bound locals.now taken (effect_text w.now))) }
{
    match w {
        EffectTree::Plain(e) => judge_plain(alloc, scope, formals, answer, bound, locals, taken, e),
        EffectTree::If(_, c, a, b) => {
            let guard = judge_whole(alloc, scope, Site::Guard, locals, Some(Ty::Boolean), c)?;
            let left = judge_effects(
                alloc,
                scope,
                formals,
                answer,
                bound,
                locals,
                taken,
                a.as_slice(),
            )?;
            let right = judge_effects(
                alloc,
                scope,
                formals,
                answer,
                bound,
                locals,
                taken,
                b.as_slice(),
            )?;
            Ok(earlier(guard, earlier(left, right)))
        }
        EffectTree::Forall(_, variables, body) => {
            let variables = variables.items();
            let rules = judge_formals(alloc, scope, bound, locals, variables)?;
            let around = extend_all(alloc, scope, locals, variables)?;
            let deeper = bound + variables.len() as u32;
            let inner = judge_effects(
                alloc,
                scope,
                formals,
                answer,
                deeper,
                &around,
                true,
                body.as_slice(),
            )?;
            Ok(otherwise(rules, inner))
        }
    }
}

/// The first rule that effects break, each by itself.
///
/// # Errors
/// `Memory` where what is around can't be stored.
#[cycle(effects)]
pub(crate) fn judge_effects(
    alloc: Global,
    scope: &Scope,
    formals: u32,
    answer: &Option<Local>,
    bound: u32,
    locals: &[Local],
    taken: bool,
    ws: &[EffectTree],
) -> Result<Option<Violation>, Memory>
    requires fine { AreFine scope.now.cores }
    requires room { length locals.now + effect_binders_in (effect_texts_of (map effect_text ws.now)) < 4294967288 }
    requires few { formals + bound + effect_binders_in (effect_texts_of (map effect_text ws.now)) < 2 ^ 32 }
    ensures { IfOk result (λ r. r ≡ first (spec_rules.effects_broken scope.now formals answer.now bound locals.now taken (effect_texts_of (map effect_text ws.now)))) }
{
    let mut found = None;
    let mut after = taken;
    for w in ws {
        let one = judge_effect(alloc, scope, formals, answer, bound, locals, after, w)?;
        found = earlier(found, one);
        after = taken_after(after, answer, w);
    }
    Ok(found)
}
