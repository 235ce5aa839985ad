//! The first rule or limit that the effects of a function break.

ghost use Rattle.std.specs.Prelude.{◌≡◌, ◌+◌, ◌<◌, length, map, IfOk};
ghost use Rattle.sp_text.specs.Violations.{first};
ghost use Rattle.sp_judge.specs.Translation.{AreFine};
ghost use Rattle.sp_effects.specs.EffectRules as spec_rules;
ghost use Rattle.sp_effects.specs.EffectText.{effect_binders_in, effect_text, effect_texts_of};

use crate::form::must_in;
use crate::judging::judge_effects;
use crate::places::judge_count;
use crate::quoting::push_effects;
use sp_cycles::first_cycle;
use sp_judge::Scope;
use sp_scopes::Local;
use sp_text::{Memory, Rule, Span, Violation, breaks, earlier, otherwise};
use sp_tree::EffectTree;
use std::alloc::Global;

// The first quoted reference that closes a cycle.
fn judge_cycles(
    alloc: Global,
    scope: &Scope,
    locals: &[Local],
    answer: &Option<Local>,
    ws: &[EffectTree],
) -> Result<Option<Violation>, Memory>
    requires fine { AreFine scope.now.cores }
    requires room { length locals.now + effect_binders_in (effect_texts_of (map effect_text ws.now)) < 4294967288 }
    ensures { IfOk result (λ r. r ≡ first (spec_rules.cycles_broken scope.now locals.now answer.now (effect_texts_of (map effect_text ws.now)))) }
{
    let mut quotes = Vec::new(alloc);
    push_effects(
        alloc,
        scope,
        locals.len() as u32,
        answer,
        0,
        locals,
        ws,
        &mut quotes,
    )?;
    first_cycle(alloc, &quotes)
}

fn missing_rule(place: Span, answer: &Option<Local>, ws: &[EffectTree]) -> Option<Violation>
    ensures { result ≡ first (spec_rules.missing_rule place answer.now (effect_texts_of (map effect_text ws.now))) }
{
    match answer {
        None => None,
        Some(_) => {
            if must_in(answer, ws) {
                None
            } else {
                breaks(place, Rule::ResultMissing)
            }
        }
    }
}

/// The first rule or limit that the effects of a function break, whose name stands at `place`: `formals` are its
/// formals, and `answer` the name and the type of its result, if it has one.
///
/// # Errors
/// `Memory` where what is around can't be stored.
pub fn judge_body(
    alloc: Global,
    scope: &Scope,
    place: Span,
    formals: &[Local],
    answer: &Option<Local>,
    ws: &[EffectTree],
) -> Result<Option<Violation>, Memory>
    requires fine { AreFine scope.now.cores }
    requires room { length formals.now + effect_binders_in (effect_texts_of (map effect_text ws.now)) < 4294967288 }
    ensures { IfOk result (λ r. r ≡ first (spec_rules.body_broken scope.now place formals.now answer.now (effect_texts_of (map effect_text ws.now)))) }
{
    let each = judge_effects(
        alloc,
        scope,
        formals.len() as u32,
        answer,
        0,
        formals,
        false,
        ws,
    )?;
    let cycles = judge_cycles(alloc, scope, formals, answer, ws)?;
    let inner = otherwise(earlier(each, cycles), missing_rule(place, answer, ws));
    Ok(earlier(inner, judge_count(alloc, scope, answer, formals, ws)?))
}
