//! The core effects of a function.

ghost use Rattle.std.specs.Prelude.{◌≡◌, ◌+◌, ◌<◌, length, map, IsSome};
ghost use Rattle.sp_text.specs.Violations.{Judges};
ghost use Rattle.sp_core.specs.Effects.{EffectTrees, effect_tree, effect_trees_of};
ghost use Rattle.sp_judge.specs.Translation.{AreFine};
ghost use Rattle.sp_effects.specs.EffectCore.{effects_core};
ghost use Rattle.sp_effects.specs.EffectRules.{body_broken};
ghost use Rattle.sp_effects.specs.EffectText.{effect_binders_in, effect_text, effect_texts_of};
ghost use Rattle.sp_effects.specs.Made.{IsBuilt};

use sp_core::Effect;
use sp_effects::{Effects, judge_body, translate_effects};
use sp_judge::Scope;
use sp_scopes::Local;
use sp_text::{Span, TextFault};
use sp_tree::EffectTree;
use sqlite_items::Items;
use std::alloc::Global;

fn taken(made: Effects) -> Items<Effect>
    requires { IsSome made.effects }
    ensures { (ws : EffectTrees) → IsBuilt ws made → effect_trees_of (map effect_tree result) ≡ ws }
{
    made.effects.unwrap()
}

/// The core effects that the effects of a function stand for, whose name stands at `place`, where they break no rule
/// and no limit: `formals` are its formals, and `answer` the name and the type of its result, if it has one.
///
/// # Errors
/// The first rule or limit that they break; `Memory` where they can't be stored.
pub fn make_effects(
    alloc: Global,
    scope: &Scope,
    place: Span,
    formals: &[Local],
    answer: &Option<Local>,
    ws: &[EffectTree],
) -> Result<Items<Effect>, TextFault>
    requires fine { AreFine scope.now.cores }
    requires room { length formals.now + effect_binders_in (effect_texts_of (map effect_text ws.now)) < 4294967288 }
    ensures { Judges (body_broken scope.now place formals.now answer.now (effect_texts_of (map effect_text ws.now)))
        (λ es. effect_trees_of (map effect_tree es) ≡ effects_core scope.now answer.now formals.now (effect_texts_of (map effect_text ws.now))) result }
{
    match judge_body(alloc, scope, place, formals, answer, ws)? {
        Some(found) => Err(TextFault::from(found)),
        None => {
            let made = translate_effects(alloc, scope, answer, formals, ws)?;
            Ok(taken(made))
        }
    }
}
