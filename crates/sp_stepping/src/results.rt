//! The result of an OV-function: the value of the first result whose guards are TRUE.

ghost use Rattle.std.specs.Prelude.{◌≡◌, map};
ghost use Rattle.sp_core.specs.Effects.{effect_tree, effect_trees_of, results, results_in};
ghost use Rattle.sp_core.specs.States.{entry_of};
ghost use Rattle.sp_listing.specs.Conditions.{AreEffectsIn, IsEffectIn, machine};
ghost use Rattle.sp_stepping.specs.Moments.{first_result};

use sp_core::Effect;
use sp_eval::Env;
use sp_listing::Over;
use sp_values::Value;

// The value of the first true result of an effect.
#[cycle(results)]
fn first_of(over: &Over<'_>, env: &Env, effect: &Effect) -> Option<Value>
    requires { IsEffectIn over.now env.now (effect_tree effect.now) }
    ensures { result ≡ first_result (machine over.now) (entry_of over.now.old) (entry_of over.now.new) env.now (results (effect_tree effect.now)) }
{
    match effect {
        Effect::Change(_, _, _) => None,
        Effect::Answer(value) => Some(over.value(env, value)),
        Effect::If(condition, then, otherwise) => {
            if over.holds(env, condition) {
                first_among(over, env, then.as_slice())
            } else {
                first_among(over, env, otherwise.as_slice())
            }
        }
        Effect::Every(_, _, _) => None,
    }
}

/// The value of the first true result of effects, in text order.
#[cycle(results)]
pub fn first_among(over: &Over<'_>, env: &Env, effects: &[Effect]) -> Option<Value>
    requires { AreEffectsIn over.now env.now (effect_trees_of (map effect_tree effects.now)) }
    ensures { result ≡ first_result (machine over.now) (entry_of over.now.old) (entry_of over.now.new) env.now (results_in (effect_trees_of (map effect_tree effects.now))) }
{
    let [first, rest @ ..] = effects else {
        return None;
    };
    match first_of(over, env, first) {
        Some(value) => Some(value),
        None => first_among(over, env, rest),
    }
}
