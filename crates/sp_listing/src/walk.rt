//! The true changes of effects, one change of the text after the other.

ghost use Rattle.std.specs.Prelude.{◌≡◌, ◌≤◌, ◌++◌, ◌∷◌, [], OnOk, Some, length, map, slice_get};
ghost use Rattle.std.specs.List.{flat_map};
ghost use Rattle.sp_text.specs.declared.limits.TheConstants.{MOST_CHANGES};
ghost use Rattle.sp_values.specs.Domains.{proper_values};
ghost use Rattle.sp_core.specs.Effects as effects;
ghost use Rattle.sp_core.specs.Effects.{GuardedChange, changes, changes_in, effect_tree, effect_trees_of};
ghost use Rattle.sp_core.specs.States.{entry_of};
ghost use Rattle.sp_eval.specs.Settings.{sizes};
ghost use Rattle.sp_listing.specs.Conditions.{AreEffectsIn, IsBodyIn, IsEffectIn, machine};
ghost use Rattle.sp_listing.specs.True.{entries_at};

use crate::over::Over;
use sp_core::{Effect, Entry};
use sp_eval::{Env, population, proper, proper_law};
use sp_text::Memory;
use sp_values::{Place, Ty};

// How many changes stand in an effect.
#[cycle(counting)]
fn count(effect: &Effect) -> u32
    requires { length (changes (effect_tree effect.now)) ≤ MOST_CHANGES }
    ensures { result ≡ length (changes (effect_tree effect.now)) }
{
    match effect {
        Effect::Change(_, _, _) => 1,
        Effect::Answer(_) => 0,
        Effect::If(_, a, b) => count_all(a.as_slice()) + count_all(b.as_slice()),
        Effect::Every(_, _, body) => count_all(body.as_slice()),
    }
}

/// How many changes stand in effects.
#[cycle(counting)]
pub fn count_all(effects: &[Effect]) -> u32
    requires { length (changes_in (effect_trees_of (map effect_tree effects.now))) ≤ MOST_CHANGES }
    ensures { result ≡ length (changes_in (effect_trees_of (map effect_tree effects.now))) }
{
    let [first, rest @ ..] = effects else {
        return 0;
    };
    count(first) + count_all(rest)
}

impl<'a> Over<'a> {
    // Appends the entries of an effect's change of this number, in this environment.
    #[cycle(listing)]
    fn list_change(
        &self,
        env: &Env,
        effect: &Effect,
        number: u32,
        out: &mut Vec<Entry>,
    ) -> Result<(), Memory>
        requires { IsEffectIn self.now env.now (effect_tree effect.now) }
        ensures { OnOk result ((a : GuardedChange) → slice_get (changes (effect_tree effect.now)) number ≡ Some a → out.new.items ≡ out.old.items ++ entries_at (machine self.now) (entry_of self.now.old) (entry_of self.now.new) env.now a) }
    {
        let _ = &self.spec;
        match effect {
            Effect::Change(g, parts, value) => {
                let args = self.arguments(env, parts.as_slice());
                let value = self.value(env, value);
                let place = Place { fun: *g, args };
                out.push(Entry { place, value })?;
                Ok(())
            }
            Effect::Answer(_) => Ok(()),
            Effect::If(condition, then, otherwise) => {
                let count = count_all(then.as_slice());
                let holds = self.holds(env, condition);
                if number < count {
                    if !holds {
                        return Ok(());
                    }
                    self.list_among(env, then.as_slice(), number, out)
                } else {
                    if holds {
                        return Ok(());
                    }
                    self.list_among(env, otherwise.as_slice(), number - count, out)
                }
            }
            Effect::Every(_, ty, body) => {
                self.list_for_each(env, *ty, body.as_slice(), number, out)
            }
        }
    }

    /// Appends the entries of the change of this number, from 0 in text order, in this environment: for the bindings in
    /// order for which its guards are TRUE.
    ///
    /// # Errors
    /// `Memory` where there is no room for them.
    #[cycle(listing)]
    pub fn list_among(
        &self,
        env: &Env,
        effects: &[Effect],
        number: u32,
        out: &mut Vec<Entry>,
    ) -> Result<(), Memory>
        requires { AreEffectsIn self.now env.now (effect_trees_of (map effect_tree effects.now)) }
        ensures { OnOk result ((a : GuardedChange) → slice_get (changes_in (effect_trees_of (map effect_tree effects.now))) number ≡ Some a → out.new.items ≡ out.old.items ++ entries_at (machine self.now) (entry_of self.now.old) (entry_of self.now.new) env.now a) }
    {
        let [first, rest @ ..] = effects else {
            return Ok(());
        };
        let count = count(first);
        if number < count {
            self.list_change(env, first, number, out)
        } else {
            self.list_among(env, rest, number - count, out)
        }
    }

    // The same for each proper value of the type, put after the values of the environment.
    #[cycle(listing)]
    fn list_for_each(
        &self,
        env: &Env,
        ty: Ty,
        body: &[Effect],
        number: u32,
        out: &mut Vec<Entry>,
    ) -> Result<(), Memory>
        requires { IsBodyIn self.now env.now ty (effect_trees_of (map effect_tree body.now)) }
        ensures { OnOk result ((a : GuardedChange) → slice_get (changes_in (effect_trees_of (map effect_tree body.now))) number ≡ Some a → out.new.items ≡ out.old.items ++ flat_map (λ c. entries_at (machine self.now) (entry_of self.now.old) (entry_of self.now.new) (env.now ++ c ∷ []) a) (proper_values (sizes self.now) ty)) }
    {
        proper_law();
        for k in 0..population(self.spec, self.inst, ty) {
            self.list_among(&env.with(proper(ty, k)), body, number, out)?;
        }
        Ok(())
    }
}
