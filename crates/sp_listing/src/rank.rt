//! The true changes of one rank.

ghost use Rattle.std.specs.Prelude.{◌≡◌, ◌++◌, ◌==◌, [], IfOk, OnOk, Some, if◌then◌else◌, map, slice_get};
ghost use Rattle.sp_core.specs.Effects.{GuardedChange, changes_in, effect_tree, effect_trees_of};
ghost use Rattle.sp_core.specs.Ranks.{change_rank, of_rank};
ghost use Rattle.sp_core.specs.States.{entry_of};
ghost use Rattle.sp_listing.specs.Conditions.{AreEffectsIn, machine};
ghost use Rattle.sp_listing.specs.True.{entries_at, true_entries};

use crate::over::Over;
use crate::walk::count_all;
use sp_core::{Effect, Entry};
use sp_eval::Env;
use sp_text::Memory;
use sp_values::Invocation;
use std::alloc::Global;

impl<'a> Over<'a> {
    // Appends the entries of the change of this number where its own rank is this one.
    fn list_if(
        &self,
        env: &Env,
        effects: &[Effect],
        number: u32,
        own: u16,
        rank: u16,
        out: &mut Vec<Entry>,
    ) -> Result<(), Memory>
        requires { AreEffectsIn self.now env.now (effect_trees_of (map effect_tree effects.now)) }
        ensures { OnOk result ((a : GuardedChange) → slice_get (changes_in (effect_trees_of (map effect_tree effects.now))) number ≡ Some a → out.new.items ≡ out.old.items ++ (if own == rank then entries_at (machine self.now) (entry_of self.now.old) (entry_of self.now.new) env.now a else [])) }
    {
        if own != rank {
            return Ok(());
        }
        self.list_among(env, effects, number, out)
    }

    /// The entries of the true changes of a rank, in text order, and for each change the bindings of its variables in
    /// lexicographic order. The ranks are those of the changes, in text order.
    ///
    /// # Errors
    /// `Memory` where they can't be listed.
    pub fn list_rank(
        &self,
        alloc: Global,
        i: &Invocation,
        effects: &[Effect],
        ranks: &[u16],
        rank: u16,
    ) -> Result<Vec<Entry>, Memory>
        requires effects { AreEffectsIn self.now i.now.args (effect_trees_of (map effect_tree effects.now)) }
        requires ranks { ranks.now ≡ map (λ a. change_rank (changes_in (effect_trees_of (map effect_tree effects.now))) a.fun) (changes_in (effect_trees_of (map effect_tree effects.now))) }
        ensures { IfOk result (λ es. es.items ≡ true_entries (machine self.now) (entry_of self.now.old) (entry_of self.now.new) i.now (of_rank (changes_in (effect_trees_of (map effect_tree effects.now))) rank)) }
    {
        let env = Env::new(&i.args);
        let mut out = Vec::new(alloc);
        for number in 0..count_all(effects) {
            self.list_if(
                &env,
                effects,
                number,
                ranks[number as usize],
                rank,
                &mut out,
            )?;
        }
        Ok(out)
    }
}
