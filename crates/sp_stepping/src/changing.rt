//! The changes of an invocation, made rank by rank over a state that they aren't written to yet.

ghost use Rattle.std.specs.Prelude.{◌≡◌, ◌<◌, ◌+◌, IfErr, IfOk};
ghost use Rattle.sp_core.specs.Machine.{IsResult};
ghost use Rattle.sp_core.specs.Effects.{results_in};
ghost use Rattle.sp_core.specs.Measures.{HaveResults};
ghost use Rattle.sp_core.specs.Ranks.{of_rank, rank_count};
ghost use Rattle.sp_core.specs.States.{entry_of};
ghost use Rattle.sp_listing.specs.Listing.{AreAlike};
ghost use Rattle.sp_listing.specs.True.{true_entries};
ghost use Rattle.sp_stepping.specs.Moments as moment;
ghost use Rattle.sp_stepping.specs.Moments.{AreMade, IsMoment, changes, laid, machine, trees};
ghost use Rattle.sp_stepping.specs.Stepping.{IsChangeFault};

use crate::fault::StepFault;
use crate::results::first_among;
use sp_core::laws::result_law;
use sp_core::{Effect, Entry, Instance, Spec, State};
use sp_eval::{Env, overlay_law};
use sp_listing::{ListFault, Listed, Over, changed_law, entries_law, fresh, list_all, order_law};
use sp_ranks::count_ranks;
use sp_text::Memory;
use sp_values::{Invocation, Value};
use std::alloc::Global;
use std::marker::Model;

/// An invocation in a state that may have so many more entries, with the effects of its function and the ranks of their
/// changes.
#[derive(Drop)]
pub struct Changing<'a> {
    spec: &'a Spec,
    inst: &'a Instance,
    state: &'a State,
    room: u64,
    invocation: &'a Invocation,
    effects: &'a [Effect],
    ranks: &'a [u16],
}

impl<'a> Model for Changing<'a> {
    ghost use Rattle.std.specs.Coded.{codes};
    ghost use Rattle.sp_core.specs.contracts.expr.Expr as expr;
    ghost use Rattle.sp_core.specs.contracts.function.Effect as effect;
    ghost use Rattle.sp_stepping.specs.Moments.{IsMoment, Moment};

    ghost Value = { Moment };

    ghost coded = { Prim.hlevel (codes, expr.the_row.coded, effect.the_row.coded) };

    ghost view = { λ a. record { parts = a.spec.now; instance = a.inst.now; entries = a.state.now.entries; room = a.room; invocation = a.invocation.now; effects = a.effects.now; ranks = a.ranks.now } };

    ghost invariant = { λ a. IsMoment (record { parts = a.spec.now; instance = a.inst.now; entries = a.state.now.entries; room = a.room; invocation = a.invocation.now; effects = a.effects.now; ranks = a.ranks.now }) };
}

impl<'a> Changing<'a> {
    /// The invocation in this state.
    pub fn new(
        spec: &'a Spec,
        inst: &'a Instance,
        state: &'a State,
        room: u64,
        invocation: &'a Invocation,
        effects: &'a [Effect],
        ranks: &'a [u16],
    ) -> Changing<'a>
        requires { IsMoment (record { parts = spec.now; instance = inst.now; entries = state.now.entries; room = room; invocation = invocation.now; effects = effects.now; ranks = ranks.now }) }
        ensures value { result ≡ record { parts = spec.now; instance = inst.now; entries = state.now.entries; room = room; invocation = invocation.now; effects = effects.now; ranks = ranks.now } }
    {
        Changing {
            spec,
            inst,
            state,
            room,
            invocation,
            effects,
            ranks,
        }
    }

    // The entries of the true changes of a rank, where those of the ranks below it are made.
    fn list(&self, alloc: Global, rank: u16, made: &Listed) -> Result<Vec<Entry>, Memory>
        requires { AreMade self.now rank made.now }
        ensures { IfOk result (λ es. es.items ≡ true_entries (machine self.now) (moment.state self.now) (laid self.now made.now) self.now.invocation (of_rank (changes self.now) rank)) }
    {
        overlay_law();
        let over = Over::new(self.spec, self.inst, self.state, made);
        over.list_rank(alloc, self.invocation, self.effects, self.ranks, rank)
    }

    // The true changes of a rank, as long as none gives a place of an earlier one another value.
    fn judge(&self, alloc: Global, rank: u16, made: &Listed) -> Result<Listed, StepFault>
        requires made { AreMade self.now rank made.now }
        requires rank { rank < rank_count (changes self.now) }
        ensures alike { IfOk result (λ next. AreAlike (true_entries (machine self.now) (moment.state self.now) (laid self.now made.now) self.now.invocation (of_rank (changes self.now) rank))) }
        ensures same { IfOk result (λ next. entry_of next ≡ entry_of (true_entries (machine self.now) (moment.state self.now) (laid self.now made.now) self.now.invocation (of_rank (changes self.now) rank))) }
        ensures fault { IfErr result (IsChangeFault (machine self.now) (moment.state self.now) self.now.invocation (changes self.now)) }
    {
        let entries = self.list(alloc, rank, made)?;
        match list_all(alloc, &entries) {
            Ok(next) => Ok(next),
            Err(ListFault::Conflict(place, first, second)) => Err(StepFault::Conflict {
                place,
                first,
                second,
            }),
            Err(ListFault::Memory) => Err(StepFault::Memory),
        }
    }

    // Makes the changes of a rank.
    fn make_rank(&self, alloc: Global, rank: u16, made: Listed) -> Result<Listed, StepFault>
        requires made { AreMade self.now rank made }
        requires rank { rank < rank_count (changes self.now) }
        ensures made { IfOk result (AreMade self.now (rank + 1)) }
        ensures fault { IfErr result (IsChangeFault (machine self.now) (moment.state self.now) self.now.invocation (changes self.now)) }
    {
        order_law();
        changed_law();
        entries_law();
        let next = self.judge(alloc, rank, &made)?;
        let both = made.lay(next)?;
        if fresh(&both, self.state) > self.room {
            return Err(StepFault::StateFull);
        }
        Ok(both)
    }

    /// Makes the changes of all ranks.
    ///
    /// # Errors
    /// `Conflict` and `StateFull` at the first rank that has one; `Memory` where the changes can't be listed.
    pub fn make(&self, alloc: Global) -> Result<Listed, StepFault>
        ensures made { IfOk result (AreMade self.now (rank_count (changes self.now))) }
        ensures fault { IfErr result (IsChangeFault (machine self.now) (moment.state self.now) self.now.invocation (changes self.now)) }
    {
        let mut made = Listed::new(alloc);
        for rank in 0..count_ranks(self.ranks) {
            made = self.make_rank(alloc, rank as u16, made)?;
        }
        Ok(made)
    }

    /// The value of the one result, where all changes are made.
    pub fn result(&self, made: &Listed) -> Value
        requires made { AreMade self.now (rank_count (changes self.now)) made.now }
        requires results { HaveResults 1 (trees self.now) }
        ensures { IsResult (machine self.now) (moment.state self.now) (laid self.now made.now) self.now.invocation (results_in (trees self.now)) result }
    {
        overlay_law();
        result_law();
        let over = Over::new(self.spec, self.inst, self.state, made);
        match first_among(&over, &Env::new(&self.invocation.args), self.effects) {
            Some(value) => value,
            None => unreachable!(),
        }
    }
}
