//! What changes are evaluated over, and the parts of one change.

ghost use Rattle.std.specs.Prelude.{◌≡◌, ◌++◌, map};
ghost use Rattle.sp_core.specs.Machine.{value_at};
ghost use Rattle.sp_core.specs.States.{entry_of};
ghost use Rattle.sp_core.specs.Tree.{tree, trees_of};
ghost use Rattle.sp_core.specs.Values as meaning;
ghost use Rattle.sp_eval.specs.Settings.{IsSetting, tree_value, tree_values};
ghost use Rattle.sp_listing.specs.Conditions.{AreArgumentsIn, IsConditionIn, IsNewValueIn, machine};

use crate::listed::Listed;
use sp_core::{Expr, Instance, Spec, State};
use sp_eval::{Env, Overlay, eval, eval_over, is_true};
use sp_values::{Args, Value};
use std::marker::Model;

/// What changes are evaluated over: a specification with an instance, the old state, and as the new one the changes so far
/// laid over it.
#[derive(Drop)]
pub struct Over<'a> {
    pub(crate) spec: &'a Spec,
    pub(crate) inst: &'a Instance,
    state: &'a State,
    below: &'a Listed,
}

impl<'a> Model for Over<'a> {
    ghost use Rattle.std.specs.Prelude.{◌++◌};
    ghost use Rattle.std.specs.Coded.{codes};
    ghost use Rattle.sp_core.specs.contracts.expr.Expr as expr;
    ghost use Rattle.sp_core.specs.contracts.function.Effect as effect;
    ghost use Rattle.sp_eval.specs.Settings.{IsSetting, Setting};

    ghost Value = { Setting };

    ghost coded = { Prim.hlevel (codes, expr.the_row.coded, effect.the_row.coded) };

    ghost view = { λ a. record { parts = a.spec.now; instance = a.inst.now; old = a.state.now.entries; new = a.below.now ++ a.state.now.entries } };

    ghost invariant = { λ a. IsSetting (record { parts = a.spec.now; instance = a.inst.now; old = a.state.now.entries; new = a.below.now ++ a.state.now.entries }) };
}

impl<'a> Over<'a> {
    /// Over this state, with these changes laid over it.
    pub fn new(spec: &'a Spec, inst: &'a Instance, state: &'a State, below: &'a Listed) -> Over<'a>
        requires { IsSetting (record { parts = spec.now; instance = inst.now; old = state.now.entries; new = below.now ++ state.now.entries }) }
        ensures value { result ≡ record { parts = spec.now; instance = inst.now; old = state.now.entries; new = below.now ++ state.now.entries } }
    {
        Over {
            spec,
            inst,
            state,
            below,
        }
    }

    /// Whether a condition is TRUE in the old state.
    pub fn holds(&self, env: &Env, condition: &Expr) -> bool
        requires { IsConditionIn self.now env.now (tree condition.now) }
        ensures { result ≡ meaning.is_true (value_at (machine self.now) (entry_of self.now.old) env.now (tree condition.now)) }
    {
        is_true(eval(self.spec, self.inst, self.state, env, condition))
    }

    /// The value of an expression that may read new values.
    pub fn value(&self, env: &Env, e: &Expr) -> Value
        requires { IsNewValueIn self.now env.now (tree e.now) }
        ensures { result ≡ tree_value self.now env.now (tree e.now) }
    {
        let new = Overlay {
            changes: self.below,
            state: self.state,
        };
        eval_over(self.spec, self.inst, self.state, &new, env, e)
    }

    // The values of the arguments of a change.
    pub(crate) fn arguments(&self, env: &Env, parts: &[Expr]) -> Args
        requires { AreArgumentsIn self.now env.now (trees_of (map tree parts.now)) }
        ensures { result ≡ tree_values self.now env.now (trees_of (map tree parts.now)) }
    {
        let mut args = Args::new(&[]);
        for part in parts {
            args.push(self.value(env, part));
        }
        args
    }
}
