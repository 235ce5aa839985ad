ghost use Rattle.std.specs.Prelude.{◌≡◌, ◌<◌};
ghost use Rattle.sp_core.specs.Instances.{IsInstanceOf, filling_of, machine_of, world_of};
ghost use Rattle.sp_core.specs.Machine.{IsInvocation, IsState, level_of};
ghost use Rattle.sp_core.specs.States.{entry_of};
ghost use Rattle.sp_core.specs.Tree.{tree};
ghost use Rattle.sp_core.specs.Values as meaning;
ghost use Rattle.sp_core.specs.Values.{value_in, value_over};
ghost use Rattle.sp_eval.specs.Conditions.{HasItsType, HasNoNew, HasTypeOfRead, IsGiven, IsRead, IsTypedIn};

use crate::domains::level_number;
use crate::entries::{Entries, InitialState};
use crate::env::Env;
use crate::evaluator::Evaluator;
use sp_core::{Expr, Instance, Spec, State};
use sp_values::{Invocation, Place, Value};

/// The value of an expression in a state.
pub fn eval(spec: &Spec, inst: &Instance, state: &State, env: &Env, e: &Expr) -> Value
    requires given { IsGiven spec.now inst.now state.now.entries }
    requires typed { IsTypedIn spec.now inst.now env.now (tree e.now) }
    requires no_new { HasNoNew (tree e.now) }
    ensures value { result ≡ value_in (world_of spec.now (filling_of inst.now)) spec.now.functions (entry_of state.now.entries) env.now (tree e.now) }
    ensures typed { HasItsType spec.now inst.now env.now (tree e.now) result }
{
    eval_new(spec, inst, state, state, env, e)
}

/// The value of an expression over an old and a new state.
pub fn eval_new(
    spec: &Spec,
    inst: &Instance,
    old: &State,
    new: &State,
    env: &Env,
    e: &Expr,
) -> Value
    requires old { IsGiven spec.now inst.now old.now.entries }
    requires new { IsGiven spec.now inst.now new.now.entries }
    requires typed { IsTypedIn spec.now inst.now env.now (tree e.now) }
    ensures value { result ≡ value_over (world_of spec.now (filling_of inst.now)) spec.now.functions (entry_of old.now.entries) (entry_of new.now.entries) env.now (tree e.now) }
    ensures typed { HasItsType spec.now inst.now env.now (tree e.now) result }
{
    eval_over(spec, inst, old, new, env, e)
}

/// The value of an expression over an old and a new state, however their entries are looked up. An `Overlay` is a state
/// with changes that aren't written to it.
pub fn eval_over<B: Entries, N: Entries>(
    spec: &Spec,
    inst: &Instance,
    old: &B,
    new: &N,
    env: &Env,
    e: &Expr,
) -> Value
    requires instance { IsInstanceOf spec.now inst.now }
    requires old { IsState (machine_of spec.now (filling_of inst.now)) (entry_of (B.entries old.now)) }
    requires new { IsState (machine_of spec.now (filling_of inst.now)) (entry_of (N.entries new.now)) }
    requires typed { IsTypedIn spec.now inst.now env.now (tree e.now) }
    ensures value { result ≡ value_over (world_of spec.now (filling_of inst.now)) spec.now.functions (entry_of (B.entries old.now)) (entry_of (N.entries new.now)) env.now (tree e.now) }
    ensures typed { HasItsType spec.now inst.now env.now (tree e.now) result }
{
    let bound = spec.functions().len() + 1;
    Evaluator::new(spec, inst, old, new).value(bound, env, e)
}

/// What a state gives at a V-function with values of its formals' types: of a primitive one its entry, or else its initial
/// value, and of a derived one the value of its derivation.
pub fn look(spec: &Spec, inst: &Instance, state: &State, p: &Place) -> Value
    requires given { IsGiven spec.now inst.now state.now.entries }
    requires place { IsRead spec.now inst.now p.now.fun p.now.args }
    ensures value { result ≡ meaning.look (world_of spec.now (filling_of inst.now)) spec.now.functions (entry_of state.now.entries) p.now.fun p.now.args }
    ensures typed { HasTypeOfRead spec.now inst.now p.now.fun p.now.args result }
{
    let bound = spec.functions().len() + 1;
    Evaluator::new(spec, inst, state, state).look(bound, p)
}

/// The level of an invocation. No state bears on it.
pub fn level<'a>(spec: &'a Spec, inst: &'a Instance, i: &Invocation) -> u16
    requires instance { IsInstanceOf spec.now inst.now }
    requires invocation { IsInvocation (machine_of spec.now (filling_of inst.now)) i.now }
    ensures value { result ≡ level_of (machine_of spec.now (filling_of inst.now)) i.now.fun i.now.args }
    ensures level { result < spec.now.lattice.count }
{
    let function = &spec.functions()[i.fun as usize];
    let evaluator = Evaluator::new(spec, inst, &InitialState, &InitialState);
    level_number(evaluator.value(0, &Env::new(&i.args), &function.level))
}
