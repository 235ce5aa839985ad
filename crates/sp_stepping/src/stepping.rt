//! The step: exceptions in order, then the changes, then the answer.

ghost use Rattle.std.specs.Prelude.{◌≡◌, ◌≤◌, ◌+◌, IfErr, IfOk, OnErr, OnOk, length, map};
ghost use Rattle.std.specs.List.{position_from};
ghost use Rattle.sp_text.specs.declared.limits.TheConstants.{MOST_CHANGED_PLACES, MOST_EXCEPTIONS};
ghost use Rattle.sp_core.specs.Effects.{changes_in, effect_tree, effect_trees_of, results_in};
ghost use Rattle.sp_core.specs.Instances.{filling_of, machine_of};
ghost use Rattle.sp_core.specs.Machine.{IsInvocation, IsResult, IsState, value_at};
ghost use Rattle.sp_core.specs.Measures.{HaveResults};
ghost use Rattle.sp_core.specs.States.{AreApart, entry_of};
ghost use Rattle.sp_core.specs.Tree.{tree};
ghost use Rattle.sp_core.specs.Values as meaning;
ghost use Rattle.sp_eval.specs.Conditions.{IsGiven};
ghost use Rattle.sp_eval.specs.Overlays.{overlay};
ghost use Rattle.sp_listing.specs.Listing as listing;
ghost use Rattle.sp_stepping.specs.Moments.{AreChangedWithin, AreConditions, IsCall};
ghost use Rattle.sp_stepping.specs.Stepping.{IsChangeFault, IsStepFault, StepsWithin};

use crate::changing::Changing;
use crate::fault::StepFault;
use sp_core::{Answer, Effect, Expr, Instance, Kind, Spec, State};
use sp_eval::{Env, eval, is_true, look};
use sp_listing::{Listed, write};
use sp_ranks::ranks;
use sp_text::{MOST_CHANGED_PLACES, Memory, Name};
use sp_values::{Args, Invocation, Place, Value};
use std::alloc::Global;

// The number of the first of these exceptions that is TRUE, where the first one has number `from`.
fn first_true(
    spec: &Spec,
    inst: &Instance,
    state: &State,
    env: &Env,
    exceptions: &[(Name, Expr)],
    from: u16,
) -> Option<u16>
    requires given { IsGiven spec.now inst.now state.now.entries }
    requires conditions { AreConditions spec.now inst.now env.now exceptions.now }
    requires few { from + length exceptions.now ≤ MOST_EXCEPTIONS }
    ensures { result ≡ position_from (λ e. meaning.is_true (value_at (machine_of spec.now (filling_of inst.now)) (entry_of state.now.entries) env.now (tree e.1))) from exceptions.now }
{
    let [first, rest @ ..] = exceptions else {
        return None;
    };
    if is_true(eval(spec, inst, state, env, &first.1)) {
        return Some(from);
    }
    first_true(spec, inst, state, env, rest, from + 1)
}

// How many more entries the state may have.
fn room_of(state: &State) -> u64
    ensures value { result + length state.now.entries ≡ MOST_CHANGED_PLACES }
    ensures apart { AreApart state.now.entries }
{
    MOST_CHANGED_PLACES as u64 - state.len()
}

// Writes changes that fit into the state.
fn write_all(state: &mut State, made: &Listed) -> Result<(), Memory>
    requires few { length state.old.entries + listing.fresh made.now (entry_of state.old.entries) ≤ MOST_CHANGED_PLACES }
    ensures written { OnOk result (entry_of state.new.entries ≡ overlay (entry_of made.now) (entry_of state.old.entries)) }
    ensures same { OnErr result (state.new.entries ≡ state.old.entries) }
{
    state.reserve(made.len() as u64)?;
    write(made, state);
    Ok(())
}

// Makes the changes of an O-function.
fn operate(
    alloc: Global,
    spec: &Spec,
    inst: &Instance,
    state: &mut State,
    room: u64,
    i: &Invocation,
    effects: &[Effect],
) -> Result<(), StepFault>
    requires { IsCall spec.now inst.now state.old.entries room i.now effects.now }
    ensures changed { OnOk result (AreChangedWithin (machine_of spec.now (filling_of inst.now)) (entry_of state.old.entries) i.now (changes_in (effect_trees_of (map effect_tree effects.now))) (entry_of state.new.entries)) }
    ensures fault { IfErr result (IsChangeFault (machine_of spec.now (filling_of inst.now)) (entry_of state.old.entries) i.now (changes_in (effect_trees_of (map effect_tree effects.now)))) }
    ensures same { OnErr result (state.new.entries ≡ state.old.entries) }
{
    let ranks = ranks(alloc, effects)?;
    let made = Changing::new(spec, inst, state, room, i, effects, &ranks).make(alloc)?;
    write_all(state, &made)?;
    Ok(())
}

// Makes the changes of an OV-function, and answers the value of its result over the states before and after them.
fn operate_with_result(
    alloc: Global,
    spec: &Spec,
    inst: &Instance,
    state: &mut State,
    room: u64,
    i: &Invocation,
    effects: &[Effect],
) -> Result<Value, StepFault>
    requires call { IsCall spec.now inst.now state.old.entries room i.now effects.now }
    requires results { HaveResults 1 (effect_trees_of (map effect_tree effects.now)) }
    ensures changed { OnOk result (AreChangedWithin (machine_of spec.now (filling_of inst.now)) (entry_of state.old.entries) i.now (changes_in (effect_trees_of (map effect_tree effects.now))) (entry_of state.new.entries)) }
    ensures value { IfOk result (IsResult (machine_of spec.now (filling_of inst.now)) (entry_of state.old.entries) (entry_of state.new.entries) i.now (results_in (effect_trees_of (map effect_tree effects.now)))) }
    ensures fault { IfErr result (IsChangeFault (machine_of spec.now (filling_of inst.now)) (entry_of state.old.entries) i.now (changes_in (effect_trees_of (map effect_tree effects.now)))) }
    ensures same { OnErr result (state.new.entries ≡ state.old.entries) }
{
    let ranks = ranks(alloc, effects)?;
    let changing = Changing::new(spec, inst, state, room, i, effects, &ranks);
    let made = changing.make(alloc)?;
    let value = changing.result(&made);
    write_all(state, &made)?;
    Ok(value)
}

/// What an invocation answers in a state, and its changes. The first exception that is TRUE is answered, and the state
/// stays. Else the changes are made, rank by rank, and a V-function answers its value, an O-function `Done`, and an
/// OV-function its result over the states before and after.
///
/// # Errors
/// `Conflict` at the first change, by rank and then in text order, that gives a place of an earlier one of its rank another
/// value; `StateFull` where a state that the changes lead to would have too many entries; `Memory`. The state is as before.
pub fn step(
    alloc: Global,
    spec: &Spec,
    inst: &Instance,
    state: &mut State,
    i: &Invocation,
) -> Result<Answer, StepFault>
    requires given { IsGiven spec.now inst.now state.old.entries }
    requires invocation { IsInvocation (machine_of spec.now (filling_of inst.now)) i.now }
    ensures step { IfOk result (λ answer. StepsWithin (machine_of spec.now (filling_of inst.now)) (entry_of state.old.entries) i.now answer (entry_of state.new.entries)) }
    ensures fault { IfErr result (IsStepFault (machine_of spec.now (filling_of inst.now)) (entry_of state.old.entries) i.now) }
    ensures same { OnErr result (state.new.entries ≡ state.old.entries) }
    ensures state { IsState (machine_of spec.now (filling_of inst.now)) (entry_of state.new.entries) }
{
    let room = room_of(state);
    let function = &spec.functions()[i.fun as usize];
    let env = Env::new(&i.args);
    let exceptions = function.exceptions.items();
    if let Some(number) = first_true(spec, inst, state, &env, exceptions, 0) {
        return Ok(Answer::Exception(number));
    }
    match &function.kind {
        Kind::Primitive(_, _) | Kind::Derived(_, _) => {
            let args = Args::new(i.args.values());
            let place = Place { fun: i.fun, args };
            Ok(Answer::Value(look(spec, inst, state, &place)))
        }
        Kind::Operation(effects) => {
            operate(alloc, spec, inst, state, room, i, effects.as_slice())?;
            Ok(Answer::Done)
        }
        Kind::Both(_, effects) => {
            let effects = effects.as_slice();
            let value = operate_with_result(alloc, spec, inst, state, room, i, effects)?;
            Ok(Answer::Value(value))
        }
    }
}
