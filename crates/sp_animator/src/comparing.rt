//! A run compared with its purged run.

ghost use Rattle.std.specs.Prelude.{◌≡◌, ◌<◌, true, IfErr, IfOk, OnOk, Some, length, slice_get};
ghost use Rattle.std.specs.List.{All};
ghost use Rattle.sp_core.specs.Instances.{IsAdmissible, IsInstanceOf, IsSecure, filling_of, machine_of};
ghost use Rattle.sp_core.specs.Machine.{IsInvocation, IsState};
ghost use Rattle.sp_core.specs.Security as security;
ghost use Rattle.sp_core.specs.Security.{is_seen};
ghost use Rattle.sp_core.specs.States.{entry_of};
ghost use Rattle.sp_eval.specs.Conditions.{IsGiven};
ghost use Rattle.sp_stepping.specs.declared.fault.StepFault.TheVariants.{Memory as OutOfMemory};
ghost use Rattle.sp_animator.specs.Comparing.{Compares, Ends, IsAnsweredIf, IsCompareFault, IsComparison, IsKeptFault, IsKeptRefused, IsOtherNext, IsSameNext, IsSameOrFull, IsWholeFault};

use crate::purging::is_at_or_below;
use crate::running::animate;
use sp_core::{Answer, Instance, Spec, State};
use sp_stepping::{StepFault, conflict_fault_law, step};
use sp_values::Invocation;
use std::alloc::Global;

/// How the answers of a run and of its purged run compare.
#[derive(Clone, Copy, Debug, PartialEq, Eq)]
pub enum Compared {
    /// All kept invocations answer the same; how many they are.
    Same {
        kept: usize,
    },
    /// The first kept invocation that doesn't, by its number in the whole list, with its answers in both runs.
    Differs {
        at: usize,
        whole: Answer,
        purged: Answer,
    },
}

/// The first invocation that is refused, by its number in the whole list: in the whole run, or else in the purged one.
#[derive(Drop)]
pub struct CompareFault {
    pub purged: bool,
    pub at: usize,
    pub fault: StepFault,
}

// The step of the invocation, where it is kept; its answer is appended.
fn answer_kept(
    alloc: Global,
    spec: &Spec,
    inst: &Instance,
    state: &mut State,
    bound: u16,
    i: &Invocation,
    answers: &mut Vec<Answer>,
) -> Result<(), StepFault>
    requires given { IsGiven spec.now inst.now state.old.entries }
    requires invocation { IsInvocation (machine_of spec.now (filling_of inst.now)) i.now }
    requires level { bound < spec.now.lattice.count }
    ensures answered { OnOk result (IsAnsweredIf (machine_of spec.now (filling_of inst.now)) (entry_of state.old.entries) (entry_of state.new.entries) i.now (is_seen (machine_of spec.now (filling_of inst.now)) bound i.now) answers.old.items answers.new.items) }
    ensures fault { IfErr result (IsKeptRefused (machine_of spec.now (filling_of inst.now)) (entry_of state.old.entries) i.now (is_seen (machine_of spec.now (filling_of inst.now)) bound i.now)) }
    ensures state { IsState (machine_of spec.now (filling_of inst.now)) (entry_of state.new.entries) }
{
    if !is_at_or_below(spec, inst, bound, i) {
        return Ok(());
    }
    let answer = step(alloc, spec, inst, state, i)?;
    match answers.push(answer) {
        Ok(()) => Ok(()),
        Err(_) => Err(StepFault::Memory),
    }
}

// The run of the invocations that are kept.
fn animate_kept(
    alloc: Global,
    spec: &Spec,
    inst: &Instance,
    state: &mut State,
    bound: u16,
    list: &[Invocation],
) -> Result<Vec<Answer>, CompareFault>
    requires given { IsGiven spec.now inst.now state.old.entries }
    requires invocations { All (IsInvocation (machine_of spec.now (filling_of inst.now))) list.now }
    requires level { bound < spec.now.lattice.count }
    ensures run { IfOk result (λ answers. Ends (machine_of spec.now (filling_of inst.now)) (entry_of state.old.entries) (security.purge (machine_of spec.now (filling_of inst.now)) bound list.now) answers.items) }
    ensures fault { IfErr result (IsKeptFault (machine_of spec.now (filling_of inst.now)) (entry_of state.old.entries) bound list.now) }
{
    let mut answers = Vec::new(alloc);
    for (at, i) in list.iter().enumerate() {
        match answer_kept(alloc, spec, inst, state, bound, i, &mut answers) {
            Ok(()) => {}
            Err(fault) => {
                return Err(CompareFault {
                    purged: true,
                    at,
                    fault,
                });
            }
        }
    }
    Ok(answers)
}

fn answer_at(answers: &[Answer], number: usize) -> Answer
    requires { number < length answers.now }
    ensures { slice_get answers.now number ≡ Some result }
{
    answers[number]
}

// Where an invocation is kept that answers this in the whole run, compares it with the next answer of the purged one; how
// many are kept then, or that other answer.
fn compare_one(
    is_kept: bool,
    whole: Answer,
    purged: &[Answer],
    kept: usize,
) -> Result<usize, Answer>
    requires { is_kept ≡ true → kept < length purged.now }
    ensures same { IfOk result (IsSameNext is_kept whole purged.now kept) }
    ensures differ { IfErr result (IsOtherNext is_kept whole purged.now kept) }
{
    if !is_kept {
        return Ok(kept);
    }
    let other = answer_at(purged, kept);
    if whole != other {
        return Err(other);
    }
    Ok(kept + 1)
}

// Compares the answers of the kept invocations, one after the other.
fn first_difference(
    spec: &Spec,
    inst: &Instance,
    bound: u16,
    list: &[Invocation],
    whole: &[Answer],
    purged: &[Answer],
) -> Compared
    requires instance { IsInstanceOf spec.now inst.now }
    requires invocations { All (IsInvocation (machine_of spec.now (filling_of inst.now))) list.now }
    requires level { bound < spec.now.lattice.count }
    requires whole { length whole.now ≡ length list.now }
    requires purged { length purged.now ≡ length (security.purge (machine_of spec.now (filling_of inst.now)) bound list.now) }
    ensures { IsComparison (machine_of spec.now (filling_of inst.now)) bound list.now whole.now purged.now result }
{
    let mut kept = 0;
    for (at, i) in list.iter().enumerate() {
        let is_kept = is_at_or_below(spec, inst, bound, i);
        let answer = answer_at(whole, at);
        match compare_one(is_kept, answer, purged, kept) {
            Ok(next) => kept = next,
            Err(other) => {
                return Compared::Differs {
                    at,
                    whole: answer,
                    purged: other,
                };
            }
        }
    }
    Compared::Same { kept }
}

fn out_of_memory(purged: bool) -> CompareFault
    ensures { result ≡ record { purged = purged; at = 0; fault = OutOfMemory } }
{
    CompareFault {
        purged,
        at: 0,
        fault: StepFault::Memory,
    }
}

// The answers of the whole run.
fn animate_whole(
    alloc: Global,
    spec: &Spec,
    inst: &Instance,
    start: &State,
    list: &[Invocation],
) -> Result<Vec<Answer>, CompareFault>
    requires given { IsGiven spec.now inst.now start.now.entries }
    requires invocations { All (IsInvocation (machine_of spec.now (filling_of inst.now))) list.now }
    ensures run { IfOk result (λ answers. Ends (machine_of spec.now (filling_of inst.now)) (entry_of start.now.entries) list.now answers.items) }
    ensures fault { IfErr result (IsWholeFault (machine_of spec.now (filling_of inst.now)) (entry_of start.now.entries) list.now) }
{
    let Ok(mut state) = start.copy(alloc) else {
        return Err(out_of_memory(false));
    };
    match animate(alloc, spec, inst, &mut state, list) {
        Ok(answers) => Ok(answers),
        Err(broken) => Err(CompareFault {
            purged: false,
            at: broken.at,
            fault: broken.fault,
        }),
    }
}

// The answers of the purged run.
fn animate_purged(
    alloc: Global,
    spec: &Spec,
    inst: &Instance,
    start: &State,
    bound: u16,
    list: &[Invocation],
) -> Result<Vec<Answer>, CompareFault>
    requires given { IsGiven spec.now inst.now start.now.entries }
    requires invocations { All (IsInvocation (machine_of spec.now (filling_of inst.now))) list.now }
    requires level { bound < spec.now.lattice.count }
    ensures run { IfOk result (λ answers. Ends (machine_of spec.now (filling_of inst.now)) (entry_of start.now.entries) (security.purge (machine_of spec.now (filling_of inst.now)) bound list.now) answers.items) }
    ensures fault { IfErr result (IsKeptFault (machine_of spec.now (filling_of inst.now)) (entry_of start.now.entries) bound list.now) }
{
    let Ok(mut state) = start.copy(alloc) else {
        return Err(out_of_memory(true));
    };
    animate_kept(alloc, spec, inst, &mut state, bound, list)
}

/// Runs the list from a state, and from the same state the list purged at a level, and compares what the invocations at or
/// below the level answer. Where the specification is secure and the instance admissible, they answer the same.
///
/// # Errors
/// The first invocation that is refused in the whole run, or else in the purged one.
pub fn compare(
    alloc: Global,
    spec: &Spec,
    inst: &Instance,
    start: &State,
    bound: u16,
    list: &[Invocation],
) -> Result<Compared, CompareFault>
    requires given { IsGiven spec.now inst.now start.now.entries }
    requires invocations { All (IsInvocation (machine_of spec.now (filling_of inst.now))) list.now }
    requires level { bound < spec.now.lattice.count }
    ensures compared { IfOk result (Compares (machine_of spec.now (filling_of inst.now)) (entry_of start.now.entries) bound list.now) }
    ensures fault { IfErr result (IsCompareFault (machine_of spec.now (filling_of inst.now)) (entry_of start.now.entries) bound list.now) }
    ensures secure { IsSecure spec.now → IsAdmissible spec.now (filling_of inst.now) → IsSameOrFull result }
{
    conflict_fault_law();
    let _ = spec.functions();
    let whole = match animate_whole(alloc, spec, inst, start, list) {
        Ok(answers) => answers,
        Err(fault) => return Err(fault),
    };
    let purged = match animate_purged(alloc, spec, inst, start, bound, list) {
        Ok(answers) => answers,
        Err(fault) => return Err(fault),
    };
    Ok(first_difference(spec, inst, bound, list, &whole, &purged))
}
