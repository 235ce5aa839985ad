//! Runs of lists of invocations.

ghost use Rattle.std.specs.Prelude.{IfErr, IfOk};
ghost use Rattle.std.specs.List.{All};
ghost use Rattle.sp_core.specs.Instances.{filling_of, machine_of};
ghost use Rattle.sp_core.specs.Machine.{IsInvocation, IsState};
ghost use Rattle.sp_core.specs.States.{entry_of};
ghost use Rattle.sp_eval.specs.Conditions.{IsGiven};
ghost use Rattle.sp_animator.specs.Runs.{BreaksOff, RunsWithin};

use sp_core::{Answer, Instance, Spec, State};
use sp_stepping::{StepFault, step};
use sp_text::Sequence;
use sp_values::Invocation;
use std::alloc::Global;

/// The first invocation that is refused, by its number from 0, with the answers of those before it, and why.
#[derive(Drop)]
pub struct RunFault {
    pub at: usize,
    pub answers: Sequence<Answer>,
    pub fault: StepFault,
}

/// The run of the list: what its invocations answer, one after the other. The state becomes the one after them.
///
/// # Errors
/// The first invocation that is refused; the state is then the one after those before it. Where the answers have no room,
/// that is number 0.
pub fn animate(
    alloc: Global,
    spec: &Spec,
    inst: &Instance,
    state: &mut State,
    list: &[Invocation],
) -> Result<Vec<Answer>, RunFault>
    requires given { IsGiven spec.now inst.now state.old.entries }
    requires invocations { All (IsInvocation (machine_of spec.now (filling_of inst.now))) list.now }
    ensures run { IfOk result (λ answers. RunsWithin (machine_of spec.now (filling_of inst.now)) (entry_of state.old.entries) list.now answers.items (entry_of state.new.entries)) }
    ensures fault { IfErr result (λ fault. BreaksOff (machine_of spec.now (filling_of inst.now)) (entry_of state.old.entries) list.now fault (entry_of state.new.entries)) }
    ensures state { IsState (machine_of spec.now (filling_of inst.now)) (entry_of state.new.entries) }
{
    let Ok(mut answers) = Vec::with_capacity(alloc, list.len()) else {
        return Err(RunFault {
            at: 0,
            answers: Sequence::new(Vec::new(alloc)),
            fault: StepFault::Memory,
        });
    };
    for (at, i) in list.iter().enumerate() {
        match step(alloc, spec, inst, state, i) {
            Ok(answer) => answers.push_reserved(answer),
            Err(fault) => {
                return Err(RunFault {
                    at,
                    answers: Sequence::new(answers),
                    fault,
                });
            }
        }
    }
    Ok(answers)
}
