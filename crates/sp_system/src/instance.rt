//! Instances made of their texts.

ghost use Rattle.std.specs.Prelude.{IfOk};
ghost use Rattle.sp_core.specs.Instances.{IsInstanceOf};
ghost use Rattle.sp_frame.specs.Steps.{Does, Judged, Tells};
ghost use Rattle.sp_system.specs.Instances.{Admitted, InstanceJudged, InstanceMade};

use sp_core::{Instance, Spec};
use sp_eval::admissible;
use sp_frame::{Refusal, Stop, judged};
use sp_instance::make_instance;
use sp_text::{Name, TextFault};
use sp_tree::InstanceTree;
use std::alloc::Global;

/// The instance in this file, which is admissible.
///
/// # Errors
/// `Refused` with the first of what its text breaks, or with the first assertion that is false in it; `Memory`.
#[tactic(auto, using(sp_frame::proofs::Connective::does_after, sp_frame::proofs::Connective::does_refused))]
pub fn judge_instance(
    alloc: Global,
    spec: &Spec,
    file: &[u8],
    tree: &InstanceTree,
) -> Result<Instance, Stop>
    ensures does { Does (InstanceJudged spec.now file.now tree.now) result }
    ensures instance { IfOk result (IsInstanceOf spec.now) }
{
    let instance = instance_in(alloc, spec, file, tree)?;
    admit(alloc, spec, file, &instance)?;
    Ok(instance)
}

// The instance in this file.
#[tactic(auto, using(sp_frame::proofs::Connective::judged_after))]
fn instance_in(
    alloc: Global,
    spec: &Spec,
    file: &[u8],
    tree: &InstanceTree,
) -> Result<Instance, Stop>
    ensures does { Does (Judged file.now (InstanceMade spec.now tree.now)) result }
    ensures instance { IfOk result (IsInstanceOf spec.now) }
{
    judged(alloc, file, instance_of(alloc, spec, tree))
}

// The instance that the text stands for.
#[tactic(auto, using(sp_sorts::proofs::Definite::tells_answered))]
fn instance_of(alloc: Global, spec: &Spec, tree: &InstanceTree) -> Result<Instance, TextFault>
    ensures tells { Tells (InstanceMade spec.now tree.now) result }
    ensures instance { IfOk result (IsInstanceOf spec.now) }
{
    make_instance(alloc, spec, tree)
}

// That the instance is admissible.
fn admit(alloc: Global, spec: &Spec, file: &[u8], instance: &Instance) -> Result<(), Stop>
    requires { IsInstanceOf spec.now instance.now }
    ensures { Does (Admitted spec.now file.now instance.now) result }
{
    match admissible(spec, instance) {
        Ok(()) => Ok(()),
        Err(found) => {
            let name = Name::new(alloc, file)?;
            Err(Stop::Refused(Refusal::NotAdmissible(name, found.0)))
        }
    }
}
