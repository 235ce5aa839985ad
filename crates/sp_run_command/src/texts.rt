//! What is read and judged before a script is run.

ghost use Rattle.std.specs.Prelude.{◌≤◌, IfOk, length};
ghost use Rattle.std.specs.List.{All};
ghost use Rattle.sp_text.specs.declared.limits.TheConstants.{MOST_INVOCATIONS};
ghost use Rattle.sp_core.specs.Instances.{IsInstanceOf, filling_of, machine_of};
ghost use Rattle.sp_core.specs.Machine.{IsInvocation};
ghost use Rattle.sp_frame.specs.Loads.{Loads};
ghost use Rattle.sp_frame.specs.Steps.{Does, Judged, Tells};
ghost use Rattle.sp_system.specs.Instances.{InstanceJudged};
ghost use Rattle.sp_run_command.specs.Prepared.{IsPrepared, RunPrepared, RunRead, ScriptMade};

use sp_core::{Instance, Spec};
use sp_frame::{LoadStop, Stop, judged};
use sp_instance::make_script;
use sp_outside::Library;
use sp_sorts::read_tree;
use sp_system::{Elaborated, System, judge_instance, judge_system, load_system};
use sp_text::{Sequence, TextFault};
use sp_tree::{InstanceTree, ScriptTree};
use sp_values::Invocation;
use std::alloc::Global;

/// The texts of a run.
#[derive(Debug, Drop)]
pub struct RunTexts {
    pub system: System,
    pub instance: InstanceTree,
    pub script: ScriptTree,
}

/// What is run: a specification, an instance of it, and invocations.
#[derive(Drop)]
pub struct Prepared {
    pub elaborated: Elaborated,
    pub instance: Instance,
    pub script: Sequence<Invocation>,
}

/// The texts of the system of an interface's file, of an instance's and of a script's.
///
/// # Errors
/// `Refused` where one can't be loaded or read, `ReadFault`, and `Memory`.
#[tactic(auto, using(sp_frame::proofs::Connective::loads_after, sp_frame::proofs::Connective::loads_refused, sp_frame::proofs::Connective::loads_gives))]
pub fn load_run<L: Library>(
    alloc: Global,
    lib: &mut L,
    interface: &str,
    instance: &str,
    script: &str,
) -> Result<RunTexts, LoadStop>
    ensures { Loads L.told L.faults lib.old lib.new (RunRead interface.now instance.now script.now) result }
{
    let system = load_system(alloc, lib, interface)?;
    let instance = read_tree(alloc, lib, instance)?;
    let script = read_tree(alloc, lib, script)?;
    Ok(RunTexts {
        system,
        instance,
        script,
    })
}

/// What is run, by the texts of files of these names.
///
/// # Errors
/// `Refused` with the first of what a text breaks, or the first assertion that is false in an instance; `Memory`.
#[tactic(auto, using(sp_frame::proofs::Connective::does_after, sp_frame::proofs::Connective::does_refused))]
pub fn prepare(
    alloc: Global,
    interface: &str,
    instance: &str,
    script: &str,
    texts: &RunTexts,
) -> Result<Prepared, Stop>
    ensures does { Does (RunPrepared interface.now instance.now script.now texts.now) result }
    ensures prepared { IfOk result IsPrepared }
{
    let elaborated = judge_system(alloc, interface, &texts.system)?;
    let instance = instance_in(alloc, &elaborated.spec, instance, &texts.instance)?;
    let script = script_in(alloc, &elaborated.spec, &instance, script, &texts.script)?;
    Ok(Prepared {
        elaborated,
        instance,
        script,
    })
}

// The instance in this file.
fn instance_in(
    alloc: Global,
    spec: &Spec,
    file: &str,
    tree: &InstanceTree,
) -> Result<Instance, Stop>
    ensures does { Does (InstanceJudged spec.now file.now tree.now) result }
    ensures instance { IfOk result (IsInstanceOf spec.now) }
{
    judge_instance(alloc, spec, file.as_bytes(), tree)
}

// The invocations of the script in this file.
#[tactic(auto, using(sp_frame::proofs::Connective::judged_after))]
fn script_in(
    alloc: Global,
    spec: &Spec,
    instance: &Instance,
    file: &str,
    tree: &ScriptTree,
) -> Result<Sequence<Invocation>, Stop>
    requires { IsInstanceOf spec.now instance.now }
    ensures does { Does (Judged file.now (ScriptMade spec.now instance.now tree.now)) result }
    ensures invocations { IfOk result (λ js. All (IsInvocation (machine_of spec.now (filling_of instance.now))) js) }
    ensures few { IfOk result (λ js. length js ≤ MOST_INVOCATIONS) }
{
    judged(
        alloc,
        file.as_bytes(),
        script_of(alloc, spec, instance, tree),
    )
}

// The invocations that the text stands for.
#[tactic(auto, using(sp_sorts::proofs::Definite::tells_answered, crate::proofs::Few::few_calls))]
fn script_of(
    alloc: Global,
    spec: &Spec,
    instance: &Instance,
    tree: &ScriptTree,
) -> Result<Sequence<Invocation>, TextFault>
    requires { IsInstanceOf spec.now instance.now }
    ensures tells { Tells (ScriptMade spec.now instance.now tree.now) result }
    ensures invocations { IfOk result (λ js. All (IsInvocation (machine_of spec.now (filling_of instance.now))) js) }
    ensures few { IfOk result (λ js. length js ≤ MOST_INVOCATIONS) }
{
    match make_script(alloc, spec, instance, tree) {
        Ok(script) => Ok(Sequence::new(script)),
        Err(fault) => Err(fault),
    }
}
