//! `run`: the answers of a script.

ghost use Rattle.std.specs.Prelude.{◌≡◌, ◌<◌, IfOk};
ghost use Rattle.sp_stepping.specs.declared.fault.StepFault.TheVariants.{StateFull};
ghost use Rattle.sp_frame.specs.Endings.{Printing};
ghost use Rattle.sp_frame.specs.Loads.{Loads};
ghost use Rattle.sp_frame.specs.Steps.{Does};
ghost use Rattle.sp_frame.specs.Uncertified.{spells};
ghost use Rattle.sp_run_command.specs.Prepared.{IsPrepared};
ghost use Rattle.sp_run_command.specs.Run as definitions;
ghost use Rattle.sp_run_command.specs.Run.{IsBroken, RunAnswered, RunDone, RunWork, run_text};

use crate::printed::{push_conflict, push_lines};
use crate::texts::{Prepared, RunTexts, load_run, prepare};
use sp_animator::{RunFault, animate};
use sp_core::{Answer, State};
use sp_frame::{LoadStop, Printed, Refusal, Stop, Verdict, WorkLimit, WorkPlace, as_loading};
use sp_outside::Library;
use sp_report::{print_interface, push_count};
use sp_stepping::StepFault;
use sp_text::{Memory, Quantity, push_text};
use sp_values::{Place, Value};
use std::alloc::Global;

/// The lines of `run`.
///
/// # Errors
/// `Refused` where a step is refused, `ReadFault`, and `Memory`.
#[tactic(auto, using(sp_frame::proofs::Connective::prints_last, sp_frame::proofs::Connective::prints_unread), unfolding(crate::specs::Run::RunDone))]
pub fn run_command<L: Library>(
    alloc: Global,
    lib: &mut L,
    interface: &str,
    instance: &str,
    script: &str,
) -> Result<Printed, LoadStop>
    ensures { Loads L.told L.faults lib.old lib.new (λ files. Printing spells (RunDone interface.now instance.now script.now files)) result }
{
    let texts = load_run(alloc, lib, interface, instance, script)?;
    as_loading(run_work(alloc, interface, instance, script, &texts))
}

// The work over the texts.
#[tactic(auto, using(sp_frame::proofs::Connective::prints_after, sp_frame::proofs::Connective::prints_refused))]
fn run_work(
    alloc: Global,
    interface: &str,
    instance: &str,
    script: &str,
    texts: &RunTexts,
) -> Result<Printed, Stop>
    ensures { Does (Printing spells (RunWork interface.now instance.now script.now texts.now)) result }
{
    let prepared = prepare(alloc, interface, instance, script, texts)?;
    answered(alloc, &prepared)
}

// The printed run.
#[tactic(auto, using(crate::proofs::Printing::ended, crate::proofs::Printing::breaks, crate::proofs::Printing::full_number))]
fn answered(alloc: Global, x: &Prepared) -> Result<Printed, Stop>
    requires { IsPrepared x.now }
    ensures { Does (Printing spells (RunAnswered x.now)) result }
{
    let mut state = State::new(alloc);
    match animate(
        alloc,
        &x.elaborated.spec,
        &x.instance,
        &mut state,
        x.script.items(),
    ) {
        Ok(answers) => Ok(Printed {
            bytes: run_lines(alloc, x, &answers)?,
            verdict: Verdict::Ok,
        }),
        Err(fault) => broken_off(alloc, x, &fault),
    }
}

// The lines of a run that breaks off, or its refusal.
fn broken_off(alloc: Global, x: &Prepared, found: &RunFault) -> Result<Printed, Stop>
    requires prepared { IsPrepared x.now }
    requires number { found.now.fault ≡ StateFull → found.now.at < 10000 }
    ensures { Does (Printing spells (IsBroken x.now.elaborated.spec x.now.instance x.now.script found.now.at found.now.answers found.now.fault)) result }
{
    match &found.fault {
        StepFault::Conflict {
            place,
            first,
            second,
        } => Ok(Printed {
            bytes: conflict_lines(
                alloc,
                x,
                found.at,
                found.answers.items(),
                place,
                *first,
                *second,
            )?,
            verdict: Verdict::Conflict,
        }),
        StepFault::StateFull => Err(Stop::Refused(full_at(found.at as u32))),
        StepFault::Memory => Err(Stop::Memory),
    }
}

// The lines of a run that ends.
fn run_lines(alloc: Global, x: &Prepared, answers: &[Answer]) -> Result<Vec<u8>, Memory>
    requires { IsPrepared x.now }
    ensures { IfOk result (λ text. text.items ≡ run_text x.now.elaborated.spec x.now.instance x.now.script answers.now) }
{
    let spec = &x.elaborated.spec;
    let script = x.script.items();
    let mut out = Vec::new(alloc);
    print_interface(alloc, spec, &mut out)?;
    push_lines(alloc, &mut out, spec, &x.instance, script, answers)?;
    push_text(alloc, &mut out, b"END ")?;
    push_count(alloc, &mut out, script.len() as u64)?;
    push_text(alloc, &mut out, b"\n")?;
    Ok(out)
}

// The lines of a run that breaks off at a conflict.
fn conflict_lines(
    alloc: Global,
    x: &Prepared,
    number: usize,
    answers: &[Answer],
    place: &Place,
    first: Value,
    second: Value,
) -> Result<Vec<u8>, Memory>
    requires { IsPrepared x.now }
    ensures { IfOk result (λ text. text.items ≡ definitions.broken_text x.now.elaborated.spec x.now.instance x.now.script number answers.now place.now first second) }
{
    let spec = &x.elaborated.spec;
    let instance = &x.instance;
    let mut out = Vec::new(alloc);
    print_interface(alloc, spec, &mut out)?;
    push_lines(alloc, &mut out, spec, instance, x.script.items(), answers)?;
    push_text(alloc, &mut out, b"CONFLICT ")?;
    push_conflict(
        alloc, &mut out, spec, instance, number, place, first, second,
    )?;
    Ok(out)
}

/// The refusal where the state would have too many entries after the invocation of this number.
pub fn full_at(number: u32) -> Refusal
    ensures { result ≡ definitions.full_at number }
{
    Refusal::Work(WorkLimit {
        quantity: Quantity::ChangedPlaces,
        owner: None,
        place: WorkPlace::Invocation(number),
        found: None,
    })
}
