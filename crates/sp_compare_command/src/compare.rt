//! `compare`: a run of a script beside the run of what a level sees of it.

ghost use Rattle.std.specs.Prelude.{◌≡◌, ◌<◌};
ghost use Rattle.sp_stepping.specs.declared.fault.StepFault.TheVariants.{StateFull};
ghost use Rattle.sp_frame.specs.Endings.{Printing};
ghost use Rattle.sp_frame.specs.Loads.{Loads};
ghost use Rattle.sp_frame.specs.Steps.{Does};
ghost use Rattle.sp_frame.specs.Uncertified.{spells};
ghost use Rattle.sp_run_command.specs.Prepared.{IsPrepared};
ghost use Rattle.sp_compare_command.specs.Compare.{CompareAnswered, CompareDone, CompareWork, IsBroken, IsCompared};

use crate::level::level_of;
use crate::printed::{conflict_lines, differs_lines, same_lines};
use sp_animator::{CompareFault, Compared, compare};
use sp_core::State;
use sp_frame::{LoadStop, Printed, Stop, Verdict, as_loading};
use sp_outside::Library;
use sp_run_command::{Prepared, RunTexts, full_at, load_run, prepare};
use sp_stepping::StepFault;
use std::alloc::Global;

/// The lines of `compare`.
///
/// # Errors
/// `Refused` where a step is refused, `ReadFault`, and `Memory`.
#[tactic(auto, using(sp_frame::proofs::Connective::prints_last, sp_frame::proofs::Connective::prints_unread), unfolding(crate::specs::Compare::CompareDone))]
pub fn compare_command<L: Library>(
    alloc: Global,
    lib: &mut L,
    interface: &str,
    instance: &str,
    script: &str,
    level: &str,
) -> Result<Printed, LoadStop>
    ensures { Loads L.told L.faults lib.old lib.new (λ files. Printing spells (CompareDone interface.now instance.now script.now level.now files)) result }
{
    let texts = load_run(alloc, lib, interface, instance, script)?;
    as_loading(compare_work(alloc, interface, instance, script, level, &texts))
}

// The work over the texts.
#[tactic(auto, using(sp_frame::proofs::Connective::prints_after, sp_frame::proofs::Connective::prints_refused))]
fn compare_work(
    alloc: Global,
    interface: &str,
    instance: &str,
    script: &str,
    level: &str,
    texts: &RunTexts,
) -> Result<Printed, Stop>
    ensures { Does (Printing spells (CompareWork interface.now instance.now script.now level.now texts.now)) result }
{
    let prepared = prepare(alloc, interface, instance, script, texts)?;
    let bound = level_of(alloc, &prepared.elaborated.spec, level)?;
    answered(alloc, &prepared, bound)
}

// The printed comparison.
#[tactic(auto, using(crate::proofs::Printing::told, crate::proofs::Printing::breaks, crate::proofs::Printing::full_number))]
fn answered(alloc: Global, x: &Prepared, level: u16) -> Result<Printed, Stop>
    requires prepared { IsPrepared x.now }
    requires level { level < x.now.elaborated.spec.lattice.count }
    ensures { Does (Printing spells (CompareAnswered x.now level)) result }
{
    let start = State::new(alloc);
    match compare(
        alloc,
        &x.elaborated.spec,
        &x.instance,
        &start,
        level,
        x.script.items(),
    ) {
        Ok(found) => told(alloc, x, level, found),
        Err(fault) => broken_off(alloc, x, level, &fault),
    }
}

// The lines of a comparison.
fn told(alloc: Global, x: &Prepared, level: u16, found: Compared) -> Result<Printed, Stop>
    requires { IsPrepared x.now }
    ensures { Does (Printing spells (IsCompared x.now.elaborated.spec x.now.instance x.now.script level found)) result }
{
    match found {
        Compared::Same { kept } => Ok(Printed {
            bytes: same_lines(alloc, x, level, kept)?,
            verdict: Verdict::Ok,
        }),
        Compared::Differs { at, whole, purged } => Ok(Printed {
            bytes: differs_lines(alloc, x, level, at, whole, purged)?,
            verdict: Verdict::Refused,
        }),
    }
}

// The lines of a run that breaks off, or its refusal.
fn broken_off(
    alloc: Global,
    x: &Prepared,
    level: u16,
    found: &CompareFault,
) -> Result<Printed, Stop>
    requires prepared { IsPrepared x.now }
    requires number { found.now.fault ≡ StateFull → found.now.at < 10000 }
    ensures { Does (Printing spells (IsBroken x.now.elaborated.spec x.now.instance x.now.script level found.now.purged found.now.at found.now.fault)) result }
{
    match &found.fault {
        StepFault::Conflict {
            place,
            first,
            second,
        } => Ok(Printed {
            bytes: conflict_lines(
                alloc,
                x,
                level,
                found.purged,
                found.at,
                place,
                *first,
                *second,
            )?,
            verdict: Verdict::Conflict,
        }),
        StepFault::StateFull => Err(Stop::Refused(full_at(found.at as u32))),
        StepFault::Memory => Err(Stop::Memory),
    }
}
