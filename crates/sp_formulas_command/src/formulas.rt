//! `formulas`: the flow formulas of an interface.

ghost use Rattle.sp_frame.specs.Endings.{Printing};
ghost use Rattle.sp_frame.specs.Loads.{Loads};
ghost use Rattle.sp_frame.specs.Steps.{Does};
ghost use Rattle.sp_frame.specs.Uncertified.{spells};
ghost use Rattle.sp_formulas_command.specs.Formulas.{FormulasDone, FormulasWork, ListPrinted};

use crate::printed::report_lines;
use sp_core::Spec;
use sp_formula_list::listed;
use sp_frame::{LoadStop, Printed, Stop, Verdict, as_loading};
use sp_outside::Library;
use sp_system::{System, judge_system, load_system};
use std::alloc::Global;

/// The lines of `formulas`.
///
/// # Errors
/// `Refused` where a step is refused, `ReadFault`, and `Memory`.
#[tactic(auto, using(sp_frame::proofs::Connective::prints_last, sp_frame::proofs::Connective::prints_unread), unfolding(crate::specs::Formulas::FormulasDone))]
pub fn formulas_command<L: Library>(
    alloc: Global,
    lib: &mut L,
    interface: &str,
) -> Result<Printed, LoadStop>
    ensures { Loads L.told L.faults lib.old lib.new (λ files. Printing spells (FormulasDone interface.now files)) result }
{
    let system = load_system(alloc, lib, interface)?;
    as_loading(formulas_work(alloc, interface, &system))
}

// The work over the texts.
#[tactic(auto, using(sp_frame::proofs::Connective::prints_after, sp_frame::proofs::Connective::prints_refused))]
fn formulas_work(alloc: Global, interface: &str, system: &System) -> Result<Printed, Stop>
    ensures { Does (Printing spells (FormulasWork interface.now system.now)) result }
{
    let elaborated = judge_system(alloc, interface, system)?;
    list_printed(alloc, &elaborated.spec)
}

// The printed list.
#[tactic(auto, using(sp_frame::proofs::Connective::prints_after, sp_frame::proofs::Connective::prints_refused))]
fn list_printed(alloc: Global, spec: &Spec) -> Result<Printed, Stop>
    ensures { Does (Printing spells (ListPrinted spec.now)) result }
{
    let all = listed(alloc, spec, None)?;
    Ok(Printed {
        bytes: report_lines(alloc, spec, all.items())?,
        verdict: Verdict::Ok,
    })
}
