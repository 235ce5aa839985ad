//! `check`: whether each flow formula of an interface is proved.

ghost use Rattle.std.specs.Prelude.{◌≡◌, All, map, option_copied};
ghost use Rattle.sp_formulas.specs.Formulas.{formula_as, formulas};
ghost use Rattle.sp_formulas.specs.Typed.{AreTypedFormulas};
ghost use Rattle.sp_frame.specs.Endings.{Printing};
ghost use Rattle.sp_frame.specs.Loads.{Loads};
ghost use Rattle.sp_frame.specs.Steps.{Does, Gives};
ghost use Rattle.sp_frame.specs.Uncertified.{spells};
ghost use Rattle.sp_deciding.specs.Decided as definitions;
ghost use Rattle.sp_deciding.specs.Laws.{IsClosed};
ghost use Rattle.sp_check_command.specs.Check.{CheckAnswered, CheckDone, CheckWork, check_answer};

use sp_core::Spec;
use sp_deciding::{Decision, decide_all, open_count, push_accepted, push_decisions, push_refused};
use sp_formula_laws::tell_typed;
use sp_formula_list::listed;
use sp_frame::{LoadStop, Printed, Stop, Verdict, as_loading};
use sp_outside::Library;
use sp_report::print_interface;
use sp_sequent::Formula;
use sp_system::{Elaborated, System, judge_system, load_system};
use sp_text::Name;
use sp_unwinding::accept;
use std::alloc::Global;

/// The lines of `check`.
///
/// # Errors
/// `Refused` where a step is refused, `ReadFault`, and `Memory`.
#[tactic(auto, using(sp_frame::proofs::Connective::prints_last, sp_frame::proofs::Connective::prints_unread), unfolding(crate::specs::Check::CheckDone))]
pub fn check_command<L: Library>(
    alloc: Global,
    lib: &mut L,
    interface: &str,
) -> Result<Printed, LoadStop>
    ensures { Loads L.told L.faults lib.old lib.new (λ files. Printing spells (CheckDone interface.now files)) result }
{
    let system = load_system(alloc, lib, interface)?;
    as_loading(check_work(alloc, interface, &system))
}

// The work over the texts.
#[tactic(auto, using(sp_frame::proofs::Connective::prints_after, sp_frame::proofs::Connective::prints_refused))]
fn check_work(alloc: Global, interface: &str, system: &System) -> Result<Printed, Stop>
    ensures { Does (Printing spells (CheckWork interface.now system.now)) result }
{
    let elaborated = judge_system(alloc, interface, system)?;
    let Elaborated { spec, scopes: _ } = elaborated;
    check_answered(alloc, spec, None)
}

/// The work over a specification. A refusal has the name of its owner, where the work is on several interfaces.
///
/// # Errors
/// `Refused` where a step is refused, and `Memory`.
pub fn check_answered(alloc: Global, spec: Spec, owner: Option<&Name>) -> Result<Printed, Stop>
    ensures { Does (Printing spells (CheckAnswered (option_copied owner.entry) spec)) result }
{
    tell_typed(&spec);
    let formulas = listed(alloc, &spec, owner)?;
    let decisions = decide_all(alloc, &spec, formulas.items(), owner)?;
    told(alloc, spec, formulas.items(), decisions.items())
}

// The lines, the last of which tells whether all formulas are proved.
fn told(
    alloc: Global,
    spec: Spec,
    made: &[Formula],
    decisions: &[Decision],
) -> Result<Printed, Stop>
    requires listed { map formula_as made.now ≡ formulas spec }
    requires typed { AreTypedFormulas spec (map formula_as made.now) }
    requires closed { definitions.open_count decisions.now ≡ 0 → All (IsClosed spec) (map formula_as made.now) }
    ensures { Does (Printing spells (Gives (check_answer spec (map formula_as made.now) decisions.now))) result }
{
    let mut bytes = Vec::new(alloc);
    print_interface(alloc, &spec, &mut bytes)?;
    push_decisions(alloc, &mut bytes, &spec, made, decisions)?;
    let open = open_count(decisions);
    if open > 0 {
        push_refused(alloc, &mut bytes, open, made.len())?;
        return Ok(Printed {
            bytes,
            verdict: Verdict::Refused,
        });
    }
    let accepted = accept(spec, made);
    push_accepted(alloc, &mut bytes, &accepted, made.len())?;
    Ok(Printed {
        bytes,
        verdict: Verdict::Ok,
    })
}
