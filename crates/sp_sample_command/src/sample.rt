//! `sample`: an interface of a given size, made, checked and summed up.

ghost use Rattle.std.specs.Prelude.{◌≡◌, ◌≤◌, All, length, map};
ghost use Rattle.sp_text.specs.declared.limits.TheConstants.{MOST_FORMULAS};
ghost use Rattle.sp_formulas.specs.Formulas.{formula_as, formulas};
ghost use Rattle.sp_formulas.specs.Typed.{AreTypedFormulas};
ghost use Rattle.sp_frame.specs.Endings.{Printing};
ghost use Rattle.sp_frame.specs.Steps.{Does, Gives};
ghost use Rattle.sp_frame.specs.Uncertified.{spells};
ghost use Rattle.sp_deciding.specs.Decided as decided;
ghost use Rattle.sp_deciding.specs.Laws.{IsClosed};
ghost use Rattle.sp_sample_command.specs.Sample.{SampleAnswered, SampleDone, SampleWork};
ghost use Rattle.sp_sample_command.specs.Summary.{sample_answer};

use crate::summary::{open_text, summary_text};
use crate::terms::term_count;
use crate::texts::sample_system;
use sp_core::Spec;
use sp_deciding::{Decision, decide_all, open_count};
use sp_formula_laws::tell_typed;
use sp_formula_list::listed;
use sp_frame::{Printed, Stop, Verdict};
use sp_sequent::Formula;
use sp_system::{Elaborated, System, judge_system};
use sp_unwinding::accept;
use std::alloc::Global;

/// The lines of `sample`. It loads no file.
///
/// # Errors
/// `Refused` where a step is refused, and `Memory`.
#[tactic(auto, using(sp_frame::proofs::Connective::prints_after, sp_frame::proofs::Connective::prints_refused), unfolding(crate::specs::Sample::SampleDone))]
pub fn sample_command(alloc: Global, size: u32) -> Result<Printed, Stop>
    requires { size ≤ 100 }
    ensures { Does (Printing spells (SampleDone size)) result }
{
    let system = sample_system(alloc, size)?;
    sample_work(alloc, size, &system)
}

// The work over the texts.
#[tactic(auto, using(sp_frame::proofs::Connective::prints_after, sp_frame::proofs::Connective::prints_refused))]
fn sample_work(alloc: Global, size: u32, system: &System) -> Result<Printed, Stop>
    ensures { Does (Printing spells (SampleWork size system.now)) result }
{
    let elaborated = judge_system(alloc, "sample.iface", system)?;
    let Elaborated { spec, scopes: _ } = elaborated;
    answered(alloc, size, spec)
}

// The work over the specification.
fn answered(alloc: Global, size: u32, spec: Spec) -> Result<Printed, Stop>
    ensures { Does (Printing spells (SampleAnswered size spec)) result }
{
    tell_typed(&spec);
    let formulas = listed(alloc, &spec, None)?;
    let decisions = decide_all(alloc, &spec, formulas.items(), None)?;
    told(alloc, size, spec, formulas.items(), decisions.items())
}

// The summary, or what `check` tells where a formula is open.
fn told(
    alloc: Global,
    size: u32,
    spec: Spec,
    made: &[Formula],
    decisions: &[Decision],
) -> Result<Printed, Stop>
    requires listed { map formula_as made.now ≡ formulas spec }
    requires typed { AreTypedFormulas spec (map formula_as made.now) }
    requires few { length made.now ≤ MOST_FORMULAS }
    requires closed { decided.open_count decisions.now ≡ 0 → All (IsClosed spec) (map formula_as made.now) }
    ensures { Does (Printing spells (Gives (sample_answer size spec (map formula_as made.now) decisions.now))) result }
{
    let open = open_count(decisions);
    if open > 0 {
        let bytes = open_text(alloc, &spec, made, decisions, open)?;
        return Ok(Printed {
            bytes,
            verdict: Verdict::Refused,
        });
    }
    let functions = spec.functions().len();
    let terms = term_count(alloc, &spec, made)?;
    let accepted = accept(spec, made);
    let bytes = summary_text(alloc, &accepted, size, functions, made.len(), terms)?;
    Ok(Printed {
        bytes,
        verdict: Verdict::Ok,
    })
}
