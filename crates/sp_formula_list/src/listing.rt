//! The list of formulas, or the limit that is exceeded along it.

ghost use Rattle.std.specs.Prelude.{◌≡◌, ◌≤◌, List, Err, IfOk, length, option_copied};
ghost use Rattle.sp_text.specs.declared.limits.TheConstants.{MOST_FORMULAS};
ghost use Rattle.sp_formulas.specs.Formulas.{Formula};
ghost use Rattle.sp_frame.specs.Steps.{Does, StopsFor};
ghost use Rattle.sp_generator.specs.Listed.{IsListed};
ghost use Rattle.sp_formula_list.specs.Listed as definitions;
ghost use Rattle.sp_formula_list.specs.Listed.{FormulasListed, IsLimited, as_formulas};

use sp_core::Spec;
use sp_formulas::FormulaFault;
use sp_frame::{Refusal, Stop, WorkLimit, WorkPlace};
use sp_generator::formulas;
use sp_sequent::Formula;
use sp_text::{Memory, Name, Quantity, Sequence};
use std::alloc::Global;

// The owner's name once more.
fn copied(alloc: Global, owner: Option<&Name>) -> Result<Option<Name>, Memory>
    ensures { IfOk result (λ copy. copy ≡ option_copied owner.entry) }
{
    match owner {
        Some(name) => Ok(Some(Name::new(alloc, name.bytes())?)),
        None => Ok(None),
    }
}

/// Why work stops that exceeds a limit; or memory was refused.
pub fn exceeded(
    alloc: Global,
    owner: Option<&Name>,
    quantity: Quantity,
    place: WorkPlace,
    found: Option<u32>,
) -> Stop
    ensures { StopsFor (definitions.exceeded (option_copied owner.entry) quantity place found) result }
{
    match copied(alloc, owner) {
        Ok(owner) => Stop::Refused(Refusal::Work(WorkLimit {
            quantity,
            owner,
            place,
            found,
        })),
        Err(Memory) => Stop::Memory,
    }
}

/// Why there is no list of formulas.
#[tactic(auto, using(crate::proofs::Stops::stops))]
pub fn refused(alloc: Global, fault: FormulaFault, owner: Option<&Name>) -> Stop
    ensures { Does (IsLimited {T = List Formula} (option_copied owner.entry) fault) (Err result) }
{
    match fault {
        FormulaFault::TooManyFormulas => {
            exceeded(alloc, owner, Quantity::Formulas, WorkPlace::Interface, None)
        }
        FormulaFault::TooManyInstances(number) => exceeded(
            alloc,
            owner,
            Quantity::AssertionInstances,
            WorkPlace::Formula(number),
            None,
        ),
        FormulaFault::TooManyNodes(number) => exceeded(
            alloc,
            owner,
            Quantity::FormulaNodes,
            WorkPlace::Formula(number),
            None,
        ),
        FormulaFault::TooManyTerms(number) => exceeded(
            alloc,
            owner,
            Quantity::Terms,
            WorkPlace::Formula(number),
            None,
        ),
        FormulaFault::Memory => Stop::Memory,
    }
}

/// The flow formulas of a specification.
///
/// # Errors
/// `Refused` with the first limit that is exceeded along their list, and `Memory`.
#[tactic(auto, using(crate::proofs::Few::few_listed))]
pub fn listed(alloc: Global, spec: &Spec, owner: Option<&Name>) -> Result<Sequence<Formula>, Stop>
    ensures does { Does (FormulasListed (option_copied owner.entry) spec.now) (as_formulas result) }
    ensures listed { IfOk result (IsListed spec.now) }
    ensures few { IfOk result (λ all. length all ≤ MOST_FORMULAS) }
{
    match formulas(alloc, spec) {
        Ok(all) => Ok(Sequence::new(all)),
        Err(fault) => Err(refused(alloc, fault, owner)),
    }
}
