//! Whether formulas are proved.

ghost use Rattle.std.specs.Prelude.{◌≡◌, ◌<◌, ◌≤◌, IfErr, IfOk, length, map, option_copied};
ghost use Rattle.sp_text.specs.declared.limits.TheConstants.{MOST_FORMULAS};
ghost use Rattle.sp_formulas.specs.Formulas.{formula_as};
ghost use Rattle.sp_formulas.specs.Typed.{AreTypedFormulas, IsTypedFormula};
ghost use Rattle.sp_prover.specs.Deciding.{IsRefused, LeavesFew};
ghost use Rattle.sp_sequent.specs.Claims.{claim_of, question_of};
ghost use Rattle.sp_frame.specs.Steps.{Does};
ghost use Rattle.sp_deciding.specs.Decided as definitions;
ghost use Rattle.sp_deciding.specs.Decided.{AllDecided, FormulaDecided, IsDecision};

use either::Either;
use sp_core::Spec;
use sp_formula_list::exceeded;
use sp_frame::{Stop, WorkPlace};
use sp_pool::Pool;
use sp_prover::{Branch, DecideFault, decide};
use sp_sequent::Formula;
use sp_text::{Name, Quantity, Sequence};
use std::alloc::Global;

/// What was decided of a formula.
#[derive(Debug, Drop)]
pub enum Decision {
    /// No branch is open.
    Proved,
    /// The truth values of its atoms, in order, in its first open branch.
    Open(Sequence<bool>),
}

// Decides a formula. A certificate is given up at once.
fn decided(
    alloc: Global,
    spec: &Spec,
    pool: &mut Pool,
    formula: &Formula,
) -> Result<Decision, DecideFault>
    requires two { length pool.old ≡ 2 }
    requires typed { IsTypedFormula spec.now (formula_as formula.now) }
    ensures decision { IfOk result (IsDecision (question_of spec.now (claim_of formula.now))) }
    ensures few { IfOk result (λ _. LeavesFew (question_of spec.now (claim_of formula.now))) }
    ensures refused { IfErr result (IsRefused (question_of spec.now (claim_of formula.now))) }
    ensures pool { pool.new ≡ pool.old }
{
    match decide(alloc, spec, pool, formula) {
        Ok(Either::Left(_)) => Ok(Decision::Proved),
        Ok(Either::Right(branch)) => {
            let Branch { values } = branch;
            Ok(Decision::Open(Sequence::new(values)))
        }
        Err(fault) => Err(fault),
    }
}

// Decides the formula of this number.
#[tactic(auto, using(crate::proofs::Refusing::stops))]
fn decided_at(
    alloc: Global,
    spec: &Spec,
    pool: &mut Pool,
    number: u32,
    formula: &Formula,
    owner: Option<&Name>,
) -> Result<Decision, Stop>
    requires two { length pool.old ≡ 2 }
    requires typed { IsTypedFormula spec.now (formula_as formula.now) }
    ensures does { Does (FormulaDecided (option_copied owner.entry) spec.now number (formula_as formula.now)) result }
    ensures pool { pool.new ≡ pool.old }
{
    match decided(alloc, spec, pool, formula) {
        Ok(decision) => Ok(decision),
        Err(DecideFault::TooManyAtoms(found)) => Err(exceeded(
            alloc,
            owner,
            Quantity::Atoms,
            WorkPlace::Formula(number),
            Some(found),
        )),
        Err(DecideFault::Memory) => Err(Stop::Memory),
    }
}

/// Decides the formulas in their order. A refusal has the name of their owner.
///
/// # Errors
/// `Refused` at the first of which too many atoms are undetermined, and `Memory`.
pub fn decide_all(
    alloc: Global,
    spec: &Spec,
    formulas: &[Formula],
    owner: Option<&Name>,
) -> Result<Sequence<Decision>, Stop>
    requires typed { AreTypedFormulas spec.now (map formula_as formulas.now) }
    requires few { length formulas.now ≤ MOST_FORMULAS }
    ensures { Does (AllDecided (option_copied owner.entry) spec.now 1 (map formula_as formulas.now)) result }
{
    let mut pool = Pool::new(alloc)?;
    let mut all = Vec::new(alloc);
    for (k, formula) in formulas.iter().enumerate() {
        let decision = decided_at(alloc, spec, &mut pool, k as u32 + 1, formula, owner)?;
        all.push(decision)?;
    }
    Ok(Sequence::new(all))
}

/// How many formulas are open.
pub fn open_count(decisions: &[Decision]) -> usize
    ensures count { result ≡ definitions.open_count decisions.now }
{
    let mut count = 0;
    for decision in decisions {
        if let Decision::Open(_) = decision {
            count += 1;
        }
    }
    count
}
