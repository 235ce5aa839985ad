//! Whether formulas are proved, with the certificates of those that are.

ghost use Rattle.std.specs.Prelude.{◌≡◌, ◌≤◌, ◌++◌, [], ◌∷◌, None, IfErr, IfOk, OnOk, length, map};
ghost use Rattle.sp_cert.specs.Tree.{tree};
ghost use Rattle.sp_text.specs.declared.limits.TheConstants.{MOST_FORMULAS};
ghost use Rattle.sp_formulas.specs.Formulas.{formula_as};
ghost use Rattle.sp_formulas.specs.Typed.{AreTypedFormulas, IsTypedFormula};
ghost use Rattle.sp_prover.specs.Deciding.{IsRefused, LeavesFew};
ghost use Rattle.sp_sequent.specs.Claims.{claim_of, question_of};
ghost use Rattle.sp_frame.specs.Steps.{Does};
ghost use Rattle.sp_deciding.specs.Decided.{AllDecided, FormulaDecided};
ghost use Rattle.sp_prove_command.specs.Kept.{AreKept, IsFound, as_decision, as_decisions, decision_found, trees_found};

use either::Either;
use sp_cert::Cert;
use sp_core::Spec;
use sp_deciding::Decision;
use sp_formula_list::exceeded;
use sp_frame::{Stop, WorkPlace};
use sp_pool::Pool;
use sp_prover::{Branch, DecideFault, decide};
use sp_sequent::Formula;
use sp_text::{Memory, Quantity, Sequence};
use std::alloc::Global;

/// What was found of a formula.
#[derive(Debug, Drop)]
pub enum Found {
    /// A certificate that checks.
    Proved(Cert),
    /// The truth values of its atoms, in order, in its first open branch.
    Open(Sequence<bool>),
}

/// What was decided of formulas, in order, and the certificates of those that are proved.
#[derive(Debug, Drop)]
pub struct Proofs {
    pub decisions: Vec<Decision>,
    pub certs: Vec<Cert>,
}

// Decides a formula. Of its proof the certificate alone is kept.
fn find(
    alloc: Global,
    spec: &Spec,
    pool: &mut Pool,
    formula: &Formula,
) -> Result<Found, DecideFault>
    requires two { length pool.old ≡ 2 }
    requires typed { IsTypedFormula spec.now (formula_as formula.now) }
    ensures found { IfOk result (IsFound (question_of spec.now (claim_of formula.now))) }
    ensures few { IfOk result (λ _. LeavesFew (question_of spec.now (claim_of formula.now))) }
    ensures refused { IfErr result (IsRefused (question_of spec.now (claim_of formula.now))) }
    ensures pool { pool.new ≡ pool.old }
{
    match decide(alloc, spec, pool, formula) {
        Ok(Either::Left(cert)) => Ok(Found::Proved(cert)),
        Ok(Either::Right(branch)) => {
            let Branch { values } = branch;
            Ok(Found::Open(Sequence::new(values)))
        }
        Err(fault) => Err(fault),
    }
}

// Decides the formula of this number.
#[tactic(auto, using(crate::proofs::Found::decides, crate::proofs::Found::stops))]
fn prove_one(
    alloc: Global,
    spec: &Spec,
    pool: &mut Pool,
    number: u32,
    formula: &Formula,
) -> Result<Found, Stop>
    requires two { length pool.old ≡ 2 }
    requires typed { IsTypedFormula spec.now (formula_as formula.now) }
    ensures does { Does (FormulaDecided None spec.now number (formula_as formula.now)) (as_decision result) }
    ensures found { IfOk result (IsFound (question_of spec.now (claim_of formula.now))) }
    ensures pool { pool.new ≡ pool.old }
{
    match find(alloc, spec, pool, formula) {
        Ok(found) => Ok(found),
        Err(DecideFault::TooManyAtoms(found)) => Err(exceeded(
            alloc,
            None,
            Quantity::Atoms,
            WorkPlace::Formula(number),
            Some(found),
        )),
        Err(DecideFault::Memory) => Err(Stop::Memory),
    }
}

// Keeps what was found of one more formula.
fn keep(decisions: &mut Vec<Decision>, certs: &mut Vec<Cert>, found: Found) -> Result<(), Memory>
    ensures decisions { OnOk result (decisions.new.items ≡ decisions.old.items ++ decision_found found ∷ []) }
    ensures certs { OnOk result (map tree certs.new.items ≡ map tree certs.old.items ++ trees_found found) }
{
    match found {
        Found::Proved(cert) => {
            certs.push(cert)?;
            decisions.push(Decision::Proved)?;
        }
        Found::Open(values) => decisions.push(Decision::Open(values))?,
    }
    Ok(())
}

/// Decides the formulas in their order, and keeps the certificates.
///
/// # Errors
/// `Refused` at the first of which too many atoms are undetermined, and `Memory`.
pub fn prove_all(alloc: Global, spec: &Spec, formulas: &[Formula]) -> Result<Proofs, Stop>
    requires typed { AreTypedFormulas spec.now (map formula_as formulas.now) }
    requires few { length formulas.now ≤ MOST_FORMULAS }
    ensures decided { Does (AllDecided None spec.now 1 (map formula_as formulas.now)) (as_decisions result) }
    ensures kept { IfOk result (λ proofs. AreKept spec.now (map formula_as formulas.now) proofs.decisions.items (map tree proofs.certs.items)) }
{
    let mut pool = Pool::new(alloc)?;
    let mut decisions = Vec::new(alloc);
    let mut certs = Vec::new(alloc);
    for (k, formula) in formulas.iter().enumerate() {
        let found = prove_one(alloc, spec, &mut pool, k as u32 + 1, formula)?;
        keep(&mut decisions, &mut certs, found)?;
    }
    Ok(Proofs { decisions, certs })
}
