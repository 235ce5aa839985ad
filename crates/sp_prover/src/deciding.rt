//! Formulas decided.

ghost use Rattle.std.specs.Prelude.{◌≡◌, ℕ, ◌≤◌, [], IfOk, IfErr, length};
ghost use Rattle.sp_rules.specs.Questions.{IsQuestion};
ghost use Rattle.sp_saturate.specs.Situations.{supposed};
ghost use Rattle.sp_sequent.specs.Claims.{IsTypedClaim, claim_of, question_of};
ghost use Rattle.sp_sequent.specs.Sequents.{question_over};
ghost use Rattle.sp_prover.specs.Deciding.{AreUndetermined, Decides, HasTruths, IsRefused, LeavesFew, Tells};
ghost use Rattle.sp_prover.specs.Exploring.{IsClosed, with_memory};

use crate::branch::{Branch, DecideFault};
use crate::exploring::{explore, leaf, undetermined};
use either::Either;
use sp_cert::Cert;
use sp_core::Spec;
use sp_pool::{Mark, Pool};
use sp_rules::Root;
use sp_saturate::Facts;
use sp_sequent::{Formula, Sequent};
use sp_text::Memory;
use std::alloc::Global;

/// The most atoms that the given facts may leave undetermined.
pub const MOST_ATOMS: usize = 20;

/// Decides over facts without assumptions and without a clash, which leave these atoms undetermined.
fn decide_places(
    alloc: Global,
    facts: &mut Facts,
    places: &[u16],
) -> Result<Either<Cert, Branch>, DecideFault>
    requires truths { HasTruths facts.old.question.terms }
    requires question { IsQuestion facts.old.question }
    requires none { facts.old.assumed ≡ [] }
    requires calm { IsClosed facts.old → ⊥ }
    requires undetermined { AreUndetermined facts.old.question.terms (supposed facts.old) facts.old.question.atoms places.now }
    requires atoms { length facts.old.question.atoms ≤ 512 }
    requires few { length places.now ≤ 512 }
    ensures decides { IfOk result (λ e. Decides facts.old.question e) }
    ensures few { IfOk result (λ e. LeavesFew facts.old.question) }
    ensures refused { IfErr result (λ f. IsRefused facts.old.question f) }
{
    if places.len() > MOST_ATOMS {
        return Err(DecideFault::TooManyAtoms(places.len() as u32));
    }
    or_memory(explore(alloc, facts, places, 0))
}

/// Decides over facts without assumptions.
fn decide_facts(alloc: Global, facts: &mut Facts) -> Result<Either<Cert, Branch>, DecideFault>
    requires truths { HasTruths facts.old.question.terms }
    requires question { IsQuestion facts.old.question }
    requires few { length facts.old.question.atoms ≤ 512 }
    requires none { facts.old.assumed ≡ [] }
    ensures decides { IfOk result (λ e. Decides facts.old.question e) }
    ensures few { IfOk result (λ e. LeavesFew facts.old.question) }
    ensures refused { IfErr result (λ f. IsRefused facts.old.question f) }
{
    if facts.clash().is_some() {
        return or_memory(leaf(alloc, facts));
    }
    match undetermined(alloc, facts) {
        Ok(places) => decide_places(alloc, facts, &places),
        Err(_) => Err(DecideFault::Memory),
    }
}

/// The same answer, or that memory is short.
fn or_memory(
    found: Result<Either<Cert, Branch>, Memory>,
) -> Result<Either<Cert, Branch>, DecideFault>
    ensures { result ≡ with_memory found }
{
    match found {
        Ok(either) => Ok(either),
        Err(_) => Err(DecideFault::Memory),
    }
}

/// Decides a formula in numbers: a certificate, or the first open branch.
///
/// # Errors
/// `TooManyAtoms` where no clash follows from the given facts alone and they leave more than twenty atoms undetermined;
/// `Memory`.
pub fn decide_root(alloc: Global, root: &Root) -> Result<Either<Cert, Branch>, DecideFault>
    requires truths { HasTruths root.now.terms }
    requires few { length root.now.atoms ≤ 512 }
    ensures decides { IfOk result (λ e. Decides root.now e) }
    ensures few { IfOk result (λ e. LeavesFew root.now) }
    ensures refused { IfErr result (λ f. IsRefused root.now f) }
{
    root.tell_question();
    match Facts::open(alloc, root) {
        Ok(mut facts) => decide_facts(alloc, &mut facts),
        Err(_) => Err(DecideFault::Memory),
    }
}

/// Decides a formula by its numbers, over the pool that holds its terms.
fn decide_sequent(
    alloc: Global,
    spec: &Spec,
    pool: &Pool,
    sequent: &Sequent,
) -> Result<Either<Cert, Branch>, DecideFault>
    requires held { length pool.now ≡ length sequent.now.levels }
    requires truths { HasTruths (question_over spec.now pool.now sequent.now).terms }
    requires few { length sequent.now.atoms ≤ 512 }
    ensures decides { IfOk result (λ e. Decides (question_over spec.now pool.now sequent.now) e) }
    ensures few { IfOk result (λ e. LeavesFew (question_over spec.now pool.now sequent.now)) }
    ensures refused { IfErr result (λ f. IsRefused (question_over spec.now pool.now sequent.now) f) }
{
    match sequent.root(alloc, spec, pool) {
        Ok(root) => decide_root(alloc, &root),
        Err(_) => Err(DecideFault::Memory),
    }
}

/// Decides a formula: a certificate, or its first open branch. The pool is left as it was, with TRUE and FALSE alone.
///
/// # Errors
/// As `decide_root`.
pub fn decide(
    alloc: Global,
    spec: &Spec,
    pool: &mut Pool,
    f: &Formula,
) -> Result<Either<Cert, Branch>, DecideFault>
    requires two { length pool.old ≡ 2 }
    requires typed { IsTypedClaim spec.now (claim_of f.now) }
    ensures pool { pool.new ≡ pool.old }
    ensures decides { IfOk result (λ e. Decides (question_of spec.now (claim_of f.now)) e) }
    ensures few { IfOk result (λ e. LeavesFew (question_of spec.now (claim_of f.now))) }
    ensures refused { IfErr result (λ e. IsRefused (question_of spec.now (claim_of f.now)) e) }
    ensures holds { IfOk result (λ e. Tells spec.now (claim_of f.now) e) }
{
    pool.len();
    let _ = spec.functions();
    match Sequent::build(alloc, spec, pool, f) {
        Ok(sequent) => {
            let found = decide_sequent(alloc, spec, pool, &sequent);
            pool.len();
            pool.release(Mark(2));
            found
        }
        Err(_) => Err(DecideFault::Memory),
    }
}
