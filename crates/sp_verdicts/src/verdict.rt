//! A formula with its certificate, judged or migrated.

ghost use Rattle.std.specs.Prelude.{◌≡◌, ℕ, length, IfOk, None};
ghost use Rattle.sp_cert.specs.Tree.{tree};
ghost use Rattle.sp_cert.specs.Within.{IsTree};
ghost use Rattle.sp_checker.specs.Accepting.{fault_for};
ghost use Rattle.sp_checker.specs.Lifts.{IsLift};
ghost use Rattle.sp_checker.specs.Migration.{IsPlain};
ghost use Rattle.sp_sequent.specs.Claims.{IsTypedClaim, claim_of, question_of};
ghost use Rattle.sp_verdicts.specs.Laws.{Certifies};
ghost use Rattle.sp_verdicts.specs.Verdicts.{IsJudged, IsVerdict};

use crate::laws::{certified_are_closed, certified_claims_hold};
use crate::root::root_of;
use sp_cert::{Cert, CertFault};
use sp_checker::{Checker, LiftFault};
use sp_core::Spec;
use sp_pool::Pool;
use sp_rules::Root;
use sp_sequent::Formula;
use std::alloc::Global;

/// Why a certificate doesn't certify a formula.
#[derive(Clone, Copy, Debug, PartialEq, Eq)]
pub enum CheckFault {
    /// It doesn't check; this is its first fault.
    Unchecked(CertFault),
    Memory,
}

/// Ok where the certificate of this root checks, else its first fault.
fn check_root(alloc: Global, root: &Root, cert: &Cert) -> Result<(), CheckFault>
    ensures { IsJudged root.now (tree cert.now) result }
{
    let Ok(mut checker) = Checker::open(alloc, root) else {
        return Err(CheckFault::Memory);
    };
    match checker.accepts(cert) {
        Ok(()) => Ok(()),
        Err(fault) => Err(CheckFault::Unchecked(fault)),
    }
}

/// Ok where the certificate of a formula checks; then the formula holds. The pool is as before.
///
/// # Errors
/// `Unchecked` with the certificate's first fault; `Memory`.
pub fn check_formula(
    alloc: Global,
    spec: &Spec,
    pool: &mut Pool,
    formula: &Formula,
    cert: &Cert,
) -> Result<(), CheckFault>
    requires two { length pool.old ≡ 2 }
    requires typed { IsTypedClaim spec.now (claim_of formula.now) }
    ensures verdict { IsVerdict spec.now (claim_of formula.now) (tree cert.now) result }
    ensures pool { pool.new ≡ pool.old }
{
    spec.functions();
    certified_are_closed();
    certified_claims_hold();
    let Ok(root) = root_of(alloc, spec, pool, formula) else {
        return Err(CheckFault::Memory);
    };
    check_root(alloc, &root, cert)
}

/// The certificate of this root migrated, or its first fault.
fn lift_root(alloc: Global, root: &Root, cert: &Cert) -> Result<Cert, LiftFault>
    requires plain { IsPlain (tree cert.now) }
    ensures lift { IsLift root.now (tree cert.now) result }
    ensures checks { IfOk result (λ c. fault_for root.now (tree c) ≡ None) }
    ensures spelled { (depth : ℕ) → IsTree 1 depth (tree cert.now) → IfOk result (λ c. IsTree 2 64 (tree c)) }
{
    let Ok(mut checker) = Checker::open(alloc, root) else {
        return Err(LiftFault::Memory);
    };
    checker.lift(alloc, cert)
}

/// The certificate of a formula migrated to the second format. The pool is as before.
///
/// # Errors
/// `Unchecked` with the certificate's first fault where it doesn't check; `Memory`.
pub fn lift_formula(
    alloc: Global,
    spec: &Spec,
    pool: &mut Pool,
    formula: &Formula,
    cert: &Cert,
) -> Result<Cert, LiftFault>
    requires two { length pool.old ≡ 2 }
    requires typed { IsTypedClaim spec.now (claim_of formula.now) }
    requires plain { IsPlain (tree cert.now) }
    ensures lift { IsLift (question_of spec.now (claim_of formula.now)) (tree cert.now) result }
    ensures checks { IfOk result (λ c. Certifies spec.now (claim_of formula.now) (tree c)) }
    ensures spelled { (depth : ℕ) → IsTree 1 depth (tree cert.now) → IfOk result (λ c. IsTree 2 64 (tree c)) }
    ensures pool { pool.new ≡ pool.old }
{
    let Ok(root) = root_of(alloc, spec, pool, formula) else {
        return Err(LiftFault::Memory);
    };
    lift_root(alloc, &root, cert)
}
