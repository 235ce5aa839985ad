//! Formulas of a specification, judged by their open branches.

ghost use Rattle.sp_sequent.specs.Claims.{IsTypedClaim, claim_of, question_of};
ghost use Rattle.sp_claims.specs.Laws.{HasNoOpenBranch};
ghost use Rattle.sp_claims.specs.Models.{ClaimHolds};

use sp_core::Spec;
use sp_sequent::Formula;

/// Tells that a formula without an open branch holds in every instance of its specification. It does nothing.
pub fn tell_holds(spec: &Spec, formula: &Formula)
    requires typed { IsTypedClaim spec.now (claim_of formula.now) }
    requires closed { HasNoOpenBranch (question_of spec.now (claim_of formula.now)) }
    ensures { ClaimHolds spec.now (claim_of formula.now) }
{
    let _ = spec.functions();
}
