//! Laws of formulas and their certificates, as calls that do nothing.

ghost use Rattle.sp_cert.specs.Tree.{tree};
ghost use Rattle.sp_sequent.specs.Claims.{IsTypedClaim, claim_of};
ghost use Rattle.sp_verdicts.specs.Laws.{CertifiedAreClosed, CertifiedClaimsHold, Certifies};
ghost use Rattle.sp_verdicts.specs.Verdicts.{IsCertified};

use sp_cert::Cert;
use sp_checker::checked_means_closed;
use sp_claims::closed_claims_hold;
use sp_core::Spec;
use sp_sequent::Formula;

/// A formula never has both a certificate that checks and an open branch.
pub fn certified_are_closed()
    ensures { CertifiedAreClosed }
{
    checked_means_closed();
}

/// A formula with a certificate that checks holds.
pub fn certified_claims_hold()
    ensures { CertifiedClaimsHold }
{
    certified_are_closed();
    closed_claims_hold();
}

/// Tells what a certificate that checks shows of its formula. It does nothing.
pub fn tell_certified(spec: &Spec, formula: &Formula, cert: &Cert)
    requires typed { IsTypedClaim spec.now (claim_of formula.now) }
    requires certified { Certifies spec.now (claim_of formula.now) (tree cert.now) }
    ensures { IsCertified spec.now (claim_of formula.now) (tree cert.now) }
{
    let _ = spec.functions();
    certified_are_closed();
    certified_claims_hold();
}
