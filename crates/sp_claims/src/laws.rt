//! Laws of formulas, as calls that do nothing.

ghost use Rattle.sp_claims.specs.Laws.{ClosedClaimsHold, CounterexamplesAreOpen};

/// What makes the hypotheses TRUE and the goal FALSE is an open branch.
pub fn counterexamples_are_open()
    ensures { CounterexamplesAreOpen }
{}

/// A formula without an open branch holds.
pub fn closed_claims_hold()
    ensures { ClosedClaimsHold }
{}
