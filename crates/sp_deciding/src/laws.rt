//! What holds of decisions.

ghost use Rattle.sp_deciding.specs.Laws.{ClosedLaw, DecidedLaw};

/// Deciding comes to one outcome at most, and its refusals say nothing of files: a question has one first open branch at
/// most, and leaves one number of atoms undetermined. It does nothing: its clause is the law.
pub fn decided_law()
    ensures { DecidedLaw }
{}

/// Where no decision is open, no formula has an open branch. It does nothing: its clause is the law.
pub fn closed_law()
    ensures { ClosedLaw }
{}
