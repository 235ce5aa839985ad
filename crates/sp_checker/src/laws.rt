//! Laws of certificates, as calls that do nothing.

ghost use Rattle.sp_checker.specs.Accepting.{CheckedMeansClosed};
ghost use Rattle.sp_checker.specs.Lifts.{FirstFormatIsPlain, LiftedIsSpelled};
ghost use Rattle.sp_checker.specs.Migration.{LiftedChecks};

/// Where a certificate has no fault, no choice of the atoms' values is an open branch.
pub fn checked_means_closed()
    ensures { CheckedMeansClosed }
{}

/// What is migrated checks where it did before.
pub fn lifted_checks()
    ensures { LiftedChecks }
{}

/// A file of the first format has no STEPS node.
pub fn first_format_is_plain()
    ensures { FirstFormatIsPlain }
{}

/// What is migrated of a certificate that checks can be spelled in the second format.
pub fn lifted_is_spelled()
    ensures { LiftedIsSpelled }
{}
