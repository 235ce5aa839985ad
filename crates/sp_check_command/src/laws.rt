//! What holds of the work of `check`, whatever the files.

ghost use Rattle.std.specs.Prelude.{ℕ, List, Option};
ghost use Rattle.sp_outside.specs.Files.{Files};
ghost use Rattle.sp_core.specs.Parts.{Parts};
ghost use Rattle.sp_frame.specs.Laws.{IsLawful};
ghost use Rattle.sp_check_command.specs.Check.{CheckAnswered, CheckDone};
ghost use Rattle.sp_check_command.specs.Secure.{AcceptedAreSecure, AnsweredAreProved, ClosedAreSecure};

use sp_claims::closed_claims_hold;
use sp_formula_laws::formulas_are_typed;
use sp_hold::laws::unwinding_law;

/// The work comes to one outcome at most, and its refusals hold of the files. It does nothing: its clause is the law.
pub fn check_law()
    ensures { (files : Files) (interface : List ℕ) → IsLawful files (CheckDone interface files) }
{}

/// The work over a specification comes to one outcome at most, and its refusals say nothing of files. It does nothing: its
/// clause is the law.
pub fn answered_law()
    ensures { (files : Files) (owner : Option (List ℕ)) (p : Parts) → IsLawful files (CheckAnswered owner p) }
{}

/// Where the work over a well-formed specification accepts, each of its flow formulas holds and it is secure. It does
/// nothing: its clause is the law.
pub fn proved_law()
    ensures { AnsweredAreProved }
{
    closed_claims_hold();
    unwinding_law();
    formulas_are_typed();
}

/// Where a system is read and judged, and no flow formula of its specification has an open branch, its interface is secure.
/// It does nothing: its clause is the law.
pub fn secured_law()
    ensures { ClosedAreSecure }
{
    closed_claims_hold();
    unwinding_law();
    formulas_are_typed();
}

/// Where `check` accepts, the files read as an interface whose specification is secure. It does nothing: its clause is the law.
pub fn accepted_law()
    ensures { AcceptedAreSecure }
{
    closed_claims_hold();
    unwinding_law();
    formulas_are_typed();
}
