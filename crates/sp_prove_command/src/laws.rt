//! What holds of the work of `prove`, whatever the files.

ghost use Rattle.std.specs.Prelude.{ℕ, List};
ghost use Rattle.sp_outside.specs.Files.{Files};
ghost use Rattle.sp_frame.specs.Laws.{IsLawful};
ghost use Rattle.sp_prove_command.specs.Laws.{CertifiedAreSpecified, ProvedAreChecked, ProvedAreSecure};
ghost use Rattle.sp_prove_command.specs.Prove.{ProveDone};

use sp_check_command::accepted_law;

/// The work comes to one outcome at most, and its refusals hold of the files. It does nothing: its clause is the law.
pub fn prove_law()
    ensures { (files : Files) (interface : List ℕ) → IsLawful files (ProveDone interface files) }
{}

/// `prove` comes to certificates where `check` accepts, and to what `check` comes to elsewhere. It does nothing: its clause
/// is the law.
pub fn checked_law()
    ensures { ProvedAreChecked }
{}

/// Where `prove` comes to certificates, the files read as an interface whose specification is secure. It does nothing: its
/// clause is the law.
pub fn proved_law()
    ensures { ProvedAreSecure }
{
    accepted_law();
    checked_law();
}

/// What `prove` certifies is the specification that the files stand for. It does nothing: its clause is the law.
pub fn certified_law()
    ensures { CertifiedAreSpecified }
{}
