//! What holds of the work of `verify` and of `migrate`, whatever the files.

ghost use Rattle.std.specs.Prelude.{ℕ, List};
ghost use Rattle.sp_outside.specs.Files.{Files};
ghost use Rattle.sp_frame.specs.Laws.{IsLawful};
ghost use Rattle.sp_verify_command.specs.Laws.{CertifiedAreAccepted, MigratedAreAccepted, MigratedAreCertified, VerifiedAreSecure};
ghost use Rattle.sp_verify_command.specs.Migrate.{MigrateDone};
ghost use Rattle.sp_verify_command.specs.Verify.{VerifyDone};

use sp_check_command::secured_law;
use sp_checker::{first_format_is_plain, lifted_checks, lifted_is_spelled};
use sp_verdicts::certified_are_closed;

/// The work of `verify` comes to one outcome at most, and its refusals hold of the files. It does nothing: its clause is the
/// law, as for each call here.
pub fn verify_law()
    ensures { (files : Files) (interface certs : List ℕ) → IsLawful files (VerifyDone interface certs files) }
{}

/// So does the work of `migrate`.
pub fn migrate_law()
    ensures { (files : Files) (interface certs : List ℕ) → IsLawful files (MigrateDone interface certs files) }
{}

/// Where `verify` accepts, the files read as an interface whose specification is secure.
pub fn verified_law()
    ensures { VerifiedAreSecure }
{
    certified_are_closed();
    secured_law();
}

/// `verify` accepts each file that spells one certificate for each formula, each of which checks.
pub fn certified_law()
    ensures { CertifiedAreAccepted }
{}

/// Where `migrate` accepts, its bytes spell a file of the second format, with one certificate for each formula, each of
/// which checks.
pub fn migrated_law()
    ensures { MigratedAreCertified }
{
    first_format_is_plain();
    lifted_checks();
    lifted_is_spelled();
}

/// So `verify` accepts what `migrate` prints.
pub fn migrated_accepted_law()
    ensures { MigratedAreAccepted }
{
    certified_law();
    migrated_law();
}
