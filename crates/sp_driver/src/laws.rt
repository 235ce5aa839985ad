//! What holds of commands and of endings, whatever the words and the files.

ghost use Rattle.std.specs.Prelude.{◌≡◌, ℕ, List};
ghost use Rattle.sp_outside.specs.Files.{Files};
ghost use Rattle.sp_frame.specs.Endings.{Ending};
ghost use Rattle.sp_driver.specs.Certified.{Certified};
ghost use Rattle.sp_driver.specs.Laws.{CommandLaw, PrintedAreAccepted};
ghost use Rattle.sp_driver.specs.Report.{Ends};

use sp_check_command::check_law;
use sp_compare_command::compare_law;
use sp_formulas_command::formulas_law;
use sp_hierarchy_command::hierarchy_law;
use sp_prove_command::{certified_law as proved_parts, checked_law, prove_law};
use sp_run_command::run_law;
use sp_sample_command::sample_law;
use sp_verify_command::{certified_law, migrate_law, migrated_law, verify_law};

/// The work of each command comes to one outcome at most, and its refusals hold of the files. It does nothing: its clause
/// is the law.
pub fn command_law()
    ensures { CommandLaw }
{
    check_law();
    formulas_law();
    prove_law();
    verify_law();
    migrate_law();
    run_law();
    compare_law();
    hierarchy_law();
    sample_law();
}

/// Words and files have at most one ending. It does nothing: its clause is the law.
pub fn one_ending()
    ensures { (words : List (List ℕ)) (files : Files) (a b : Ending Certified) → Ends words files a → Ends words files b → a ≡ b }
{
    command_law();
}

/// What `prove` and `migrate` print is accepted by `verify`. It does nothing: its clause is the law.
pub fn printed_law()
    ensures { PrintedAreAccepted }
{
    proved_parts();
    checked_law();
    certified_law();
    migrated_law();
}
