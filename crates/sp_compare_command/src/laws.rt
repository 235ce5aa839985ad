//! What holds of the work of `compare`, whatever the files.

ghost use Rattle.std.specs.Prelude.{ℕ, List};
ghost use Rattle.sp_outside.specs.Files.{Files};
ghost use Rattle.sp_frame.specs.Laws.{IsLawful};
ghost use Rattle.sp_compare_command.specs.Compare.{CompareDone};

use sp_stepping::{fault_law, one_fault_law};

/// The work comes to one outcome at most, and its refusals hold of the files. It does nothing: its clause is the law.
pub fn compare_law()
    ensures { (files : Files) (interface : List ℕ) (instance : List ℕ) (script : List ℕ) (level : List ℕ) → IsLawful files (CompareDone interface instance script level files) }
{
    fault_law();
    one_fault_law();
}
