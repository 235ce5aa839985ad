//! What holds of the work of `run`, whatever the files.

ghost use Rattle.std.specs.Prelude.{ℕ, List};
ghost use Rattle.sp_outside.specs.Files.{Files};
ghost use Rattle.sp_frame.specs.Laws.{IsLawful};
ghost use Rattle.sp_run_command.specs.Run.{RunDone};

use sp_stepping::{fault_law, one_fault_law};

/// The work comes to one outcome at most, and its refusals hold of the files. It does nothing: its clause is the law.
pub fn run_law()
    ensures { (files : Files) (interface : List ℕ) (instance : List ℕ) (script : List ℕ) → IsLawful files (RunDone interface instance script files) }
{
    fault_law();
    one_fault_law();
}
