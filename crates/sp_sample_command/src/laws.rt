//! What holds of the work of `sample`, whatever the files.

ghost use Rattle.std.specs.Prelude.{ℕ};
ghost use Rattle.sp_outside.specs.Files.{Files};
ghost use Rattle.sp_frame.specs.Laws.{IsLawful};
ghost use Rattle.sp_sample_command.specs.Sample.{SampleDone};
ghost use Rattle.sp_sample_command.specs.Secure.{AssertsNothing, LoadsNothing, SampledAreSecure};

use sp_check_command::{answered_law, proved_law};

/// The work comes to one outcome at most, and its refusals say nothing of files. It does nothing: its clause is the law.
pub fn sample_law()
    ensures { (files : Files) (n : ℕ) → IsLawful files (SampleDone n) }
{}

/// It is never refused for a file that is missing or too long. It does nothing: its clause is the law.
pub fn nothing_law()
    ensures { (n : ℕ) → LoadsNothing n }
{}

/// Of a size up to 100 it is never refused for an assertion that is false. It does nothing: its clause is the law.
pub fn admissible_law()
    ensures { AssertsNothing }
{}

/// Where it accepts, the texts read as an interface whose specification is secure. It does nothing: its clause is the law.
pub fn sampled_law()
    ensures { SampledAreSecure }
{
    proved_law();
}
