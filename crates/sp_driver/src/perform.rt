//! The commands.

ghost use Rattle.std.specs.Prelude.{◌≡◌, ℕ, Err, Some};
ghost use Rattle.sp_words.specs.Meant.{command_meant};
ghost use Rattle.sp_words.specs.Words.{IsSized, sample};
ghost use Rattle.sp_frame.specs.Endings.{Printing};
ghost use Rattle.sp_frame.specs.Loads.{Loads};
ghost use Rattle.sp_frame.specs.Steps.{DoesLoad};
ghost use Rattle.sp_frame.specs.Uncertified as lines;
ghost use Rattle.sp_sample_command.specs.Sample.{SampleDone};
ghost use Rattle.sp_driver.specs.Certified.{spells};
ghost use Rattle.sp_driver.specs.Report.{CommandDone, IsLoading};

use sp_check_command::check_command;
use sp_compare_command::compare_command;
use sp_formulas_command::formulas_command;
use sp_frame::{LoadStop, Printed, as_loading};
use sp_hierarchy_command::hierarchy_command;
use sp_outside::Library;
use sp_prove_command::prove_command;
use sp_run_command::run_command;
use sp_sample_command::sample_command;
use sp_verify_command::{migrate_command, verify_command};
use sp_words::Command;
use std::alloc::Global;

/// The lines of a command.
///
/// # Errors
/// `Refused` where a step is refused, `ReadFault`, and `Memory`.
#[tactic(auto, using(sp_frame::proofs::Uncertified::loads_widened))]
pub fn perform<L: Library>(
    alloc: Global,
    command: Command<'_>,
    lib: &mut L,
) -> Result<Printed, LoadStop>
    requires { IsSized (command_meant command) }
    ensures work { Loads L.told L.faults lib.old lib.new (λ files. Printing spells (CommandDone (command_meant command.entry) files)) result }
    // `sample` does its work whatever the library.
    ensures alone { (size : ℕ) → command_meant command.entry ≡ sample size → DoesLoad (Printing lines.spells (SampleDone size)) result }
    ensures read_fault { result ≡ Err LoadStop.ReadFault → IsLoading (Some (command_meant command.entry)) }
{
    match command {
        Command::Check { interface } => check_command(alloc, lib, interface),
        Command::Formulas { interface } => formulas_command(alloc, lib, interface),
        Command::Prove { interface } => prove_command(alloc, lib, interface),
        Command::Verify {
            interface,
            certificates,
        } => verify_command(alloc, lib, interface, certificates),
        Command::Migrate {
            interface,
            certificates,
        } => migrate_command(alloc, lib, interface, certificates),
        Command::Run {
            interface,
            instance,
            script,
        } => run_command(alloc, lib, interface, instance, script),
        Command::Compare {
            interface,
            instance,
            script,
            level,
        } => compare_command(alloc, lib, interface, instance, script, level),
        Command::Hierarchy { hierarchy } => hierarchy_command(alloc, lib, hierarchy),
        Command::Sample { size } => as_loading(sample_command(alloc, size)),
    }
}
