//! The top call.

ghost use Rattle.std.specs.Prelude.{◌≡◌, ◌≤◌, ℕ, ◌⊎◌, None, Some, IsTrue, IfOk, IfSome, MatchResult};
ghost use Rattle.sp_outside.specs.Causes.{Rose};
ghost use Rattle.sp_outside.specs.Written.{Appends, AppendsPrefix};
ghost use Rattle.sp_frame.specs.Status.{is_reported};
ghost use Rattle.sp_driver.specs.Report.{IsLoading, IsUnloaded};
ghost use Rattle.sp_driver.specs.Run.{AcceptsSecure, CutShort, HasReport, IsCaused, IsDetermined, IsWritten, Reported, ShowsSecure};
ghost use Rattle.sp_words.specs.Words.{command_of, sample, texts_of};

use crate::laws::command_law;
use crate::perform::perform;
use sp_check_command::accepted_law;
use sp_frame::{Failure, Report, Status, report_of, words_text};
use sp_headline::{
    checked_lines_law, refusals_law, refused_lines_law, sampled_lines_law, verified_lines_law,
};
use sp_hierarchy_command::accepted_law as hierarchy_accepted_law;
use sp_hierarchy_headline::{
    hierarchy_lines_law, hierarchy_refusals_law, mapping_lines_law, mapping_rows_law,
};
use sp_outside::{Library, Sink};
use sp_prove_command::{checked_law, proved_law};
use sp_sample_command::{admissible_law, nothing_law, sampled_law};
use sp_verify_command::verified_law;
use sp_words::{WordsFault, read_words};
use std::alloc::Global;

/// Does the work that the words name, and writes its report once that is complete.
pub fn run<L: Library, S: Sink>(alloc: Global, words: &[String], lib: &mut L, out: &mut S) -> Status
    // The status and the bytes are those of an ending of the words, and of each.
    ensures reported { IsTrue (is_reported result) → IfSome (L.told lib.old) (Reported (texts_of words.now) result (S.told out.old) (S.told out.new)) }
    ensures determined { IfSome (L.told lib.old) (IsDetermined (texts_of words.now) result (S.told out.old) (S.told out.new)) }

    // What is accepted is secure: where `check`, `prove`, `verify`, `hierarchy` or `sample` ends with Ok; and by the bytes that
    // are written, whatever the status, where they hold a line that begins with ACCEPTED (with `hierarchy`, what stands above it).
    ensures accepted { result ≡ Status.Ok → IfSome (L.told lib.old) (AcceptsSecure (texts_of words.now)) }
    ensures shown { IfSome (L.told lib.old) (ShowsSecure (texts_of words.now) (S.told out.old) (S.told out.new)) }

    // Each status comes exactly where its cause is.
    ensures caused { IfSome (L.told lib.old) (IsCaused (texts_of words.now) result) }

    // Words, exactly where they are no command, and whatever the library.
    ensures words_only { result ≡ Status.Words → command_of (texts_of words.now) ≡ None }
    ensures words_always { command_of (texts_of words.now) ≡ None → (result ≡ Status.Words) ⊎ (result ≡ Status.WriteFault) ⊎ (result ≡ Status.Memory) }

    // Each other answer has its cause, and writes no more than is said.
    ensures read_fault { result ≡ Status.ReadFault → Rose (L.faults lib.old) (L.faults lib.new) }
    ensures loading { result ≡ Status.ReadFault → IsLoading (command_of (texts_of words.now)) }
    ensures write_fault { result ≡ Status.WriteFault → Rose (S.faults out.old) (S.faults out.new) }
    ensures cut_short { result ≡ Status.WriteFault → IfSome (L.told lib.old) (CutShort (texts_of words.now) (S.told out.old) (S.told out.new)) }
    ensures unread { result ≡ Status.ReadFault → S.told out.new ≡ S.told out.old }
    ensures memory { result ≡ Status.Memory → S.told out.new ≡ S.told out.old }

    // `sample` loads no file and has no assertion, whatever the library.
    ensures unloaded { (size : ℕ) → command_of (texts_of words.now) ≡ Some (sample size) → IsUnloaded result }

    // Where no count rose, there is a report, or memory was refused.
    ensures complete { ¬ Rose (L.faults lib.old) (L.faults lib.new) → ¬ Rose (S.faults out.old) (S.faults out.new) → IsTrue (is_reported result) ⊎ (result ≡ Status.Memory) }

    ensures same { L.told lib.new ≡ L.told lib.old }
    ensures later { (L.faults lib.old ≤ L.faults lib.new) × (S.faults out.old ≤ S.faults out.new) }
{
    command_law();
    accepted_law();
    proved_law();
    checked_law();
    verified_law();
    sampled_law();
    hierarchy_accepted_law();
    checked_lines_law();
    verified_lines_law();
    sampled_lines_law();
    refused_lines_law();
    refusals_law();
    hierarchy_refusals_law();
    hierarchy_lines_law();
    mapping_lines_law();
    mapping_rows_law();
    let ended = report(alloc, words, lib);
    deliver(ended, out)
}

// The report of the words.
fn report<L: Library>(alloc: Global, words: &[String], lib: &mut L) -> Result<Report, Failure>
    ensures reports { IfOk result (λ report. IfSome (L.told lib.old) (HasReport (texts_of words.now) report.bytes.items report.status)) }
    ensures reported { IfOk result (λ report. IsTrue (is_reported report.status)) }
    ensures words_only { IfOk result (λ report. report.status ≡ Status.Words → command_of (texts_of words.now) ≡ None) }
    ensures words_always { command_of (texts_of words.now) ≡ None → IfOk result (λ report. report.status ≡ Status.Words) }
    ensures read_fault { result ≡ Err Failure.ReadFault → Rose (L.faults lib.old) (L.faults lib.new) }
    ensures loading { result ≡ Err Failure.ReadFault → IsLoading (command_of (texts_of words.now)) }
    ensures unloaded { (size : ℕ) → command_of (texts_of words.now) ≡ Some (sample size) → IfOk result (λ report. IsUnloaded report.status) }
    ensures same { L.told lib.new ≡ L.told lib.old }
    ensures later { L.faults lib.old ≤ L.faults lib.new }
{
    nothing_law();
    admissible_law();
    match read_words(alloc, words) {
        Ok(command) => report_of(alloc, perform(alloc, command, lib)),
        Err(WordsFault::Words) => Ok(Report {
            bytes: words_text(alloc)?,
            status: Status::Words,
        }),
        Err(WordsFault::Memory) => Err(Failure::Memory),
    }
}

// Writes a complete report, in one piece.
fn deliver<S: Sink>(ended: Result<Report, Failure>, out: &mut S) -> Status
    requires { IfOk ended (λ report. IsTrue (is_reported report.status)) }
    ensures whole { IsTrue (is_reported result) → MatchResult ended (λ report. IsWritten (S.told out.old) (S.told out.new) report result) (λ _. ⊥) }
    ensures part { result ≡ Status.WriteFault → MatchResult ended (λ report. AppendsPrefix (S.told out.old) (S.told out.new) report.bytes.items) (λ _. ⊥) }
    ensures failed { result ≡ Status.WriteFault → Rose (S.faults out.old) (S.faults out.new) }
    ensures read_fault { result ≡ Status.ReadFault → (ended ≡ Err Failure.ReadFault) × (S.told out.new ≡ S.told out.old) }
    ensures memory { result ≡ Status.Memory → S.told out.new ≡ S.told out.old }
    ensures later { S.faults out.old ≤ S.faults out.new }
{
    match ended {
        Ok(report) => match out.put(&report.bytes) {
            Ok(()) => report.status,
            Err(_) => Status::WriteFault,
        },
        Err(Failure::ReadFault) => Status::ReadFault,
        Err(Failure::Memory) => Status::Memory,
    }
}
