//! What is printed of a refusal, and the status of an ending.

ghost use Rattle.std.specs.Prelude.{◌≡◌, ◌≢◌, IfOk, IsTrue};
ghost use Rattle.sp_frame.specs.Endings.{IsReportOf, judged_status, refused_line, refused_status};
ghost use Rattle.sp_frame.specs.Steps.{StopsFor};
ghost use Rattle.sp_frame.specs.Status.{is_reported};

use crate::lines::{
    broken_order_text, limit_text, malformed_text, missing_text, not_admissible_text,
    too_long_text, work_text,
};
use crate::refusal::{LoadStop, Printed, Refusal, Stop, Verdict};
use crate::status::Status;
use sp_text::{MOST_FILE_BYTES, Malformed, Memory, Name};
use std::alloc::Global;

/// The line of a refusal.
///
/// # Errors
/// `Memory` where it can't be held.
pub fn refusal_text(alloc: Global, refusal: &Refusal) -> Result<Vec<u8>, Memory>
    ensures { IfOk result (λ text. text.items ≡ refused_line refusal.now) }
{
    match refusal {
        Refusal::Missing(name) => missing_text(alloc, name.bytes()),
        Refusal::TooLong(name, most) => too_long_text(alloc, name.bytes(), *most),
        Refusal::LongWord => too_long_text(alloc, b"LEVEL", MOST_FILE_BYTES),
        Refusal::Broken(name, malformed) => malformed_text(alloc, name.bytes(), *malformed),
        Refusal::BrokenOrder(name, malformed, first, second) => {
            broken_order_text(
                alloc,
                name.bytes(),
                *malformed,
                first.bytes(),
                second.bytes(),
            )
        }
        Refusal::Exceeded(name, limit) => limit_text(alloc, name.bytes(), *limit),
        Refusal::NotAdmissible(name, number) => not_admissible_text(alloc, name.bytes(), *number),
        Refusal::Work(limit) => work_text(alloc, limit),
    }
}

/// The status of a refusal.
pub fn refusal_status(refusal: &Refusal) -> Status
    ensures status { result ≡ refused_status refusal.now }
    ensures reported { IsTrue (is_reported result) }
    ensures no_words { result ≢ Status.Words }
{
    match refusal {
        Refusal::Missing(_) => Status::Missing,
        Refusal::TooLong(..) | Refusal::LongWord | Refusal::Exceeded(..) | Refusal::Work(_) =>
            Status::Limit,
        Refusal::Broken(..) | Refusal::BrokenOrder(..) => Status::Malformed,
        Refusal::NotAdmissible(..) => Status::NotAdmissible,
    }
}

/// The status of an answer.
pub fn verdict_status(verdict: Verdict) -> Status
    ensures status { result ≡ judged_status verdict }
    ensures reported { IsTrue (is_reported result) }
    ensures no_words { result ≢ Status.Words }
{
    match verdict {
        Verdict::Ok => Status::Ok,
        Verdict::Refused => Status::Refused,
        Verdict::Conflict => Status::Conflict,
    }
}

/// Why a call stops that finds the text of this name broken.
pub fn broken(alloc: Global, name: &[u8], malformed: Malformed) -> Stop
    ensures { StopsFor (Refusal.Broken name.now malformed) result }
{
    match Name::new(alloc, name) {
        Ok(file) => Stop::Refused(Refusal::Broken(file, malformed)),
        Err(Memory) => Stop::Memory,
    }
}

/// What a run prints, and the status with which it ends where that is printed whole.
#[derive(Drop)]
pub struct Report {
    pub bytes: Vec<u8>,
    pub status: Status,
}

/// Why a run has no report.
#[derive(Clone, Copy, Debug, PartialEq, Eq)]
pub enum Failure {
    ReadFault,
    Memory,
}

impl From<Memory> for Failure {
    ghost use Rattle.std.specs.Prelude.{◌≡◌};
    ghost use Rattle.sp_frame.specs.declared.report.Failure.TheVariants as failure;

    ghost from_gives = { λ _ f. f ≡ failure.Memory };

    fn from(_: Memory) -> Failure {
        Failure::Memory
    }
}

/// The report of a command's answer, or of its refusal.
///
/// # Errors
/// `ReadFault` where that stopped the command, and `Memory`.
pub fn report_of(alloc: Global, ended: Result<Printed, LoadStop>) -> Result<Report, Failure>
    ensures shows { IfOk result (λ report. IsReportOf ended report.bytes.items report.status) }
    ensures reported { IfOk result (λ report. IsTrue (is_reported report.status)) }
    ensures no_words { IfOk result (λ report. report.status ≢ Status.Words) }
    ensures read_fault { result ≡ Err Failure.ReadFault → ended ≡ Err LoadStop.ReadFault }
{
    match ended {
        Ok(printed) => Ok(Report {
            bytes: printed.bytes,
            status: verdict_status(printed.verdict),
        }),
        Err(LoadStop::Refused(refusal)) => Ok(Report {
            bytes: refusal_text(alloc, &refusal)?,
            status: refusal_status(&refusal),
        }),
        Err(LoadStop::ReadFault) => Err(Failure::ReadFault),
        Err(LoadStop::Memory) => Err(Failure::Memory),
    }
}
