//! How a step of a command's work ends where it gives no value.

ghost use Rattle.std.specs.Prelude.{◌≡◌};
ghost use Rattle.sp_frame.specs.Steps.{as_loading};

use sp_text::{Limit, Malformed, Memory, Name, Quantity};
use std::alloc::AllocFailed;

/// Why the work of a command ends without an answer.
#[derive(Debug, Drop)]
pub enum Refusal {
    /// No file has this name.
    Missing(Name),
    /// The file of this name has more bytes than a text of its sort may have.
    TooLong(Name, u32),
    /// The word for a level has more bytes than a text may have.
    LongWord,
    /// The text of this name breaks a rule.
    Broken(Name, Malformed),
    /// The text of this name declares an order that breaks a rule at the two levels of these names.
    BrokenOrder(Name, Malformed, Name, Name),
    /// The text of this name exceeds a limit.
    Exceeded(Name, Limit),
    /// The assertion of this number is false in the instance of this file.
    NotAdmissible(Name, u32),
    /// The work exceeds a limit.
    Work(WorkLimit),
}

/// A limit that the work of a command exceeds.
#[derive(Debug, Drop)]
pub struct WorkLimit {
    pub quantity: Quantity,
    /// The interface or mapping that is worked on, where there are several.
    pub owner: Option<Name>,
    pub place: WorkPlace,
    /// What was found, where the report tells it.
    pub found: Option<u32>,
}

/// Where the work of a command exceeds a limit.
#[derive(Clone, Copy, Debug, PartialEq, Eq)]
pub enum WorkPlace {
    /// The list of formulas of an interface or a mapping.
    Interface,
    /// The formula of this number, from 1.
    Formula(u32),
    /// The invocation of this number, from 0.
    Invocation(u32),
}

/// Why a step that is a function of texts gives no value.
#[derive(Debug, Drop)]
pub enum Stop {
    Refused(Refusal),
    Memory,
}

/// Why a step that loads files gives no value.
#[derive(Debug, Drop)]
pub enum LoadStop {
    Refused(Refusal),
    ReadFault,
    Memory,
}

/// What the work of a command comes to where no step of it is refused.
#[derive(Clone, Copy, Debug, PartialEq, Eq)]
pub enum Verdict {
    /// The work was done.
    Ok,
    /// The work was done, and something was refused by it.
    Refused,
    /// Two changes of one invocation give a place two values.
    Conflict,
}

/// A command's lines.
#[derive(Drop)]
pub struct Printed {
    pub bytes: Vec<u8>,
    pub verdict: Verdict,
}

impl From<Memory> for Stop {
    ghost use Rattle.std.specs.Prelude.{◌≡◌};
    ghost use Rattle.sp_frame.specs.declared.refusal.Stop.TheVariants as stop;

    ghost from_gives = { λ _ s. s ≡ stop.Memory };

    fn from(_: Memory) -> Stop {
        Stop::Memory
    }
}

impl From<Memory> for LoadStop {
    ghost use Rattle.std.specs.Prelude.{◌≡◌};
    ghost use Rattle.sp_frame.specs.declared.refusal.LoadStop.TheVariants as stop;

    ghost from_gives = { λ _ s. s ≡ stop.Memory };

    fn from(_: Memory) -> LoadStop {
        LoadStop::Memory
    }
}

impl<T: Drop> From<AllocFailed<T>> for Stop {
    ghost use Rattle.std.specs.Prelude.{◌≡◌};
    ghost use Rattle.sp_frame.specs.declared.refusal.Stop.TheVariants as stop;

    ghost from_gives = { λ _ s. s ≡ stop.Memory };

    fn from(_: AllocFailed<T>) -> Stop {
        Stop::Memory
    }
}

impl<T: Drop> From<AllocFailed<T>> for LoadStop {
    ghost use Rattle.std.specs.Prelude.{◌≡◌};
    ghost use Rattle.sp_frame.specs.declared.refusal.LoadStop.TheVariants as stop;

    ghost from_gives = { λ _ s. s ≡ stop.Memory };

    fn from(_: AllocFailed<T>) -> LoadStop {
        LoadStop::Memory
    }
}

/// The answer of a step that is a function of texts, among those that load files.
pub fn as_loading<T>(answer: Result<T, Stop>) -> Result<T, LoadStop>
    ensures { result ≡ as_loading answer }
{
    match answer {
        Ok(value) => Ok(value),
        Err(Stop::Refused(refusal)) => Err(LoadStop::Refused(refusal)),
        Err(Stop::Memory) => Err(LoadStop::Memory),
    }
}
