use sp_text::Memory;
use sp_values::{Place, Value};

/// Why an invocation has no step in memory.
#[derive(Drop)]
pub enum StepFault {
    /// Two changes of one rank give a place different values: the place, and the two values in order.
    Conflict {
        place: Place,
        first: Value,
        second: Value,
    },
    /// The state would have too many entries.
    StateFull,
    Memory,
}

impl From<Memory> for StepFault {
    ghost use Rattle.std.specs.Prelude.{◌≡◌};
    ghost use Rattle.sp_stepping.specs.declared.fault.StepFault.TheVariants.{Memory as OutOfMemory};

    ghost from_gives = { λ _ e. e ≡ OutOfMemory };

    fn from(_: Memory) -> StepFault {
        StepFault::Memory
    }
}
