ghost use Rattle.std.specs.Prelude.{◌≤◌, ℕ, List, Option, OnErr, OnOk};
ghost use Rattle.sp_outside.specs.Causes.{Rose};
ghost use Rattle.sp_outside.specs.Written.{Appends, AppendsPrefix};

use thiserror::Error;

/// A piece wasn't written whole.
#[derive(Clone, Copy, Debug, PartialEq, Eq, Error)]
#[error("the output can't be written")]
pub struct Failed;

/// Where a report goes.
///
/// A sink may tell which bytes it was given. It counts the writes that failed.
pub trait Sink {
    /// The bytes written so far, where they are told.
    ghost told: { Self → Option (List ℕ) };

    /// How many writes failed.
    ghost faults: { Self → ℕ };

    /// Writes the whole piece.
    ///
    /// # Errors
    /// `Failed` where it can't; a prefix of the piece, which may be all of it, was then written.
    fn put(&mut self, piece: &[u8]) -> Result<(), Failed>
        ensures whole { OnOk result (Appends (told self.old) (told self.new) piece.now) }
        ensures part { OnErr result (AppendsPrefix (told self.old) (told self.new) piece.now) }
        ensures failed { OnErr result (Rose (faults self.old) (faults self.new)) }
        ensures later { faults self.old ≤ faults self.new };
}
