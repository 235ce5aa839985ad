ghost use Rattle.std.specs.Prelude.{◌≡◌, ◌≤◌, ℕ, [], Option, None, Some, IfSome, IsErrOf, OnErr, OnOk, length};
ghost use Rattle.sp_outside.specs.Causes.{Rose};
ghost use Rattle.sp_outside.specs.Files.{Files, IsTooLong, first_file};

use std::alloc::AllocError;
use thiserror::Error;

/// Why a file wasn't loaded.
#[derive(Clone, Copy, Debug, PartialEq, Eq, Error)]
pub enum LoadFault {
    #[error("there is no file of this name")]
    Missing,
    #[error("the file has more bytes than asked for")]
    TooLong,
    #[error("the file can't be read")]
    Failed,
    #[error("memory was refused")]
    Memory,
}

impl From<AllocError> for LoadFault {
    ghost use Rattle.std.specs.Prelude.{◌≡◌};
    ghost use Rattle.sp_outside.specs.declared.library.LoadFault.TheVariants as fault;

    ghost from_gives = { λ _ f. f ≡ fault.Memory };

    fn from(_refused: AllocError) -> LoadFault {
        LoadFault::Memory
    }
}

/// A source of files.
///
/// A library may tell which files it holds; what it tells never changes. It counts the reads that failed.
pub trait Library {
    /// The files that it holds, where they are told.
    ghost told: { Self → Option Files };

    /// How many reads failed.
    ghost faults: { Self → ℕ };

    /// Reads the file of this name into an empty list, where it has at most `limit` bytes.
    ///
    /// # Errors
    /// `Missing` where no file has the name, `TooLong` where it has more than `limit` bytes, `Failed` where it can't be
    /// read, and `Memory`. The list is then empty.
    fn load(&mut self, name: &str, limit: u64, into: &mut Vec<u8>) -> Result<(), LoadFault>
        requires { into.old.items ≡ [] }

        ensures bytes { OnOk result (IfSome (told self.old) (λ files. first_file name.now files ≡ Some into.new.items)) }
        ensures within { OnOk result (length into.new.items ≤ limit) }
        ensures missing { IsErrOf result LoadFault.Missing → IfSome (told self.old) (λ files. first_file name.now files ≡ None) }
        ensures too_long { IsErrOf result LoadFault.TooLong → IfSome (told self.old) (IsTooLong name.now limit) }
        ensures failed { IsErrOf result LoadFault.Failed → Rose (faults self.old) (faults self.new) }

        ensures refused { OnErr result (into.new.items ≡ []) }
        ensures same { told self.new ≡ told self.old }
        ensures later { faults self.old ≤ faults self.new };
}
