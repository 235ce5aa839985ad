//! Loads the texts of files.

ghost use Rattle.std.specs.Prelude.{IfOk, ◌≤◌, length};
ghost use Rattle.sp_frame.specs.Files.{Loaded};
ghost use Rattle.sp_frame.specs.Loads.{Loads};

use crate::refusal::{LoadStop, Refusal};
use sp_outside::{Library, LoadFault};
use sp_text::{Name, Sequence};
use std::alloc::Global;

/// The text of a file of at most `most` bytes.
///
/// # Errors
/// `Refused` where the file is missing or too long, `ReadFault` where it can't be read, and `Memory`.
pub fn load_text<L: Library>(
    alloc: Global,
    lib: &mut L,
    name: &str,
    most: u32,
) -> Result<Sequence<u8>, LoadStop>
    ensures loads { Loads L.told L.faults lib.old lib.new (Loaded name.now most) result }
    ensures within { IfOk result (λ text. length text ≤ most) }
{
    let mut text = Vec::new(alloc);
    match lib.load(name, u64::from(most), &mut text) {
        Ok(()) => Ok(Sequence::new(text)),
        Err(LoadFault::Missing) => {
            let file = Name::new(alloc, name.as_bytes())?;
            Err(LoadStop::Refused(Refusal::Missing(file)))
        }
        Err(LoadFault::TooLong) => {
            let file = Name::new(alloc, name.as_bytes())?;
            Err(LoadStop::Refused(Refusal::TooLong(file, most)))
        }
        Err(LoadFault::Failed) => Err(LoadStop::ReadFault),
        Err(LoadFault::Memory) => Err(LoadStop::Memory),
    }
}
