//! Sorts of texts.

ghost use Rattle.std.specs.Prelude.{◌≡◌, ◌≤◌, ◌<◌, ◌^◌, ◌++◌, ℕ, List, IfOk, length, string_bytes};
ghost use Rattle.std.specs.Str.{IsUtf8};
ghost use Rattle.sp_frame.specs.Files.{FileRead, IsReading, Sort};
ghost use Rattle.sp_frame.specs.Loads.{Loads};
ghost use Rattle.sp_frame.specs.Steps.{Does, IsNamed, Judged, Tells};

use crate::load::load_text;
use crate::refusal::{LoadStop, Refusal, Stop, as_loading};
use sp_outside::Library;
use sp_text::{Memory, Name, TextFault};
use std::alloc::Global;

/// The value of a text of a sort.
pub trait Text: Drop {
    /// The greatest number of bytes, and what the bytes are read as.
    ghost sort: { Sort Self };

    /// The greatest number of bytes.
    fn most() -> u32
        ensures { result ≡ sort.most };

    /// What the text is read as.
    ///
    /// # Errors
    /// The fault of the text, and `Memory`.
    fn read(alloc: Global, text: &[u8]) -> Result<Self, TextFault>
        requires { length text.now ≤ sort.most }
        ensures { Tells (sort.reads text.now) result };
}

/// What the text of this name is read as.
///
/// # Errors
/// `Refused` where it has a fault, and `Memory`.
#[tactic(auto, using(crate::proofs::Connective::judged_after))]
pub fn read_text<T: Text>(alloc: Global, name: &str, text: &[u8]) -> Result<T, Stop>
    requires { length text.now ≤ T.sort.most }
    ensures does { Does (Judged name.now (T.sort.reads text.now)) result }
    ensures reading { IfOk result (IsReading T.sort) }
{
    judged(alloc, name.as_bytes(), T::read(alloc, text))
}

/// What a text of this name is read as, or the refusal for its fault.
///
/// # Errors
/// `Refused` where it has a fault, and `Memory`.
pub fn judged<T>(alloc: Global, name: &[u8], answer: Result<T, TextFault>) -> Result<T, Stop>
    ensures does { Does (IsNamed name.now answer) result }
    ensures kept { IfOk result (λ value. answer ≡ Ok value) }
{
    match answer {
        Ok(value) => Ok(value),
        Err(TextFault::Malformed(malformed)) => {
            let file = Name::new(alloc, name)?;
            Err(Stop::Refused(Refusal::Broken(file, malformed)))
        }
        Err(TextFault::Limit(limit)) => {
            let file = Name::new(alloc, name)?;
            Err(Stop::Refused(Refusal::Exceeded(file, limit)))
        }
        Err(TextFault::Memory) => Err(Stop::Memory),
    }
}

/// What the text of a file is read as.
///
/// # Errors
/// `Refused` where it can't be loaded or has a fault, `ReadFault` where it can't be read, and `Memory`.
#[tactic(auto, using(crate::proofs::Connective::loads_refused, crate::proofs::Connective::loads_last))]
pub fn read_file<T: Text, L: Library>(alloc: Global, lib: &mut L, name: &str) -> Result<T, LoadStop>
    ensures loads { Loads L.told L.faults lib.old lib.new (FileRead T.sort name.now) result }
    ensures reading { IfOk result (IsReading T.sort) }
{
    let text = load_text(alloc, lib, name, T::most())?;
    as_loading(read_text(alloc, name, text.items()))
}

/// What the text of the file that is called as a name, with an ending, is read as.
///
/// # Errors
/// As `read_file`.
pub fn read_named<T: Text, L: Library>(
    alloc: Global,
    lib: &mut L,
    name: &Name,
    ending: &str,
) -> Result<T, LoadStop>
    requires { IsUtf8 name.now }
    ensures loads { Loads L.told L.faults lib.old lib.new (FileRead T.sort (name.now ++ ending.now)) result }
    ensures reading { IfOk result (IsReading T.sort) }
{
    let file = file_name(alloc, name, ending)?;
    read_file(alloc, lib, &file)
}

/// The name with the ending.
///
/// # Errors
/// `Memory` where it can't be held.
pub fn file_name(alloc: Global, name: &Name, ending: &str) -> Result<String, Memory>
    requires { IsUtf8 name.now }
    ensures { IfOk result (λ file. string_bytes file ≡ name.now ++ ending.now) }
{
    let mut file = String::from_utf8_lossy(alloc, name.bytes())?;
    file.push_str(ending)?;
    Ok(file)
}
