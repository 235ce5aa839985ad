ghost use Rattle.std.specs.Prelude.{◌≡◌, ◌≤◌, [], None, OnOk, length};

use sp_outside::{Library, LoadFault};
use std::fs::File;
use std::io::{self, ErrorKind, Read};
use std::rt::Files;

const PIECE_BYTES: usize = 4096;

/// The files of the present folder. It tells nothing of what they hold.
#[derive(Drop)]
pub struct FolderLibrary<'a, R: Files> {
    rt: &'a R,
    faults: u64,
}

impl<'a, R: Files> FolderLibrary<'a, R> {
    pub fn new(rt: &'a R) -> Self {
        FolderLibrary { rt, faults: 0 }
    }
}

impl<'a, R: Files> Library for FolderLibrary<'a, R> {
    ghost told = { λ _. None };

    ghost faults = { λ library. library.faults };

    fn load(&mut self, name: &str, limit: u64, into: &mut Vec<u8>) -> Result<(), LoadFault> {
        let loaded = read_file(self.rt, name, limit, into);
        if let Err(fault) = loaded {
            into.clear();
            if fault == LoadFault::Failed {
                self.faults = self.faults.saturating_add(1);
            }
        }
        loaded
    }
}

fn read_file<R: Files>(rt: &R, name: &str, limit: u64, into: &mut Vec<u8>) -> Result<(), LoadFault>
    requires { into.old.items ≡ [] }
    ensures { OnOk result (length into.new.items ≤ limit) }
{
    let mut file = File::open(rt, name).map_err(|error| open_fault(error.kind()))?;
    read_within(&mut file, limit, into)
}

// The folder holds no file of a name that no file can have.
fn open_fault(kind: ErrorKind) -> LoadFault {
    match kind {
        ErrorKind::NotFound | ErrorKind::NotADirectory | ErrorKind::InvalidFilename => {
            LoadFault::Missing
        }
        ErrorKind::OutOfMemory => LoadFault::Memory,
        _ => LoadFault::Failed,
    }
}

// Reads until a read gives nothing, or more than `limit` bytes came.
fn read_within<R: Read>(reader: &mut R, limit: u64, into: &mut Vec<u8>) -> Result<(), LoadFault>
    requires { into.old.items ≡ [] }
    ensures { OnOk result (length into.new.items ≤ limit) }
{
    let mut piece = [0u8; PIECE_BYTES];
    'pieces: for _ in 0..u64::MAX {
        let count = match reader.read(&mut piece) {
            Ok(0) => return Ok(()),
            Ok(count) => count,
            Err(error) if error.kind() == ErrorKind::Interrupted => continue,
            Err(_) => return Err(LoadFault::Failed),
        };
        if into.extend_from_slice(&piece[..count]).is_err() {
            return Err(LoadFault::Memory);
        }
        if into.len() as u64 > limit {
            return Err(LoadFault::TooLong);
        }
    }
    Err(LoadFault::Failed)
}
