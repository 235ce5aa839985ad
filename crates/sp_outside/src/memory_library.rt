ghost use Rattle.std.specs.Prelude.{◌≡◌, ◌≢◌, ◌≤◌, ◌<◌, ◌⊎◌, ◌↔◌, [], Contains, None, Some, OnErr, OnOk, IfErr, IsErrOf, length, option_map};
ghost use Rattle.sp_outside.specs.Causes.{Rose, raised};
ghost use Rattle.sp_outside.specs.Files.{IsTooLong, files_of, first_file};

use crate::{Library, LoadFault};
use std::marker::Model;

/// Files in memory, of which chosen loads fail. It tells its files.
#[derive(Drop)]
pub struct MemoryLibrary {
    files: Vec<(String, Vec<u8>)>,
    failing: Vec<u64>,
    calls: u64,
    faults: u64,
}

impl Model for MemoryLibrary {
    ghost use Rattle.sp_outside.specs.Files.{files_of};
    ghost use Rattle.sp_outside.specs.InMemory.{Shelf};

    ghost Value = { Shelf };

    ghost view = { λ m. record { files = files_of m.files.items; failing = m.failing.items; calls = m.calls; faults = m.faults } };
}

impl MemoryLibrary {
    /// A library of these files, whose loads with a number in `failing`, counted from 0, fail. It takes no memory.
    pub fn new(files: Vec<(String, Vec<u8>)>, failing: Vec<u64>) -> MemoryLibrary
        ensures files { result.files ≡ files_of files.items }
        ensures failing { result.failing ≡ failing.items }
        ensures fresh { (result.calls ≡ 0) × (result.faults ≡ 0) }
    {
        MemoryLibrary {
            files,
            failing,
            calls: 0,
            faults: 0,
        }
    }
}

impl Library for MemoryLibrary {
    ghost told = { λ m. Some m.files };

    ghost faults = { λ m. m.faults };

    fn load(&mut self, name: &str, limit: u64, into: &mut Vec<u8>) -> Result<(), LoadFault>
        requires { into.old.items ≡ [] }

        ensures bytes { OnOk result (first_file name.now self.old.files ≡ Some into.new.items) }
        ensures within { OnOk result (length into.new.items ≤ limit) }
        ensures missing { IsErrOf result LoadFault.Missing → first_file name.now self.old.files ≡ None }
        ensures too_long { IsErrOf result LoadFault.TooLong → IsTooLong name.now limit self.old.files }
        ensures failed { IsErrOf result LoadFault.Failed → Rose self.old.faults self.new.faults }
        ensures refused { OnErr result (into.new.items ≡ []) }
        ensures same { self.new.files ≡ self.old.files }
        ensures later { self.old.faults ≤ self.new.faults }

        // The loads whose numbers were chosen fail, and no other; each is counted once.
        ensures chosen { IsErrOf result LoadFault.Failed ↔ Contains self.old.failing self.old.calls }
        ensures counted { IsErrOf result LoadFault.Failed → self.new.faults ≡ raised self.old.faults }
        ensures uncounted { (result ≢ Err LoadFault.Failed) → self.new.faults ≡ self.old.faults }
        ensures turn { (self.new.calls ≡ raised self.old.calls) × (self.new.failing ≡ self.old.failing) }
    {
        let call = self.calls;
        self.calls = self.calls.saturating_add(1);
        if self.failing.contains(&call) {
            self.faults = self.faults.saturating_add(1);
            return Err(LoadFault::Failed);
        }
        match find_file(&self.files, name) {
            Some(bytes) => copy_within(bytes, limit, into),
            None => Err(LoadFault::Missing),
        }
    }
}

// The bytes of the first file of that name.
fn find_file<'a>(files: &'a [(String, Vec<u8>)], name: &str) -> Option<&'a [u8]>
    ensures { option_map (λ bytes. bytes.now) result ≡ first_file name.now (files_of files.now) }
{
    for (held, bytes) in files {
        if held.as_str() == name {
            return Some(bytes);
        }
    }
    None
}

// Copies the bytes if they are within the limit.
fn copy_within(bytes: &[u8], limit: u64, into: &mut Vec<u8>) -> Result<(), LoadFault>
    requires { into.old.items ≡ [] }
    ensures bytes { OnOk result (into.new.items ≡ bytes.now) }
    ensures within { OnOk result (length bytes.now ≤ limit) }
    ensures too_long { IsErrOf result LoadFault.TooLong → limit < length bytes.now }
    ensures causes { IfErr result (λ e. (e ≡ LoadFault.TooLong) ⊎ (e ≡ LoadFault.Memory)) }
    ensures refused { OnErr result (into.new.items ≡ []) }
{
    if bytes.len() as u64 > limit {
        return Err(LoadFault::TooLong);
    }
    into.extend_from_slice(bytes)?;
    Ok(())
}
