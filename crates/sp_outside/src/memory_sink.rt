ghost use Rattle.std.specs.Prelude.{◌≡◌, ◌≤◌, ◌+◌, ◌-◌, ◌++◌, ◌↔◌, [], Some, IfOk, IsOk, OnOk, OnErr, length, take};
ghost use Rattle.sp_outside.specs.Causes.{Rose, raised};

use crate::{Failed, Sink};
use sp_text::Memory;
use std::alloc::Global;
use std::marker::Model;

/// A sink in memory with room for a chosen number of bytes. It tells its bytes.
#[derive(Drop)]
pub struct MemorySink {
    bytes: Vec<u8>,
    limit: usize,
    faults: u64,
}

impl Model for MemorySink {
    ghost use Rattle.std.specs.Prelude.{◌≤◌, vec_capacity, vec_len};
    ghost use Rattle.sp_outside.specs.InMemory.{Page};

    ghost Value = { Page };

    ghost view = { λ s. record { bytes = s.bytes.items; limit = s.limit; faults = s.faults } };

    ghost invariant = { λ s. (vec_len s.bytes ≤ s.limit) × (s.limit ≤ vec_capacity s.bytes) };
}

impl MemorySink {
    /// An empty sink with room for `n` bytes, which it takes at once.
    ///
    /// # Errors
    /// `Memory` where the room isn't there.
    pub fn with_capacity(alloc: Global, n: usize) -> Result<MemorySink, Memory>
        ensures empty { IfOk result (λ sink. sink.bytes ≡ []) }
        ensures room { IfOk result (λ sink. sink.limit ≡ n) }
        ensures fresh { IfOk result (λ sink. sink.faults ≡ 0) }
    {
        let bytes = Vec::with_capacity(alloc, n)?;
        Ok(MemorySink {
            bytes,
            limit: n,
            faults: 0,
        })
    }

    /// The bytes written so far.
    pub fn bytes(&self) -> &[u8]
        ensures { result.now ≡ self.now.bytes }
    {
        &self.bytes
    }
}

impl Sink for MemorySink {
    ghost told = { λ sink. Some sink.bytes };

    ghost faults = { λ sink. sink.faults };

    fn put(&mut self, piece: &[u8]) -> Result<(), Failed>
        ensures whole { OnOk result (self.new.bytes ≡ self.old.bytes ++ piece.now) }
        ensures failed { OnErr result (Rose self.old.faults self.new.faults) }
        ensures later { self.old.faults ≤ self.new.faults }

        // A piece that doesn't fit is written as far as it fits, and counted once.
        ensures part { OnErr result (self.new.bytes ≡ self.old.bytes ++ take (self.old.limit - length self.old.bytes) piece.now) }
        ensures fits { IsOk result ↔ (length self.old.bytes + length piece.now ≤ self.old.limit) }
        ensures counted { OnErr result (self.new.faults ≡ raised self.old.faults) }
        ensures uncounted { OnOk result (self.new.faults ≡ self.old.faults) }
        ensures same { self.new.limit ≡ self.old.limit }
    {
        let room = self.limit - self.bytes.len();
        if piece.len() <= room {
            self.bytes.extend_from_slice(piece).unwrap();
            return Ok(());
        }
        self.bytes.extend_from_slice(&piece[..room]).unwrap();
        self.faults = self.faults.saturating_add(1);
        Err(Failed)
    }
}
