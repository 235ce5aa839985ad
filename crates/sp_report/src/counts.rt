//! Counts in decimal.

ghost use Rattle.std.specs.Prelude.{◌≡◌, ◌++◌, OnOk, decimal};

use itoa::Buffer;
use sp_text::{Memory, push_text};
use std::alloc::Global;

/// Appends a count in decimal.
pub fn push_count(alloc: Global, out: &mut Vec<u8>, n: u64) -> Result<(), Memory>
    ensures { OnOk result (out.new.items ≡ out.old.items ++ decimal n) }
{
    let mut buffer = Buffer::new();
    push_text(alloc, out, buffer.format(n).as_bytes())
}
