//! Lines in which a number stands.

ghost use Rattle.std.specs.Prelude.{◌≡◌, ◌++◌, OnOk};
ghost use Rattle.sp_sample.specs.Pieces.{numbered};

use itoa::Buffer;
use sp_text::{Memory, push_text};
use std::alloc::Global;

/// Appends the number in decimal, between two texts.
///
/// # Errors
/// `Memory` where `out` can't grow.
#[tactic(auto, unfolding(crate::specs::Pieces::numbered))]
pub fn push_numbered(
    alloc: Global,
    out: &mut Vec<u8>,
    before: &[u8],
    number: u64,
    after: &[u8],
) -> Result<(), Memory>
    ensures { OnOk result (out.new.items ≡ out.old.items ++ numbered before.now number after.now) }
{
    let mut buffer = Buffer::new();
    push_text(alloc, out, before)?;
    push_text(alloc, out, buffer.format(number).as_bytes())?;
    push_text(alloc, out, after)
}
