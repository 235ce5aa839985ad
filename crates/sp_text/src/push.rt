ghost use Rattle.std.specs.Prelude.{◌≡◌, ◌++◌, OnOk, OnErr};
ghost use Rattle.std.specs.Fmt.{signed_decimal};

use crate::Memory;
use itoa::Buffer;
use std::alloc::Global;

/// Appends the text. `out` keeps its own allocator.
///
/// # Errors
/// `Memory` where `out` can't grow; it is then as before.
pub fn push_text(_alloc: Global, out: &mut Vec<u8>, text: &[u8]) -> Result<(), Memory>
    ensures ok { OnOk result (out.new.items ≡ out.old.items ++ text.now) }
    ensures err { OnErr result (out.new.items ≡ out.old.items) }
{
    out.extend_from_slice(text)?;
    Ok(())
}

/// Appends the decimal text of the number, with `-` before a negative one.
///
/// # Errors
/// `Memory` where `out` can't grow; it is then as before.
pub fn push_number(alloc: Global, out: &mut Vec<u8>, n: i64) -> Result<(), Memory>
    ensures ok { OnOk result (out.new.items ≡ out.old.items ++ signed_decimal n) }
    ensures err { OnErr result (out.new.items ≡ out.old.items) }
{
    let mut buffer = Buffer::new();
    push_text(alloc, out, buffer.format(n).as_bytes())
}
