//! The instance of the samples.

ghost use Rattle.std.specs.Prelude.{◌≡◌, IfOk};
ghost use Rattle.sp_sample.specs.Instance as texts;

use sp_text::{Memory, push_text};
use std::alloc::Global;

/// The instance of every sample.
///
/// # Errors
/// `Memory` where it can't be held.
pub fn sample_instance(alloc: Global) -> Result<Vec<u8>, Memory>
    ensures { IfOk result (λ text. text.items ≡ texts.sample_instance) }
{
    let mut text = Vec::new(alloc);
    push_text(alloc, &mut text, b"INSTANCE sample\n")?;
    push_text(
        alloc,
        &mut text,
        b"POPULATION user = {low, mid, high}; POPULATION file = {open, closed};\n",
    )?;
    push_text(
        alloc,
        &mut text,
        b"PARAMETER clr: (mid) = l2_a; (high) = TOP; OTHERWISE BOTTOM;\n",
    )?;
    push_text(
        alloc,
        &mut text,
        b"PARAMETER cls: (closed) = l3_a_b; OTHERWISE BOTTOM;\n",
    )?;
    push_text(alloc, &mut text, b"END_INSTANCE\n")?;
    Ok(text)
}
