//! The interface of a sample.

ghost use Rattle.std.specs.Prelude.{◌≡◌, ◌++◌, IfOk, OnOk};
ghost use Rattle.sp_sample.specs.Interface as texts;
ghost use Rattle.sp_sample.specs.Interface.{interface_end, interface_head, levels_text};
ghost use Rattle.sp_sample.specs.Pieces.{each_below};

use crate::pieces::push_numbered;
use sp_text::{Memory, push_text};
use std::alloc::Global;

/// The interface of the sample of that size.
///
/// # Errors
/// `Memory` where it can't be held.
pub fn sample_interface(alloc: Global, size: u64) -> Result<Vec<u8>, Memory>
    ensures { IfOk result (λ text. text.items ≡ texts.sample_interface size) }
{
    let mut text = Vec::new(alloc);
    push_head(alloc, &mut text)?;
    push_all_levels(alloc, &mut text, size)?;
    push_end(alloc, &mut text)?;
    Ok(text)
}

// Appends what stands before the levels of functions.
fn push_head(alloc: Global, out: &mut Vec<u8>) -> Result<(), Memory>
    ensures { OnOk result (out.new.items ≡ out.old.items ++ interface_head) }
{
    push_text(alloc, out, b"INTERFACE sample\n")?;
    push_text(alloc, out, b"MODULES sample;\n")?;
    push_text(
        alloc,
        out,
        b"CHAIN l0 < l1 < l2 < l3; CATEGORIES a, b, c;\n",
    )
}

// Appends the levels of the functions of the numbers below the size.
fn push_all_levels(alloc: Global, out: &mut Vec<u8>, size: u64) -> Result<(), Memory>
    ensures { OnOk result (out.new.items ≡ out.old.items ++ each_below levels_text size) }
{
    for k in 0..size {
        push_levels(alloc, out, k)?;
    }
    Ok(())
}

// Appends the levels of the four functions of this number.
fn push_levels(alloc: Global, out: &mut Vec<u8>, k: u64) -> Result<(), Memory>
    ensures { OnOk result (out.new.items ≡ out.old.items ++ levels_text k) }
{
    push_numbered(alloc, out, b"LEVEL data_", k, b"(f) IS cls(f);\n")?;
    push_numbered(alloc, out, b"LEVEL read_", k, b"(u, f) IS clr(u);\n")?;
    push_numbered(alloc, out, b"LEVEL write_", k, b"(u, f, x) IS clr(u);\n")?;
    push_numbered(alloc, out, b"LEVEL copy_", k, b"(u, f, g) IS clr(u);\n")
}

// Appends what stands behind the levels of functions.
fn push_end(alloc: Global, out: &mut Vec<u8>) -> Result<(), Memory>
    ensures { OnOk result (out.new.items ≡ out.old.items ++ interface_end) }
{
    push_text(alloc, out, b"SAMPLE sample;\n")?;
    push_text(alloc, out, b"END_INTERFACE\n")
}
