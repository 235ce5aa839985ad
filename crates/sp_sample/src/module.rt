//! The module of a sample.

ghost use Rattle.std.specs.Prelude.{◌≡◌, ◌++◌, IfOk, OnOk};
ghost use Rattle.sp_sample.specs.Module as texts;
ghost use Rattle.sp_sample.specs.Module.{copy_function, data_function, functions_text, module_head, read_function, write_function};
ghost use Rattle.sp_sample.specs.Pieces.{each_below};

use crate::pieces::push_numbered;
use sp_text::{Memory, push_text};
use std::alloc::Global;

/// The module of the sample of that size.
///
/// # Errors
/// `Memory` where it can't be held.
pub fn sample_module(alloc: Global, size: u64) -> Result<Vec<u8>, Memory>
    ensures { IfOk result (λ text. text.items ≡ texts.sample_module size) }
{
    let mut text = Vec::new(alloc);
    push_head(alloc, &mut text)?;
    push_functions(alloc, &mut text, size)?;
    push_text(alloc, &mut text, b"END_MODULE\n")?;
    Ok(text)
}

// Appends what stands before the functions.
fn push_head(alloc: Global, out: &mut Vec<u8>) -> Result<(), Memory>
    ensures { OnOk result (out.new.items ≡ out.old.items ++ module_head) }
{
    push_text(alloc, out, b"MODULE sample\n")?;
    push_text(alloc, out, b"TYPES user: DESIGNATOR; file: DESIGNATOR;\n")?;
    push_text(
        alloc,
        out,
        b"PARAMETERS LEVEL clr(user u); LEVEL cls(file f);\n",
    )?;
    push_text(alloc, out, b"FUNCTIONS\n")
}

// Appends the functions of the numbers below the size.
fn push_functions(alloc: Global, out: &mut Vec<u8>, size: u64) -> Result<(), Memory>
    ensures { OnOk result (out.new.items ≡ out.old.items ++ each_below functions_text size) }
{
    for k in 0..size {
        push_function(alloc, out, k)?;
    }
    Ok(())
}

// Appends the four functions of this number.
fn push_function(alloc: Global, out: &mut Vec<u8>, k: u64) -> Result<(), Memory>
    ensures { OnOk result (out.new.items ≡ out.old.items ++ functions_text k) }
{
    push_data(alloc, out, k)?;
    push_read(alloc, out, k)?;
    push_write(alloc, out, k)?;
    push_copy(alloc, out, k)
}

fn push_data(alloc: Global, out: &mut Vec<u8>, k: u64) -> Result<(), Memory>
    ensures { OnOk result (out.new.items ≡ out.old.items ++ data_function k) }
{
    push_numbered(
        alloc,
        out,
        b"VFUN data_",
        k,
        b"(file f) -> INTEGER; HIDDEN; INITIALLY 0;\n",
    )
}

fn push_read(alloc: Global, out: &mut Vec<u8>, k: u64) -> Result<(), Memory>
    ensures { OnOk result (out.new.items ≡ out.old.items ++ read_function k) }
{
    push_numbered(
        alloc,
        out,
        b"OVFUN read_",
        k,
        b"(user u; file f) -> INTEGER r; EXCEPTIONS no_read: NOT cls(f) <= clr(u);",
    )?;
    push_numbered(alloc, out, b" EFFECTS r = data_", k, b"(f);\n")
}

fn push_write(alloc: Global, out: &mut Vec<u8>, k: u64) -> Result<(), Memory>
    ensures { OnOk result (out.new.items ≡ out.old.items ++ write_function k) }
{
    push_numbered(
        alloc,
        out,
        b"OFUN write_",
        k,
        b"(user u; file f; INTEGER x); EXCEPTIONS no_write: NOT clr(u) <= cls(f);",
    )?;
    push_numbered(alloc, out, b" EFFECTS 'data_", k, b"(f) = x;\n")
}

fn push_copy(alloc: Global, out: &mut Vec<u8>, k: u64) -> Result<(), Memory>
    ensures { OnOk result (out.new.items ≡ out.old.items ++ copy_function k) }
{
    push_numbered(
        alloc,
        out,
        b"OFUN copy_",
        k,
        b"(user u; file f; file g); EXCEPTIONS no_read: NOT cls(f) <= clr(u); no_write: NOT clr(u) <= cls(g);\n",
    )?;
    push_numbered(alloc, out, b"  EFFECTS 'data_", k, b"(g)")?;
    push_numbered(alloc, out, b" = data_", k, b"(f);\n")
}
