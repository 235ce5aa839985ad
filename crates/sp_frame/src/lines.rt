//! The lines of refusals.

ghost use Rattle.std.specs.Prelude.{◌≡◌, ◌++◌, IfOk};
ghost use Rattle.std.specs.Fmt.{decimal};
ghost use Rattle.sp_frame.specs.Lines.{broken_order_line, found_text, limit_line, malformed_line, missing_line, not_admissible_line, owner_text, place_text, too_long_line, words_line, work_line};

use crate::refusal::{WorkLimit, WorkPlace};
use sp_text::{Limit, Malformed, Memory, Name, push_number, push_text};
use std::alloc::Global;

/// The line of words that are no command.
///
/// # Errors
/// `Memory`, as for each line here.
pub fn words_text(alloc: Global) -> Result<Vec<u8>, Memory>
    ensures { IfOk result (λ text. text.items ≡ words_line) }
{
    let mut out = Vec::new(alloc);
    push_text(alloc, &mut out, b"WORDS\n")?;
    Ok(out)
}

/// The line of a file that isn't there.
pub fn missing_text(alloc: Global, name: &[u8]) -> Result<Vec<u8>, Memory>
    ensures { IfOk result (λ text. text.items ≡ missing_line name.now) }
{
    let mut out = Vec::new(alloc);
    push_text(alloc, &mut out, b"MISSING ")?;
    push_text(alloc, &mut out, name)?;
    push_text(alloc, &mut out, b"\n")?;
    Ok(out)
}

/// The line of a file with more bytes than `most`.
pub fn too_long_text(alloc: Global, name: &[u8], most: u32) -> Result<Vec<u8>, Memory>
    ensures { IfOk result (λ text. text.items ≡ too_long_line name.now most) }
{
    let mut out = Vec::new(alloc);
    push_text(alloc, &mut out, b"LIMIT file bytes ")?;
    push_number(alloc, &mut out, i64::from(most))?;
    push_text(alloc, &mut out, b" AT ")?;
    push_text(alloc, &mut out, name)?;
    push_text(alloc, &mut out, b"\n")?;
    Ok(out)
}

/// The line of an instance in which the assertion of this number is false.
pub fn not_admissible_text(alloc: Global, name: &[u8], number: u32) -> Result<Vec<u8>, Memory>
    ensures { IfOk result (λ text. text.items ≡ not_admissible_line name.now number) }
{
    let mut out = Vec::new(alloc);
    push_text(alloc, &mut out, b"NOT_ADMISSIBLE ")?;
    push_text(alloc, &mut out, name)?;
    push_text(alloc, &mut out, b" ")?;
    push_number(alloc, &mut out, i64::from(number))?;
    push_text(alloc, &mut out, b"\n")?;
    Ok(out)
}

/// The line of a rule broken in the text of a file.
pub fn malformed_text(alloc: Global, name: &[u8], fault: Malformed) -> Result<Vec<u8>, Memory>
    ensures { IfOk result (λ text. text.items ≡ malformed_line name.now fault) }
{
    let mut out = Vec::new(alloc);
    push_text(alloc, &mut out, b"MALFORMED ")?;
    push_text(alloc, &mut out, name)?;
    push_text(alloc, &mut out, b" ")?;
    push_number(alloc, &mut out, i64::from(fault.span.start))?;
    push_text(alloc, &mut out, b" ")?;
    push_number(alloc, &mut out, i64::from(fault.span.end))?;
    push_text(alloc, &mut out, b" ")?;
    push_text(alloc, &mut out, fault.rule.name().as_bytes())?;
    push_text(alloc, &mut out, b"\n")?;
    Ok(out)
}

/// The line of a quantity that exceeds its greatest value in the text of a file.
pub fn limit_text(alloc: Global, name: &[u8], limit: Limit) -> Result<Vec<u8>, Memory>
    ensures { IfOk result (λ text. text.items ≡ limit_line name.now limit) }
{
    let mut out = Vec::new(alloc);
    push_text(alloc, &mut out, b"LIMIT ")?;
    push_text(alloc, &mut out, limit.quantity.name().as_bytes())?;
    push_text(alloc, &mut out, b" ")?;
    push_number(alloc, &mut out, i64::from(limit.quantity.greatest()))?;
    push_text(alloc, &mut out, b" AT ")?;
    push_text(alloc, &mut out, name)?;
    push_text(alloc, &mut out, b" ")?;
    push_number(alloc, &mut out, i64::from(limit.span.start))?;
    push_text(alloc, &mut out, b"\n")?;
    Ok(out)
}

/// The line of an order that breaks a rule at the two levels of these names.
pub fn broken_order_text(
    alloc: Global,
    name: &[u8],
    fault: Malformed,
    first: &[u8],
    second: &[u8],
) -> Result<Vec<u8>, Memory>
    ensures { IfOk result (λ text. text.items ≡ broken_order_line name.now fault first.now second.now) }
{
    let mut out = Vec::new(alloc);
    push_text(alloc, &mut out, b"MALFORMED ")?;
    push_text(alloc, &mut out, name)?;
    push_text(alloc, &mut out, b" ")?;
    push_number(alloc, &mut out, i64::from(fault.span.start))?;
    push_text(alloc, &mut out, b" ")?;
    push_number(alloc, &mut out, i64::from(fault.span.end))?;
    push_text(alloc, &mut out, b" ")?;
    push_text(alloc, &mut out, fault.rule.name().as_bytes())?;
    push_text(alloc, &mut out, b" ")?;
    push_text(alloc, &mut out, first)?;
    push_text(alloc, &mut out, b" ")?;
    push_text(alloc, &mut out, second)?;
    push_text(alloc, &mut out, b"\n")?;
    Ok(out)
}

/// The line of a limit that the work exceeds.
pub fn work_text(alloc: Global, limit: &WorkLimit) -> Result<Vec<u8>, Memory>
    ensures { IfOk result (λ text. text.items ≡ work_line limit.now) }
{
    let mut out = Vec::new(alloc);
    push_text(alloc, &mut out, b"LIMIT ")?;
    push_text(alloc, &mut out, limit.quantity.name().as_bytes())?;
    push_text(alloc, &mut out, b" ")?;
    push_number(alloc, &mut out, i64::from(limit.quantity.greatest()))?;
    push_text(alloc, &mut out, b" AT ")?;
    push_owner(alloc, &mut out, &limit.owner)?;
    push_place(alloc, &mut out, limit.place)?;
    push_found(alloc, &mut out, limit.found)?;
    push_text(alloc, &mut out, b"\n")?;
    Ok(out)
}

fn push_owner(alloc: Global, out: &mut Vec<u8>, owner: &Option<Name>) -> Result<(), Memory>
    ensures { IfOk result (λ _. out.new.items ≡ out.old.items ++ owner_text owner.now) }
{
    if let Some(name) = owner {
        push_text(alloc, out, name.bytes())?;
        push_text(alloc, out, b" ")?;
    }
    Ok(())
}

fn push_place(alloc: Global, out: &mut Vec<u8>, place: WorkPlace) -> Result<(), Memory>
    ensures { IfOk result (λ _. out.new.items ≡ out.old.items ++ place_text place) }
{
    match place {
        WorkPlace::Interface => push_text(alloc, out, b"interface"),
        WorkPlace::Formula(number) => push_numbered(alloc, out, b"formula ", number),
        WorkPlace::Invocation(number) => push_numbered(alloc, out, b"invocation ", number),
    }
}

fn push_found(alloc: Global, out: &mut Vec<u8>, found: Option<u32>) -> Result<(), Memory>
    ensures { IfOk result (λ _. out.new.items ≡ out.old.items ++ found_text found) }
{
    match found {
        Some(number) => push_numbered(alloc, out, b" HAS ", number),
        None => Ok(()),
    }
}

fn push_numbered(alloc: Global, out: &mut Vec<u8>, text: &[u8], number: u32) -> Result<(), Memory>
    ensures { IfOk result (λ _. out.new.items ≡ out.old.items ++ (text.now ++ decimal number)) }
{
    push_text(alloc, out, text)?;
    push_number(alloc, out, i64::from(number))
}
