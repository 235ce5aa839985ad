//! What stands under names in a mapping.

ghost use Rattle.std.specs.Prelude.{◌≡◌, ◌++◌, [], IfOk, map, option_copied};
ghost use Rattle.sp_text.specs.Violations.{first};
ghost use Rattle.sp_instance.specs.Heads as headed;
ghost use Rattle.sp_functions.specs.Equations.{equation_name};
ghost use Rattle.sp_mapping_rules.specs.Rows as rows_spec;
ghost use Rattle.sp_mapping_rules.specs.Types as types_spec;
ghost use Rattle.sp_mapping_rules.specs.Types.{at_place, type_head};

use sp_instance::NameList;
use sp_text::{Memory, Name, Rule, Span, Violation, breaks};
use sp_tree::{Equation, Ident};
use sqlite_items::at;
use std::alloc::Global;

/// The item at a place, if any.
pub fn item_at<T>(items: &[T], place: Option<usize>) -> Option<&T>
    ensures { option_copied result ≡ at_place items.now place }
{
    match place {
        None => None,
        Some(k) => at(items, k),
    }
}

/// The names of the upper types that rows are of.
///
/// # Errors
/// `Memory` where they can't be copied.
pub fn type_heads(alloc: Global, rows: &[(Ident, Ident)]) -> Result<Vec<Ident>, Memory>
    ensures { IfOk result (λ heads. heads.items ≡ map type_head rows.now) }
{
    let mut heads = Vec::new(alloc);
    for row in rows {
        heads.push(row.0.copy(alloc)?)?;
    }
    Ok(heads)
}

/// The names of the upper parameters or functions that rows are of.
///
/// # Errors
/// `Memory` where they can't be copied.
pub fn row_heads(alloc: Global, rows: &[Equation]) -> Result<Vec<Ident>, Memory>
    ensures { IfOk result (λ heads. heads.items ≡ map equation_name rows.now) }
{
    let mut heads = Vec::new(alloc);
    for row in rows {
        heads.push(row.name.copy(alloc)?)?;
    }
    Ok(heads)
}

/// What a name breaks that isn't one of those that are asked.
pub fn judge_kind(asked: &NameList, all: &NameList, x: &Ident) -> Option<Violation>
    ensures { result ≡ first (headed.kind_broken asked.now all.now x.now) }
{
    if asked.contains(x.name.bytes()) {
        None
    } else if all.contains(x.name.bytes()) {
        breaks(x.span, Rule::WrongKind)
    } else {
        breaks(x.span, Rule::UnknownName)
    }
}

/// What a name breaks that no row is of, told at `place`.
pub fn missing(place: Span, names: &NameList, x: &Name) -> Option<Violation>
    ensures { result ≡ first (types_spec.missing place names.now x.now) }
{
    if names.contains(x.bytes()) {
        None
    } else {
        breaks(place, Rule::NoMapping)
    }
}

/// What a row breaks whose names are as many as these, where upper formals are so many.
pub fn judge_count(place: Span, formals: Option<usize>, count: usize) -> Option<Violation>
    ensures { result ≡ first (rows_spec.count_broken place formals count) }
{
    match formals {
        None => None,
        Some(k) => if k == count {
            None
        } else {
            breaks(place, Rule::WrongCount)
        },
    }
}
