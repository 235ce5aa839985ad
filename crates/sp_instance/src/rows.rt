//! Rows of tables.

ghost use Rattle.std.specs.Prelude.{◌≡◌, ◌≤◌, [], ◌∷◌, ◌++◌, IfOk, List, None, length};
ghost use Rattle.sp_text.specs.Violations.{first};
ghost use Rattle.sp_values.specs.declared.value.Value.{Value as OneValue};
ghost use Rattle.sp_naming.specs.Names.{repeat_rule};
ghost use Rattle.sp_instance.specs.Tables as tables;
ghost use Rattle.sp_instance.specs.Tables.{have_arguments, is_one_of, repeat_broken, row_broken, row_key, row_of, with_key, IsSetOf};

use crate::vocabulary::Vocabulary;
use sp_core::{Param, Table};
use sp_text::{Memory, Rule, Sequence, Span, Violation, breaks, earlier};
use sp_tree::ValueTree;
use sp_values::{Args, Value};

/// A row of a text's table.
pub type RowText = (Sequence<ValueTree>, ValueTree);

// The place of a row.
fn row_span(text: &RowText) -> Span
    ensures { result ≡ tables.row_span text.now }
{
    match text.0.items().first() {
        Some(value) => value.span,
        None => text.1.span,
    }
}

// What arguments break that an earlier row has.
fn repeat(known: bool, span: Span) -> Option<Violation>
    ensures { result ≡ first (repeat_rule known span) }
{
    if known {
        breaks(span, Rule::TwiceDeclared)
    } else {
        None
    }
}

// Adds a row to the table, with what its arguments break where an earlier row has them.
fn note(
    table: &mut Table,
    args: Args,
    value: Value,
    span: Span,
) -> Result<Option<Violation>, Memory>
    ensures repeated { (before : List (List OneValue)) → IsSetOf before (have_arguments table.old.rows)
        → IfOk result (λ found. (found ≡ first (repeat_rule (is_one_of before args) span)) × IsSetOf (before ++ args ∷ []) (have_arguments table.new.rows)) }
    ensures made { IfOk result (λ found. found ≡ None → table.new.rows ≡ table.old.rows ++ (args, value) ∷ []) }
    ensures other { table.new.other ≡ table.old.other }
{
    let earlier = table.insert(args, value)?;
    Ok(repeat(earlier.is_some(), span))
}

/// Adds what a row stands for, where its arguments break nothing. With it come the first of what the row breaks by
/// itself, its table being named at `name`, and what its arguments break where an earlier row has them.
///
/// # Errors
/// `Memory` where the row can't be stored.
pub fn add_row(
    table: &mut Table,
    words: &Vocabulary,
    param: &Param,
    name: Span,
    text: &RowText,
) -> Result<(Option<Violation>, Option<Violation>), Memory>
    requires { length param.now.formals ≤ 8 }
    ensures own { IfOk result (λ r. r.0 ≡ first (row_broken words.now param.now name text.now)) }
    ensures repeated { (before : List (List OneValue)) → IsSetOf before (have_arguments table.old.rows)
        → IfOk result (λ r. (r.1 ≡ first (repeat_broken before (row_key words.now param.now name text.now) (tables.row_span text.now)))
        × IsSetOf (with_key before (row_key words.now param.now name text.now)) (have_arguments table.new.rows)) }
    ensures made { IfOk result (λ r. r.0 ≡ None → r.1 ≡ None → table.new.rows ≡ table.old.rows ++ row_of words.now param.now text.now ∷ []) }
    ensures other { table.new.other ≡ table.old.other }
{
    let (args, here) = words.arguments(false, name, param.formals.items(), text.0.items());
    let (value, there) = words.value(false, param.ty, &text.1);
    let own = earlier(here, there);
    match here {
        None => Ok((own, note(table, args, value, row_span(text))?)),
        Some(_) => Ok((own, None)),
    }
}
