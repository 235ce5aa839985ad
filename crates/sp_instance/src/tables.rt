//! Tables of parameters.

ghost use Rattle.std.specs.Prelude.{◌≡◌, ◌≤◌, [], IfOk, None, length, map, option_copied};
ghost use Rattle.std.specs.List.{All, flat_map};
ghost use Rattle.sp_text.specs.Violations.{first};
ghost use Rattle.sp_instance.specs.Heads.{names_in};
ghost use Rattle.sp_instance.specs.Tables as tables;
ghost use Rattle.sp_instance.specs.Tables.{given_broken, param_broken, param_table, table_broken, table_given, table_head, table_of};

use crate::heads::find;
use crate::names::NameList;
use crate::rows::add_row;
use crate::vocabulary::Vocabulary;
use sp_core::{Param, Table};
use sp_text::{Memory, Rule, Span, Violation, breaks, earlier};
use sp_tree::TableTree;
use sp_values::Value;
use std::alloc::Global;

// What a table of the parameter stands for, where it breaks nothing, with the first of what it breaks.
fn table(
    alloc: Global,
    words: &Vocabulary,
    param: &Param,
    text: &TableTree,
) -> Result<(Table, Option<Violation>), Memory>
    requires { length param.now.formals ≤ 8 }
    ensures made { IfOk result (λ r. r.1 ≡ None → r.0 ≡ table_of words.now param.now text.now) }
    ensures found { IfOk result (λ r. r.1 ≡ first (table_broken words.now param.now text.now)) }
{
    let rows = text.rows.items();
    let (other, there) = words.value(false, param.ty, &text.other);
    let mut table = Table::new(alloc, other);
    let mut own = None;
    let mut repeated = None;
    for row in rows {
        let broken = add_row(&mut table, words, param, text.name.span, row)?;
        own = earlier(own, broken.0);
        repeated = earlier(repeated, broken.1);
    }
    Ok((table, earlier(earlier(own, repeated), there)))
}

// The same of a table that may be there.
fn given(
    alloc: Global,
    words: &Vocabulary,
    param: &Param,
    text: Option<&TableTree>,
) -> Result<(Table, Option<Violation>), Memory>
    requires { length param.now.formals ≤ 8 }
    ensures made { IfOk result (λ r. r.1 ≡ None → r.0 ≡ table_given words.now param.now (option_copied text.entry)) }
    ensures found { IfOk result (λ r. r.1 ≡ first (given_broken words.now param.now (option_copied text.entry))) }
{
    match text {
        Some(text) => table(alloc, words, param, text),
        None => Ok((Table::new(alloc, Value::Unknown), None)),
    }
}

/// The tables of the parameters, where they break nothing, with the first of what they break.
///
/// # Errors
/// `Memory` where they can't be stored.
pub fn all_tables(
    alloc: Global,
    words: &Vocabulary,
    params: &[Param],
    texts: &[TableTree],
    names: &NameList,
) -> Result<(Vec<Table>, Option<Violation>), Memory>
    requires few { All (λ q. length q.formals ≤ 8) params.now }
    requires names { names.now ≡ names_in (map table_head texts.now) }
    ensures made { IfOk result (λ r. r.1 ≡ None → r.0.items ≡ map (param_table words.now texts.now) params.now) }
    ensures found { IfOk result (λ r. r.1 ≡ first (flat_map (param_broken words.now texts.now) params.now)) }
{
    let mut all = Vec::new(alloc);
    let mut found = None;
    for param in params {
        let made = given(alloc, words, param, find(names, texts, &param.name))?;
        all.push(made.0)?;
        found = earlier(found, made.1);
    }
    Ok((all, found))
}

// What a parameter breaks that has no table.
fn missing(span: Span, names: &NameList, param: &Param) -> Option<Violation>
    ensures { result ≡ first (tables.missing span names.now param.now) }
{
    if names.contains(param.name.bytes()) {
        None
    } else {
        breaks(span, Rule::NoTable)
    }
}

/// What parameters break that have no table, told at `span`.
pub fn all_missing(span: Span, names: &NameList, params: &[Param]) -> Option<Violation>
    ensures { result ≡ first (flat_map (tables.missing span names.now) params.now) }
{
    let mut found = None;
    for param in params {
        found = earlier(found, missing(span, names, param));
    }
    found
}
