//! The parameters of a mapping.

ghost use Rattle.std.specs.Prelude.{◌≡◌, [], IfOk, map, option_copied};
ghost use Rattle.std.specs.List.{flat_map};
ghost use Rattle.std.specs.Option.{option_map};
ghost use Rattle.sp_text.specs.Violations.{first};
ghost use Rattle.sp_core.specs.Tree.{tree};
ghost use Rattle.sp_core.specs.WellFormed.{names_of};
ghost use Rattle.sp_functions.specs.Equations.{equation_name};
ghost use Rattle.sp_functions.specs.Judged.{all_flags as flags_of_all, made};
ghost use Rattle.sp_instance.specs.Heads.{names_in};
ghost use Rattle.sp_judge.specs.Translation.{AreFine};
ghost use Rattle.sp_mapping_rules.specs.Parameters as spec;
ghost use Rattle.sp_mapping_rules.specs.Parameters.{param_count, param_name};
ghost use Rattle.sp_mapping_rules.specs.Rows.{row_head_broken};
ghost use Rattle.sp_mapping_rules.specs.Types.{missing as name_missing};
ghost use Rattle.sp_plain.specs.Text.{text};

use crate::expression::make;
use crate::heads::{item_at, judge_count, judge_kind, missing, row_heads};
use crate::over::{type_over, with_types};
use sp_core::{Expr, Param, Spec};
use sp_definitions::has_room;
use sp_functions::judge_reading;
use sp_instance::{NameList, list_names};
use sp_judge::Scope;
use sp_naming::first_repeated;
use sp_text::{Memory, Rule, Span, Violation, earlier, otherwise};
use sp_tree::Equation;
use sp_values::Value;
use std::alloc::Global;

// The upper parameter that a row is of.
fn upper_param<'a>(params: &'a [Param], names: &NameList, row: &Equation) -> Option<&'a Param>
    requires { names.now ≡ map param_name params.now }
    ensures { option_copied result ≡ spec.upper_param params.now row.now }
{
    item_at(params, names.place(row.name.name.bytes()))
}

fn count_of(param: Option<&Param>) -> Option<usize>
    ensures { result ≡ option_map param_count (option_copied param.entry) }
{
    match param {
        None => None,
        Some(param) => Some(param.formals.items().len()),
    }
}

/// The first of what a row breaks before its `=`, where the upper formals are so many.
///
/// # Errors
/// `Memory` where its names can't be stored.
pub fn judge_head(
    alloc: Global,
    asked: &NameList,
    all: &NameList,
    formals: Option<usize>,
    row: &Equation,
) -> Result<Option<Violation>, Memory>
    ensures { IfOk result (λ found. found ≡ first (row_head_broken asked.now all.now formals row.now)) }
{
    let names = row.formals.items();
    let twice = first_repeated(alloc, names)?;
    let count = judge_count(row.name.span, formals, names.len());
    Ok(otherwise(earlier(judge_kind(asked, all, &row.name), twice), count))
}

// The first of what the expression of a row breaks.
fn judge_value(
    alloc: Global,
    scope: &Scope,
    flags: &[bool],
    types: &[u16],
    row: &Equation,
    param: Option<&Param>,
) -> Result<Option<Violation>, Memory>
    requires flags { flags.now ≡ flags_of_all scope.now.names.functions }
    requires fine { AreFine scope.now.cores }
    ensures { IfOk result (λ found. found ≡ first (spec.param_value_broken scope.now types.now row.now (option_copied param.entry))) }
{
    let Some(param) = param else {
        return Ok(None);
    };
    let locals = with_types(alloc, types, row.formals.items(), param.formals.items())?;
    if !has_room(&locals, &row.value) {
        return Err(Memory);
    }
    let ty = type_over(types, param.ty);
    judge_reading(
        alloc,
        scope,
        flags,
        Rule::ReadsState,
        &locals,
        ty,
        &row.value,
    )
}

fn judge_row(
    alloc: Global,
    upper: &Spec,
    names: &NameList,
    all: &NameList,
    scope: &Scope,
    flags: &[bool],
    types: &[u16],
    row: &Equation,
) -> Result<Option<Violation>, Memory>
    requires names { names.now ≡ map param_name upper.now.params }
    requires all { all.now ≡ names_of upper.now }
    requires flags { flags.now ≡ flags_of_all scope.now.names.functions }
    requires fine { AreFine scope.now.cores }
    ensures { IfOk result (λ found. found ≡ first (spec.param_row_broken upper.now scope.now types.now row.now)) }
{
    let param = upper_param(upper.params(), names, row);
    let head = judge_head(alloc, names, all, count_of(param), row)?;
    let value = judge_value(alloc, scope, flags, types, row, param)?;
    Ok(otherwise(head, value))
}

fn judge_each(
    alloc: Global,
    upper: &Spec,
    names: &NameList,
    all: &NameList,
    scope: &Scope,
    flags: &[bool],
    types: &[u16],
    rows: &[Equation],
) -> Result<Option<Violation>, Memory>
    requires names { names.now ≡ map param_name upper.now.params }
    requires all { all.now ≡ names_of upper.now }
    requires flags { flags.now ≡ flags_of_all scope.now.names.functions }
    requires fine { AreFine scope.now.cores }
    ensures { IfOk result (λ found. found ≡ first (flat_map (spec.param_row_broken upper.now scope.now types.now) rows.now)) }
{
    let mut found = None;
    for row in rows {
        let here = judge_row(alloc, upper, names, all, scope, flags, types, row)?;
        found = earlier(found, here);
    }
    Ok(found)
}

/// The first of what the rows of parameters break, where the upper types become these, and the scope is what the lower interface sees,
/// with the flags of all V-functions.
///
/// # Errors
/// `Memory` where what is around can't be stored.
pub fn judge_params(
    alloc: Global,
    upper: &Spec,
    all: &NameList,
    scope: &Scope,
    flags: &[bool],
    types: &[u16],
    rows: &[Equation],
) -> Result<Option<Violation>, Memory>
    requires all { all.now ≡ names_of upper.now }
    requires flags { flags.now ≡ flags_of_all scope.now.names.functions }
    requires fine { AreFine scope.now.cores }
    ensures { IfOk result (λ found. found ≡ first (spec.params_broken upper.now scope.now types.now rows.now)) }
{
    let heads = row_heads(alloc, rows)?;
    let twice = first_repeated(alloc, &heads)?;
    let names = list_names(alloc, upper.params())?;
    let each = judge_each(alloc, upper, &names, all, scope, flags, types, rows)?;
    Ok(earlier(twice, each))
}

/// What upper parameters break that no row is of, told at `place`.
pub fn all_missing(place: Span, names: &NameList, params: &[Param]) -> Option<Violation>
    ensures { result ≡ first (flat_map (λ q. name_missing place names.now q.name) params.now) }
{
    let mut found = None;
    for param in params {
        found = earlier(found, missing(place, names, &param.name));
    }
    found
}

// The expression of an upper parameter by a row, if any.
fn core_given(
    alloc: Global,
    scope: &Scope,
    types: &[u16],
    param: &Param,
    row: Option<&Equation>,
) -> Result<Expr, Memory>
    requires { AreFine scope.now.cores }
    ensures { IfOk result (λ x. x ≡ spec.core_given scope.now types.now param.now (option_copied row.entry)) }
{
    match row {
        None => Ok(Expr::Const(Value::Unknown)),
        Some(row) => {
            let locals = with_types(alloc, types, row.formals.items(), param.formals.items())?;
            make(alloc, scope, &locals, &row.value)
        }
    }
}

/// The expressions of the upper parameters, where the rows are of parameters of these names.
///
/// # Errors
/// `Memory` where they can't be stored.
pub fn param_cores(
    alloc: Global,
    scope: &Scope,
    types: &[u16],
    rows: &[Equation],
    names: &NameList,
    params: &[Param],
) -> Result<Vec<Expr>, Memory>
    requires names { names.now ≡ names_in (map equation_name rows.now) }
    requires fine { AreFine scope.now.cores }
    ensures cores { IfOk result (λ all. all.items ≡ spec.param_cores scope.now types.now rows.now params.now) }
{
    let mut all = Vec::new(alloc);
    for param in params {
        let row = item_at(rows, names.place(param.name.bytes()));
        all.push(core_given(alloc, scope, types, param, row)?)?;
    }
    Ok(all)
}
