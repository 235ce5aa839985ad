//! The functions of a mapping.

ghost use Rattle.std.specs.Prelude.{◌≡◌, ◌≤◌, ◌++◌, IfOk, IfSome, OnOk, length, map, option_copied};
ghost use Rattle.std.specs.List.{flat_map};
ghost use Rattle.std.specs.Option.{option_map};
ghost use Rattle.sp_text.specs.Violations.{first};
ghost use Rattle.sp_core.specs.Typing.{primitive_type};
ghost use Rattle.sp_expand.specs.Parts.{IsPart};
ghost use Rattle.sp_instance.specs.Scripts.{function_name};
ghost use Rattle.sp_judge.specs.Translation.{AreFine};
ghost use Rattle.sp_mapping_rules.specs.Functions as spec;
ghost use Rattle.sp_mapping_rules.specs.Functions.{formal_count, primitive_names};
ghost use Rattle.sp_mapping_rules.specs.Types.{number_or_none};
ghost use Rattle.sp_mapping_rows.specs.Levelled.{IsLevelled, IsNamedBy};

use crate::expression::{judge_alone, kept, make};
use crate::heads::{item_at, missing, row_heads};
use crate::levels::level_over;
use crate::over::{formals, type_over, with_types};
use crate::parameters::judge_head;
use sp_core::{Expr, Formal, Function, Kind, MapRow, Spec};
use sp_expand::Part;
use sp_instance::{NameList, all_names, list_names};
use sp_judge::{Scope, limit_of};
use sp_naming::first_repeated;
use sp_text::{Memory, Name, Span, Violation, earlier, otherwise};
use sp_tree::Equation;
use sp_values::{Ty, Value};
use std::alloc::Global;

// The type of a primitive V-function; of any other function none.
fn primitive(f: &Function) -> Option<Ty>
    ensures { result ≡ primitive_type f.now.kind }
{
    match &f.kind {
        Kind::Primitive(ty, _) => Some(*ty),
        Kind::Derived(_, _) => None,
        Kind::Operation(_) => None,
        Kind::Both(_, _) => None,
    }
}

fn push_primitive(alloc: Global, names: &mut Vec<Name>, f: &Function) -> Result<(), Memory>
    ensures { OnOk result (names.new.items ≡ names.old.items ++ spec.primitive_name f.now) }
{
    match primitive(f) {
        None => Ok(()),
        Some(_) => {
            names.push(Name::new(alloc, f.name.bytes())?)?;
            Ok(())
        }
    }
}

// The names of the primitive V-functions.
fn primitives(alloc: Global, functions: &[Function]) -> Result<NameList, Memory>
    ensures { IfOk result (λ names. names ≡ primitive_names functions.now) }
{
    let mut names = Vec::new(alloc);
    for f in functions {
        push_primitive(alloc, &mut names, f)?;
    }
    NameList::new(alloc, names)
}

// The upper function that a row is of.
fn upper_function<'a>(
    functions: &'a [Function],
    names: &NameList,
    row: &Equation,
) -> Option<&'a Function>
    requires { names.now ≡ map function_name functions.now }
    ensures { option_copied result ≡ spec.upper_function functions.now row.now }
{
    item_at(functions, names.place(row.name.name.bytes()))
}

fn count_of(f: Option<&Function>) -> Option<usize>
    ensures { result ≡ option_map formal_count (option_copied f.entry) }
{
    match f {
        None => None,
        Some(f) => Some(f.formals.items().len()),
    }
}

// What is made of the level of a place of the function, translated.
fn level_of(alloc: Global, types: &[u16], cores: &[Expr], f: &Function) -> Result<Part, Memory>
    requires fine { AreFine cores.now }
    requires levelled { IsLevelled f.now }
    ensures { IfOk result (IsPart (spec.row_level types.now cores.now f.now)) }
{
    level_over(
        alloc,
        types,
        cores,
        f.formals.items().len() as u32,
        &f.level,
    )
}

// The first of what an expression of this type breaks.
fn judge_typed(
    alloc: Global,
    scope: &Scope,
    types: &[u16],
    row: &Equation,
    f: &Function,
    ty: Option<Ty>,
) -> Result<Option<Violation>, Memory>
    requires fine { AreFine scope.now.cores }
    ensures { IfOk result (λ found. found ≡ first (spec.typed_broken scope.now types.now row.now f.now ty)) }
{
    let Some(ty) = ty else {
        return Ok(None);
    };
    let locals = with_types(alloc, types, row.formals.items(), f.formals.items())?;
    judge_alone(alloc, scope, &locals, type_over(types, ty), &row.value)
}

// The first of what the expression and the level of a row break.
fn judge_value(
    alloc: Global,
    scope: &Scope,
    types: &[u16],
    cores: &[Expr],
    row: &Equation,
    f: Option<&Function>,
) -> Result<Option<Violation>, Memory>
    requires fine { AreFine scope.now.cores }
    requires cores { AreFine cores.now }
    requires levelled { IfSome (option_copied f) IsLevelled }
    ensures { IfOk result (λ found. found ≡ first (spec.function_value_broken scope.now types.now cores.now row.now (option_copied f.entry))) }
{
    let Some(f) = f else {
        return Ok(None);
    };
    let typed = judge_typed(alloc, scope, types, row, f, primitive(f))?;
    let level = level_of(alloc, types, cores, f)?;
    Ok(earlier(typed, limit_of(row.name.span, &level)))
}

/// The names of an upper specification that rows of functions are judged by.
#[derive(Drop)]
pub struct FunctionNames {
    /// All names.
    pub all: NameList,
    /// Those of the primitive V-functions.
    pub primitives: NameList,
    /// Those of all functions.
    pub functions: NameList,
}

fn function_names(alloc: Global, upper: &Spec) -> Result<FunctionNames, Memory>
    ensures { IfOk result (IsNamedBy upper.now) }
{
    Ok(FunctionNames {
        all: all_names(alloc, upper)?,
        primitives: primitives(alloc, upper.functions())?,
        functions: list_names(alloc, upper.functions())?,
    })
}

#[tactic(auto, using(crate::proofs::Scoped::all_levelled))]
fn judge_row(
    alloc: Global,
    upper: &Spec,
    names: &FunctionNames,
    scope: &Scope,
    types: &[u16],
    cores: &[Expr],
    row: &Equation,
) -> Result<Option<Violation>, Memory>
    requires names { IsNamedBy upper.now names.now }
    requires fine { AreFine scope.now.cores }
    requires cores { AreFine cores.now }
    ensures { IfOk result (λ found. found ≡ first (spec.function_row_broken upper.now scope.now types.now cores.now row.now)) }
{
    let f = upper_function(upper.functions(), &names.functions, row);
    let head = judge_head(alloc, &names.primitives, &names.all, count_of(f), row)?;
    let value = judge_value(alloc, scope, types, cores, row, f)?;
    Ok(otherwise(head, value))
}

fn judge_each(
    alloc: Global,
    upper: &Spec,
    scope: &Scope,
    types: &[u16],
    cores: &[Expr],
    rows: &[Equation],
) -> Result<Option<Violation>, Memory>
    requires fine { AreFine scope.now.cores }
    requires cores { AreFine cores.now }
    ensures { IfOk result (λ found. found ≡ first (flat_map (spec.function_row_broken upper.now scope.now types.now cores.now) rows.now)) }
{
    let names = function_names(alloc, upper)?;
    let mut found = None;
    for row in rows {
        let here = judge_row(alloc, upper, &names, scope, types, cores, row)?;
        found = earlier(found, here);
    }
    Ok(found)
}

/// The first of what the rows of functions break, where the upper types become these, the upper parameters have these expressions, and
/// the scope is what the lower interface sees.
///
/// # Errors
/// `Memory` where what is around can't be stored.
pub fn judge_functions(
    alloc: Global,
    upper: &Spec,
    scope: &Scope,
    types: &[u16],
    cores: &[Expr],
    rows: &[Equation],
) -> Result<Option<Violation>, Memory>
    requires fine { AreFine scope.now.cores }
    requires cores { AreFine cores.now }
    ensures { IfOk result (λ found. found ≡ first (spec.functions_broken upper.now scope.now types.now cores.now rows.now)) }
{
    let heads = row_heads(alloc, rows)?;
    let twice = first_repeated(alloc, &heads)?;
    let each = judge_each(alloc, upper, scope, types, cores, rows)?;
    Ok(earlier(twice, each))
}

// What an upper function breaks that no row is of, where it is a primitive V-function.
fn judge_missing(place: Span, names: &NameList, f: &Function) -> Option<Violation>
    ensures { result ≡ first (spec.primitive_missing place names.now f.now.name (primitive_type f.now.kind)) }
{
    match primitive(f) {
        None => None,
        Some(_) => missing(place, names, &f.name),
    }
}

/// What upper primitive V-functions break that no row is of, told at `place`.
pub fn all_missing(place: Span, names: &NameList, functions: &[Function]) -> Option<Violation>
    ensures { result ≡ first (flat_map (λ f. spec.primitive_missing place names.now f.name (primitive_type f.kind)) functions.now) }
{
    let mut found = None;
    for f in functions {
        found = earlier(found, judge_missing(place, names, f));
    }
    found
}

fn formals_of<'a>(f: Option<&'a Function>) -> &'a [Formal]
    ensures { result.now ≡ spec.formals_given (option_copied f.entry) }
{
    match f {
        None => &[],
        Some(f) => f.formals.items(),
    }
}

// The level of a row, or `?` where there is none.
fn level_given(
    alloc: Global,
    types: &[u16],
    cores: &[Expr],
    f: Option<&Function>,
) -> Result<Expr, Memory>
    requires cores { AreFine cores.now }
    requires levelled { IfSome (option_copied f) IsLevelled }
    ensures { IfOk result (λ x. x ≡ spec.level_given types.now cores.now (option_copied f.entry)) }
{
    match f {
        None => Ok(Expr::Const(Value::Unknown)),
        Some(f) => Ok(kept(level_of(alloc, types, cores, f)?)),
    }
}

// The number of the upper function that a row is of.
fn upper_number(functions: &[Function], names: &NameList, row: &Equation) -> u16
    requires names { names.now ≡ map function_name functions.now }
    requires few { length functions.now ≤ 512 }
    ensures { result ≡ number_or_none (spec.upper_number functions.now row.now) }
{
    match names.place(row.name.name.bytes()) {
        None => 0,
        Some(k) => k as u16,
    }
}

#[tactic(auto, using(crate::proofs::Scoped::all_levelled, crate::proofs::Scoped::few_functions))]
fn make_row(
    alloc: Global,
    upper: &Spec,
    names: &NameList,
    scope: &Scope,
    types: &[u16],
    cores: &[Expr],
    row: &Equation,
) -> Result<MapRow, Memory>
    requires names { names.now ≡ map function_name upper.now.functions }
    requires fine { AreFine scope.now.cores }
    requires cores { AreFine cores.now }
    ensures { IfOk result (λ r. r ≡ spec.row_of upper.now scope.now types.now cores.now row.now) }
{
    let functions = upper.functions();
    let f = upper_function(functions, names, row);
    let locals = with_types(alloc, types, row.formals.items(), formals_of(f))?;
    Ok(MapRow {
        upper: upper_number(functions, names, row),
        name: Name::new(alloc, row.name.name.bytes())?,
        formals: formals(alloc, &locals)?,
        value: make(alloc, scope, &locals, &row.value)?,
        level: level_given(alloc, types, cores, f)?,
    })
}

/// The rows that texts stand for; a part that exceeds a limit is `?`.
///
/// # Errors
/// `Memory` where they can't be stored.
pub fn make_rows(
    alloc: Global,
    upper: &Spec,
    scope: &Scope,
    types: &[u16],
    cores: &[Expr],
    rows: &[Equation],
) -> Result<Vec<MapRow>, Memory>
    requires fine { AreFine scope.now.cores }
    requires cores { AreFine cores.now }
    ensures { IfOk result (λ all. all.items ≡ map (spec.row_of upper.now scope.now types.now cores.now) rows.now) }
{
    let names = list_names(alloc, upper.functions())?;
    let mut all = Vec::new(alloc);
    for row in rows {
        all.push(make_row(alloc, upper, &names, scope, types, cores, row)?)?;
    }
    Ok(all)
}
