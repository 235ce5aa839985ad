//! The types of a mapping.

ghost use Rattle.std.specs.Prelude.{◌≡◌, IfOk, map, option_copied};
ghost use Rattle.std.specs.List.{flat_map};
ghost use Rattle.sp_text.specs.Violations.{first};
ghost use Rattle.sp_core.specs.WellFormed.{names_of};
ghost use Rattle.sp_instance.specs.Heads.{names_in};
ghost use Rattle.sp_judge.specs.Visible.{see};
ghost use Rattle.sp_mapping_rules.specs.Types as spec;
ghost use Rattle.sp_mapping_rules.specs.Types.{type_name};

use crate::heads::{item_at, judge_kind, missing, type_heads};
use sp_core::{Spec, TypeInfo};
use sp_instance::{NameList, list_names};
use sp_judge::Scope;
use sp_naming::{Entity, first_repeated};
use sp_text::{Memory, Name, Rule, Sequence, Span, Violation, breaks, earlier, otherwise};
use sp_tree::Ident;
use std::alloc::Global;

/// A row: the name of an upper type, and that of a lower one.
pub type TypeRow = (Ident, Ident);

// What the lower interface calls by the lower name of a row.
fn entity(scope: &Scope, row: &TypeRow) -> Option<Entity>
    ensures { result ≡ see scope.now row.now.1.name }
{
    scope.names.find(scope.module_number, row.1.name.bytes())
}

// What the lower name breaks that stands for this.
fn judge_lower(place: Span, entity: Option<Entity>) -> Option<Violation>
    ensures { result ≡ first (spec.type_rule place entity) }
{
    match entity {
        None => breaks(place, Rule::UnknownName),
        Some(Entity::Declared(_)) => None,
        Some(Entity::Member(..)) => breaks(place, Rule::WrongKind),
        Some(Entity::Param(_)) => breaks(place, Rule::WrongKind),
        Some(Entity::Definition(_)) => breaks(place, Rule::WrongKind),
        Some(Entity::Function(_)) => breaks(place, Rule::WrongKind),
        Some(Entity::Level(_)) => breaks(place, Rule::WrongKind),
    }
}

// The number of a declared type.
fn declared_number(entity: Option<Entity>) -> Option<u16>
    ensures { result ≡ spec.declared_number entity }
{
    match entity {
        None => None,
        Some(Entity::Declared(k)) => Some(k),
        Some(Entity::Member(..)) => None,
        Some(Entity::Param(_)) => None,
        Some(Entity::Definition(_)) => None,
        Some(Entity::Function(_)) => None,
        Some(Entity::Level(_)) => None,
    }
}

fn lower_number(scope: &Scope, row: &TypeRow) -> Option<u16>
    ensures { result ≡ spec.lower_number scope.now row.now }
{
    declared_number(entity(scope, row))
}

// The lower type that a row names.
fn lower_type<'a>(scope: &Scope, lower: &'a Spec, row: &TypeRow) -> Option<&'a TypeInfo>
    ensures { option_copied result ≡ spec.lower_type scope.now lower.now.types row.now }
{
    let types = lower.types();
    match lower_number(scope, row) {
        None => item_at(types, None),
        Some(k) => item_at(types, Some(k as usize)),
    }
}

// The upper type that a row is of.
fn upper_type<'a>(upper: &'a Spec, names: &NameList, row: &TypeRow) -> Option<&'a TypeInfo>
    requires { names.now ≡ map type_name upper.now.types }
    ensures { option_copied result ≡ spec.upper_type upper.now.types row.now }
{
    item_at(upper.types(), names.place(row.0.name.bytes()))
}

fn same_members(a: &Option<Sequence<Name>>, b: &Option<Sequence<Name>>) -> bool
    ensures { result ≡ spec.same_members a.now b.now }
{
    match a {
        None => b.is_none(),
        Some(a) => match b {
            None => false,
            Some(b) => a.items().len() == b.items().len(),
        },
    }
}

// What a lower type breaks that is of another sort.
fn judge_sort(place: Span, a: Option<&TypeInfo>, b: Option<&TypeInfo>) -> Option<Violation>
    ensures { result ≡ first (spec.sort_broken place (option_copied a.entry) (option_copied b.entry)) }
{
    match a {
        None => None,
        Some(a) => match b {
            None => None,
            Some(b) => if same_members(&a.members, &b.members) {
                None
            } else {
                breaks(place, Rule::WrongKind)
            },
        },
    }
}

fn judge_row(
    upper: &Spec,
    names: &NameList,
    all: &NameList,
    lower: &Spec,
    scope: &Scope,
    row: &TypeRow,
) -> Option<Violation>
    requires names { names.now ≡ map type_name upper.now.types }
    requires all { all.now ≡ names_of upper.now }
    ensures { result ≡ first (spec.type_row_broken upper.now lower.now scope.now row.now) }
{
    let place = row.1.span;
    let own = judge_kind(names, all, &row.0);
    let other = judge_lower(place, entity(scope, row));
    let sort = judge_sort(
        place,
        upper_type(upper, names, row),
        lower_type(scope, lower, row),
    );
    otherwise(earlier(own, other), sort)
}

fn judge_each(
    upper: &Spec,
    names: &NameList,
    all: &NameList,
    lower: &Spec,
    scope: &Scope,
    rows: &[TypeRow],
) -> Option<Violation>
    requires names { names.now ≡ map type_name upper.now.types }
    requires all { all.now ≡ names_of upper.now }
    ensures { result ≡ first (flat_map (spec.type_row_broken upper.now lower.now scope.now) rows.now) }
{
    let mut found = None;
    for row in rows {
        found = earlier(found, judge_row(upper, names, all, lower, scope, row));
    }
    found
}

/// The first of what the rows of types break, where the scope is what the lower interface sees.
///
/// # Errors
/// `Memory` where what is around can't be stored.
pub fn judge_types(
    alloc: Global,
    upper: &Spec,
    all: &NameList,
    lower: &Spec,
    scope: &Scope,
    rows: &[TypeRow],
) -> Result<Option<Violation>, Memory>
    requires { all.now ≡ names_of upper.now }
    ensures { IfOk result (λ found. found ≡ first (spec.types_broken upper.now lower.now scope.now rows.now)) }
{
    let heads = type_heads(alloc, rows)?;
    let twice = first_repeated(alloc, &heads)?;
    let names = list_names(alloc, upper.types())?;
    let each = judge_each(upper, &names, all, lower, scope, rows);
    Ok(earlier(twice, each))
}

/// What upper types break that no row is of, told at `place`.
pub fn all_missing(place: Span, names: &NameList, types: &[TypeInfo]) -> Option<Violation>
    ensures { result ≡ first (flat_map (λ i. spec.missing place names.now i.name) types.now) }
{
    let mut found = None;
    for info in types {
        found = earlier(found, missing(place, names, &info.name));
    }
    found
}

fn number_given(scope: &Scope, row: Option<&TypeRow>) -> u16
    ensures { result ≡ spec.number_given scope.now (option_copied row.entry) }
{
    match row {
        None => 0,
        Some(row) => match lower_number(scope, row) {
            None => 0,
            Some(k) => k,
        },
    }
}

/// The numbers of the lower types that upper types become, where the rows are of types of these names.
///
/// # Errors
/// `Memory` where they can't be stored.
pub fn type_numbers(
    alloc: Global,
    scope: &Scope,
    rows: &[TypeRow],
    names: &NameList,
    types: &[TypeInfo],
) -> Result<Vec<u16>, Memory>
    requires { names.now ≡ names_in (map spec.type_head rows.now) }
    ensures { IfOk result (λ all. all.items ≡ spec.type_numbers scope.now rows.now types.now) }
{
    let mut all = Vec::new(alloc);
    for info in types {
        let row = item_at(rows, names.place(info.name.bytes()));
        all.push(number_given(scope, row))?;
    }
    Ok(all)
}
