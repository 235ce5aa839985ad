//! Populations.

ghost use Rattle.std.specs.Prelude.{◌≡◌, IfOk, map, option_copied};
ghost use Rattle.sp_text.specs.Violations.{first};
ghost use Rattle.sp_instance.specs.Heads.{names_in};
ghost use Rattle.sp_instance.specs.Populations as populations;
ghost use Rattle.sp_instance.specs.Populations.{members_given, members_of_types, population_broken, population_head, type_broken, types_broken};

use crate::heads::{find, over};
use crate::names::{NameList, push_names};
use sp_core::TypeInfo;
use sp_naming::first_repeated;
use sp_text::{
    MOST_POPULATION, Memory, Name, Quantity, Rule, Sequence, Span, Violation, breaks, earlier,
};
use sp_tree::Ident;
use sqlite_items::at;
use std::alloc::Global;

/// A population of a text.
pub type Population = (Ident, Sequence<Ident>);

// The members that a population gives, with the first of what it breaks.
fn given(
    alloc: Global,
    span: Span,
    row: Option<&Population>,
) -> Result<(Vec<Name>, Option<Violation>), Memory>
    ensures made { IfOk result (λ r. r.0.items ≡ members_given (option_copied row.entry)) }
    ensures found { IfOk result (λ r. r.1 ≡ first (population_broken span (option_copied row.entry))) }
{
    let mut names = Vec::new(alloc);
    match row {
        None => Ok((names, breaks(span, Rule::NoPopulation))),
        Some(row) => {
            let idents = row.1.items();
            push_names(alloc, &mut names, idents)?;
            let repeated = first_repeated(alloc, idents)?;
            let past = over(Quantity::Population, at(idents, MOST_POPULATION as usize));
            Ok((names, earlier(repeated, past)))
        }
    }
}

// The members of a type, with the first of what its population breaks.
fn members(
    alloc: Global,
    span: Span,
    rows: &[Population],
    names: &NameList,
    info: &TypeInfo,
) -> Result<(Vec<Name>, Option<Violation>), Memory>
    requires { names.now ≡ names_in (map population_head rows.now) }
    ensures made { IfOk result (λ r. r.0.items ≡ populations.type_members rows.now info.now) }
    ensures found { IfOk result (λ r. r.1 ≡ first (type_broken span rows.now info.now)) }
{
    match &info.members {
        Some(members) => {
            let mut names = Vec::new(alloc);
            push_names(alloc, &mut names, members.items())?;
            Ok((names, None))
        }
        None => given(alloc, span, find(names, rows, &info.name)),
    }
}

/// The members of the types, with the first of what the populations break; a type without a population is told at `span`.
///
/// # Errors
/// `Memory` where they can't be stored.
pub fn all_members(
    alloc: Global,
    span: Span,
    rows: &[Population],
    names: &NameList,
    types: &[TypeInfo],
) -> Result<(Vec<Vec<Name>>, Option<Violation>), Memory>
    requires { names.now ≡ names_in (map population_head rows.now) }
    ensures made { IfOk result (λ r. map (λ names. names.items) r.0.items ≡ members_of_types rows.now types.now) }
    ensures found { IfOk result (λ r. r.1 ≡ first (types_broken span rows.now types.now)) }
{
    let mut all = Vec::new(alloc);
    let mut found = None;
    for info in types {
        let made = members(alloc, span, rows, names, info)?;
        all.push(made.0)?;
        found = earlier(found, made.1);
    }
    Ok((all, found))
}
