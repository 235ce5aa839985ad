//! Instances.

ghost use Rattle.std.specs.Prelude.{◌≡◌, [], IfOk, map};
ghost use Rattle.sp_text.specs.Violations.{first, Judges};
ghost use Rattle.sp_core.specs.Instances.{IsInstanceOf};
ghost use Rattle.sp_core.specs.WellFormed.{names_of};
ghost use Rattle.sp_instance.specs.Words.{designator_names};
ghost use Rattle.sp_instance.specs.Heads.{heads_broken, names_in};
ghost use Rattle.sp_instance.specs.Instances.{front_broken, instance_broken, instance_of, members_in, param_name, table_heads, tables_named};

use crate::heads::{heads, judge_heads};
use crate::names::{NameList, list_names};
use crate::populations::all_members;
use crate::spec_names::{all_names, designators};
use crate::tables::{all_missing, all_tables};
use crate::vocabulary::Vocabulary;
use sp_core::{Instance, Spec};
use sp_text::{Memory, Name, TextFault, Violation, earlier};
use sp_tree::{Ident, InstanceTree};
use std::alloc::Global;

// The first of what the names of populations break.
fn judge_populations(alloc: Global, spec: &Spec, xs: &[Ident]) -> Result<Option<Violation>, Memory>
    ensures { IfOk result (λ found. found ≡ first (heads_broken (designator_names spec.now.types) (names_of spec.now) xs.now)) }
{
    let all = all_names(alloc, spec)?;
    let asked = designators(alloc, spec.types())?;
    judge_heads(alloc, &asked, &all, xs)
}

// The first of what the names of tables break.
fn judge_tables(alloc: Global, spec: &Spec, xs: &[Ident]) -> Result<Option<Violation>, Memory>
    ensures { IfOk result (λ found. found ≡ first (heads_broken (map param_name spec.now.params) (names_of spec.now) xs.now)) }
{
    let all = all_names(alloc, spec)?;
    let asked = list_names(alloc, spec.params())?;
    judge_heads(alloc, &asked, &all, xs)
}

// The names of the tables, with the first of what they break.
fn table_names(
    alloc: Global,
    spec: &Spec,
    t: &InstanceTree,
) -> Result<(NameList, Option<Violation>), Memory>
    ensures names { IfOk result (λ r. r.0 ≡ names_in (table_heads t.now)) }
    ensures named { IfOk result (λ r. r.1 ≡ first (tables_named spec.now t.now)) }
{
    let texts = t.tables.items();
    let tables = heads(alloc, texts)?;
    let names = list_names(alloc, &tables)?;
    let named = judge_tables(alloc, spec, &tables)?;
    Ok((names, named))
}

// The members of the types, with the first of what populations break, and types and parameters that lack a population or a table.
fn front(
    alloc: Global,
    spec: &Spec,
    t: &InstanceTree,
    names: &NameList,
) -> Result<(Vec<Vec<Name>>, Option<Violation>), Memory>
    requires { names.now ≡ names_in (table_heads t.now) }
    ensures members { IfOk result (λ r. map (λ names. names.items) r.0.items ≡ members_in spec.now t.now) }
    ensures found { IfOk result (λ r. r.1 ≡ first (front_broken spec.now t.now)) }
{
    let place = t.name.span;
    let rows = t.populations.items();
    let populations = heads(alloc, rows)?;
    let types = list_names(alloc, &populations)?;
    let named = judge_populations(alloc, spec, &populations)?;
    let given = all_members(alloc, place, rows, &types, spec.types())?;
    let missing = all_missing(place, names, spec.params());
    let here = earlier(named, given.1);
    let found = earlier(here, missing);
    Ok((given.0, found))
}

// The instance with these members and the tables of the text, where populations break nothing and none lacks.
fn finish(
    alloc: Global,
    spec: &Spec,
    t: &InstanceTree,
    members: Vec<Vec<Name>>,
    names: &NameList,
    named: Option<Violation>,
) -> Result<Instance, TextFault>
    requires front { front_broken spec.now t.now ≡ [] }
    requires members { map (λ names. names.items) members.items ≡ members_in spec.now t.now }
    requires names { names.now ≡ names_in (table_heads t.now) }
    requires named { named ≡ first (tables_named spec.now t.now) }
    ensures judges { Judges (instance_broken spec.now t.now) (λ i. i ≡ instance_of spec.now t.now) result }
    ensures instance { IfOk result (IsInstanceOf spec.now) }
{
    let declared = spec.params();
    let texts = t.tables.items();
    let words = Vocabulary::new(alloc, spec, &members)?;
    let made = all_tables(alloc, &words, declared, texts, names)?;
    let first = earlier(named, made.1);
    match first {
        Some(found) => Err(TextFault::from(found)),
        None => Ok(Instance::assemble(spec, members, made.0)),
    }
}

/// The instance of the specification that the tree stands for.
///
/// # Errors
/// The first rule or limit that the tree breaks; `Memory` where the instance can't be stored.
pub fn make_instance(alloc: Global, spec: &Spec, t: &InstanceTree) -> Result<Instance, TextFault>
    ensures judges { Judges (instance_broken spec.now t.now) (λ i. i ≡ instance_of spec.now t.now) result }
    ensures instance { IfOk result (IsInstanceOf spec.now) }
{
    let tables = table_names(alloc, spec, t)?;
    let begun = front(alloc, spec, t, &tables.0)?;
    match begun.1 {
        Some(found) => Err(TextFault::from(found)),
        None => finish(alloc, spec, t, begun.0, &tables.0, tables.1),
    }
}
