//! The names of a specification.

ghost use Rattle.std.specs.Prelude.{◌≡◌, ◌++◌, IfOk, OnOk};
ghost use Rattle.std.specs.List.{flat_map};
ghost use Rattle.sp_core.specs.WellFormed.{members_of, names_of};
ghost use Rattle.sp_instance.specs.Words.{designator_name, designator_names};

use crate::names::{NameList, push_names};
use sp_core::{Spec, TypeInfo};
use sp_text::{Memory, Name};
use std::alloc::Global;

fn push_members_of(alloc: Global, names: &mut Vec<Name>, info: &TypeInfo) -> Result<(), Memory>
    ensures { OnOk result (names.new.items ≡ names.old.items ++ members_of info.now) }
{
    match &info.members {
        None => Ok(()),
        Some(members) => push_names(alloc, names, members.items()),
    }
}

fn push_members(alloc: Global, names: &mut Vec<Name>, types: &[TypeInfo]) -> Result<(), Memory>
    ensures { OnOk result (names.new.items ≡ names.old.items ++ flat_map members_of types.now) }
{
    for info in types {
        push_members_of(alloc, names, info)?;
    }
    Ok(())
}

fn push_levels(alloc: Global, names: &mut Vec<Name>, spec: &Spec) -> Result<(), Memory>
    ensures { OnOk result (names.new.items ≡ names.old.items ++ spec.now.level_names) }
{
    let lattice = spec.lattice();
    for level in 0..lattice.count() {
        let name = Name::new(alloc, spec.level_name(level).bytes())?;
        names.push(name)?;
    }
    Ok(())
}

/// All names of a specification: of types, members, parameters, functions and levels.
///
/// # Errors
/// `Memory` where they can't be stored.
pub fn all_names(alloc: Global, spec: &Spec) -> Result<NameList, Memory>
    ensures { IfOk result (λ names. names ≡ names_of spec.now) }
{
    let mut names = Vec::new(alloc);
    push_names(alloc, &mut names, spec.types())?;
    push_members(alloc, &mut names, spec.types())?;
    push_names(alloc, &mut names, spec.params())?;
    push_names(alloc, &mut names, spec.functions())?;
    push_levels(alloc, &mut names, spec)?;
    NameList::new(alloc, names)
}

/// The names of the levels of a specification.
///
/// # Errors
/// `Memory` where they can't be stored.
pub fn level_names(alloc: Global, spec: &Spec) -> Result<NameList, Memory>
    ensures { IfOk result (λ names. names ≡ spec.now.level_names) }
{
    let mut names = Vec::new(alloc);
    push_levels(alloc, &mut names, spec)?;
    NameList::new(alloc, names)
}

fn push_designator(alloc: Global, names: &mut Vec<Name>, info: &TypeInfo) -> Result<(), Memory>
    ensures { OnOk result (names.new.items ≡ names.old.items ++ designator_name info.now) }
{
    match &info.members {
        None => {
            names.push(Name::new(alloc, info.name.bytes())?)?;
            Ok(())
        }
        Some(_) => Ok(()),
    }
}

fn push_designators(alloc: Global, names: &mut Vec<Name>, types: &[TypeInfo]) -> Result<(), Memory>
    ensures { OnOk result (names.new.items ≡ names.old.items ++ designator_names types.now) }
{
    for info in types {
        push_designator(alloc, names, info)?;
    }
    Ok(())
}

/// The names of the designator types, whose members an instance gives.
///
/// # Errors
/// `Memory` where they can't be stored.
pub fn designators(alloc: Global, types: &[TypeInfo]) -> Result<NameList, Memory>
    ensures { IfOk result (λ names. names ≡ designator_names types.now) }
{
    let mut names = Vec::new(alloc);
    push_designators(alloc, &mut names, types)?;
    NameList::new(alloc, names)
}
