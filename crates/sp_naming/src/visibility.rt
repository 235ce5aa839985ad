//! What a module takes from others, and what it sees.

ghost use Rattle.std.specs.Prelude.{◌≡◌, ◌++◌, IfOk, OnOk, List, ℕ, option_copied};
ghost use Rattle.std.specs.List.{flat_map};
ghost use Rattle.sp_naming.specs.Names.{named};
ghost use Rattle.sp_naming.specs.Visibility as visible;

use crate::declaration::{Declaration, Entity};
use crate::declared::Declared;
use crate::listing::{after, counted};
use crate::names::Names;
use sp_text::{Memory, Name, Sequence};
use sp_tree::Ident;
use std::alloc::Global;

/// Whether EXTERNALREFS may name it: a type, a parameter or a function.
pub fn can_be_taken(entity: Entity) -> bool
    ensures { result ≡ visible.can_be_taken entity }
{
    match entity {
        Entity::Declared(_) | Entity::Param(_) | Entity::Function(_) => true,
        Entity::Member(..) | Entity::Definition(_) | Entity::Level(_) => false,
    }
}

/// The file of the module that has the name.
pub fn file_of(modules: &[Ident], name: &Name) -> Option<u16>
    ensures { result ≡ visible.file_of modules.now name.now }
{
    let mut file = 1;
    for m in modules {
        if m.name == *name {
            return Some(file);
        }
        file = after(file);
    }
    None
}

// Whether the name may be taken from the file.
fn is_taken_from(declared: &Declared, file: u16, name: &Name) -> bool
    ensures { result ≡ visible.is_taken_from declared.now file name.now }
{
    match declared.named(name.bytes()) {
        None => false,
        Some(d) => d.file == file && can_be_taken(d.entity),
    }
}

fn push_name(
    alloc: Global,
    all: &mut Vec<Name>,
    declared: &Declared,
    file: u16,
    name: &Ident,
) -> Result<(), Memory>
    ensures { OnOk result (all.new.items ≡ all.old.items ++ visible.name_taken declared.now file name.now) }
{
    if is_taken_from(declared, file, &name.name) {
        all.push(Name::new(alloc, name.name.bytes())?)?;
    }
    Ok(())
}

fn push_names(
    alloc: Global,
    all: &mut Vec<Name>,
    declared: &Declared,
    file: u16,
    names: &[Ident],
) -> Result<(), Memory>
    ensures { OnOk result (all.new.items ≡ all.old.items ++ flat_map (visible.name_taken declared.now file) names.now) }
{
    for name in names {
        push_name(alloc, all, declared, file, name)?;
    }
    Ok(())
}

fn push_row(
    alloc: Global,
    all: &mut Vec<Name>,
    declared: &Declared,
    modules: &[Ident],
    row: &(Ident, Sequence<Ident>),
) -> Result<(), Memory>
    ensures { OnOk result (all.new.items ≡ all.old.items ++ visible.row_taken declared.now modules.now row.now) }
{
    match file_of(modules, &row.0.name) {
        None => Ok(()),
        Some(file) => push_names(alloc, all, declared, file, row.1.items()),
    }
}

/// The names that rows of EXTERNALREFS take.
///
/// # Errors
/// `Memory` where they can't be stored.
pub fn taken(
    alloc: Global,
    declared: &Declared,
    modules: &[Ident],
    externals: &[(Ident, Sequence<Ident>)],
) -> Result<Names, Memory>
    ensures { IfOk result (λ names. names ≡ visible.taken declared.now modules.now externals.now) }
{
    let mut all = Vec::new(alloc);
    for row in externals {
        push_row(alloc, &mut all, declared, modules, row)?;
    }
    Names::new(alloc, all)
}

/// Whether module `k`, which takes these names, sees the declaration.
pub fn sees(k: u16, names: &Names, d: &Declaration) -> bool
    ensures { result ≡ visible.sees k names.now d.now }
{
    d.file == 0 || d.file == counted(1, k as usize) || names.contains(taken_as(d).bytes())
}

// A member comes with its type.
fn taken_as(d: &Declaration) -> &Name
    ensures { result.now ≡ visible.taken_as d.now }
{
    match &d.owner {
        None => &d.name,
        Some(owner) => owner,
    }
}

/// What the name stands for in module `k`, which takes these names.
pub fn seen<'a>(
    declared: &'a Declared,
    k: u16,
    names: &Names,
    name: &[u8],
) -> Option<&'a Declaration>
    ensures { option_copied result ≡ visible.seen k names.now (named declared.now name.now) }
{
    match declared.named(name) {
        None => None,
        Some(d) => { if sees(k, names, d) { Some(d) } else { None } }
    }
}
