//! The interfaces of a hierarchy.

ghost use Rattle.std.specs.Prelude.{◌≡◌, IfOk, OnOk};
ghost use Rattle.sp_hierarchy_rows.specs.Names as definitions;

use sp_text::{Memory, Name, Sequence};
use sp_tree::{HierarchyTree, Ident};
use std::alloc::Global;

/// The names of the interfaces in order of first mention.
///
/// # Errors
/// `Memory` where they can't be held.
pub fn interface_names(alloc: Global, hierarchy: &HierarchyTree) -> Result<Sequence<Name>, Memory>
    ensures { IfOk result (λ names. names ≡ definitions.interface_names hierarchy.now.rows) }
{
    let mut names = Vec::new(alloc);
    push_rows(alloc, &mut names, hierarchy.rows.items())?;
    Ok(Sequence::new(names))
}

// Adds the names of each row.
fn push_rows(
    alloc: Global,
    names: &mut Vec<Name>,
    rows: &[(Ident, Ident, Ident)],
) -> Result<(), Memory>
    ensures { OnOk result (names.new.items ≡ definitions.with_rows names.old.items rows.now) }
{
    for row in rows {
        push_name(alloc, names, &row.0.name)?;
        push_name(alloc, names, &row.1.name)?;
    }
    Ok(())
}

// Adds a name, unless it is among them.
fn push_name(alloc: Global, names: &mut Vec<Name>, name: &Name) -> Result<(), Memory>
    ensures { OnOk result (names.new.items ≡ definitions.with_name names.old.items name.now) }
{
    if !names.contains(name) {
        names.push(Name::new(alloc, name.bytes())?)?;
    }
    Ok(())
}
