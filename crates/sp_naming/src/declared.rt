//! Declarations with an index of their names.

ghost use Rattle.std.specs.Prelude.{◌≡◌, [], IfOk, map, option_copied};
ghost use Rattle.sp_text.specs.Violations.{first_in_files};
ghost use Rattle.sp_naming.specs.Declarations.{declarations};
ghost use Rattle.sp_naming.specs.Names as names;
ghost use Rattle.sp_naming.specs.Names.{at_name, name_of, named, IsIndex};

use crate::declaration::Declaration;
use crate::index::{Index, note};
use crate::levels::push_levels;
use crate::listing::push_modules;
use crate::repeats::repeat_rule;
use indexmap::IndexMap;
use sp_text::{FileViolation, Memory, earlier_in_files, in_file};
use sp_tree::{InterfaceTree, Module};
use sqlite_items::at;
use std::alloc::Global;
use std::marker::Model;

/// Declarations, which contracts see as their list. A name is looked up in constant time.
#[derive(Drop)]
pub struct Declared {
    all: Vec<Declaration>,
    index: Index,
}

impl Model for Declared {
    ghost use Rattle.std.specs.Prelude.{List, map};
    ghost use Rattle.sp_naming.specs.declared.declaration.Declaration.{Declaration as DeclarationValue};
    ghost use Rattle.sp_naming.specs.Names.{at_name, name_of, IsIndex};

    ghost Value = { List DeclarationValue };

    ghost view = { λ d. d.all.items };

    ghost invariant = { λ d. IsIndex (map name_of d.all.items) (at_name d.index) };
}

// The index of the names, with the first of the declarations whose name an earlier one has.
fn indexed(alloc: Global, all: &[Declaration]) -> Result<(Index, Option<FileViolation>), Memory>
    ensures index { IfOk result (λ made. IsIndex (map name_of all.now) (at_name made.0)) }
    ensures repeated { IfOk result (λ made. made.1 ≡ first_in_files (names.repeated [] all.now)) }
{
    let mut index = IndexMap::new(alloc);
    let mut found = None;
    for (place, d) in all.iter().enumerate() {
        let known = note(alloc, &mut index, d.name.bytes(), place)?;
        found = earlier_in_files(found, in_file(d.file, repeat_rule(known, d.span)));
    }
    Ok((index, found))
}

impl Declared {
    /// The declarations, with the first of those whose name an earlier one has.
    ///
    /// # Errors
    /// `Memory` where the index can't be stored.
    pub fn new(
        alloc: Global,
        all: Vec<Declaration>,
    ) -> Result<(Declared, Option<FileViolation>), Memory>
        ensures declared { IfOk result (λ made. made.0 ≡ all.items) }
        ensures repeated { IfOk result (λ made. made.1 ≡ first_in_files (names.repeated [] all.items)) }
    {
        let (index, found) = indexed(alloc, all.as_slice())?;
        Ok((Declared { all, index }, found))
    }

    /// The declarations in order.
    pub fn items(&self) -> &[Declaration]
        ensures { result.now ≡ self.now }
    {
        &self.all
    }

    /// What a name stands for: the first declaration that has it. It takes no memory.
    pub fn named(&self, name: &[u8]) -> Option<&Declaration>
        ensures { option_copied result ≡ named self.now name.now }
    {
        match self.index.get(name) {
            None => None,
            Some(place) => at(self.all.as_slice(), *place),
        }
    }
}

/// All that an interface and its modules declare, with the first of the declarations whose name an earlier one has.
///
/// # Errors
/// `Memory` where they can't be stored.
pub fn declare_names(
    alloc: Global,
    interface: &InterfaceTree,
    modules: &[Module],
) -> Result<(Declared, Option<FileViolation>), Memory>
    ensures declared { IfOk result (λ made. made.0 ≡ declarations interface.now modules.now) }
    ensures repeated { IfOk result (λ made. made.1 ≡ first_in_files (names.repeated [] (declarations interface.now modules.now))) }
{
    let mut all = Vec::new(alloc);
    push_levels(alloc, &mut all, &interface.lattice)?;
    push_modules(alloc, &mut all, modules)?;
    Declared::new(alloc, all)
}
