//! What every name stands for.

ghost use Rattle.std.specs.Prelude.{◌≡◌, IfOk, length, option_copied};
ghost use Rattle.sp_text.specs.Violations.{JudgesFiles};
ghost use Rattle.sp_text.specs.declared.fault.TextFault.TheVariants as fault;
ghost use Rattle.sp_naming.specs.Visibility.{find_in};
ghost use Rattle.sp_scopes.specs.Interfaces.{scopes_broken};
ghost use Rattle.sp_scopes.specs.Scopes as spec_scopes;
ghost use Rattle.sp_scopes.specs.Scopes.{entity_at, scopes_of};

use crate::heads::Head;
use crate::interface::judge_names;
use crate::lent::{DeclaredType, Definition, LevelOrder, all_types, level_names, level_order};
use crate::parts::{Parts, parts_of};
use sp_naming::{Declaration, Declared, Entity, Names, seen};
use sp_text::{Memory, Name, Sequence, SpecFault, TextFault};
use sp_tree::{InterfaceTree, Module};
use sqlite_items::at;
use std::alloc::Global;

/// The names of an interface and its modules, which break nothing by them.
#[derive(Drop)]
pub struct Scopes {
    /// All that is declared, in order.
    pub declared: Declared,
    /// For each module the names that it takes from others.
    pub takes: Sequence<Names>,
    /// The declared types by number.
    pub types: Sequence<DeclaredType>,
    /// The parameters by number.
    pub parameters: Sequence<Head>,
    /// The definitions by number.
    pub definitions: Sequence<Definition>,
    /// The functions by number.
    pub functions: Sequence<Head>,
    /// The names of the levels by number.
    pub levels: Sequence<Name>,
    /// The declared order of the levels.
    pub order: LevelOrder,
}

fn out_of_memory() -> SpecFault
    ensures { result.fault ≡ fault.Memory }
{
    SpecFault {
        file: 0,
        fault: TextFault::Memory,
    }
}

// All that is known of the names, by their declarations.
fn scopes_by(
    alloc: Global,
    declared: Declared,
    interface: &InterfaceTree,
    modules: &[Module],
) -> Result<Scopes, Memory>
    ensures { IfOk result (λ s. s ≡ spec_scopes.scopes_by declared interface.now modules.now) }
{
    let parts = parts_of(alloc, &declared, interface.modules.items(), modules)?;
    let types = all_types(alloc, modules)?;
    let levels = level_names(alloc, declared.items())?;
    let order = level_order(alloc, &declared, &interface.lattice)?;
    let Parts {
        takes,
        parameters,
        definitions,
        functions,
    } = parts;
    Ok(Scopes {
        declared,
        takes: Sequence::new(takes),
        types: Sequence::new(types),
        parameters: Sequence::new(parameters),
        definitions: Sequence::new(definitions),
        functions: Sequence::new(functions),
        levels: Sequence::new(levels),
        order,
    })
}

impl Scopes {
    /// The names of an interface and its modules, which stand in the order of MODULES.
    ///
    /// # Errors
    /// The first rule or limit that names and headers break; `Memory` where what they declare can't be stored.
    pub fn declare(
        alloc: Global,
        interface: &InterfaceTree,
        modules: &[Module],
    ) -> Result<Scopes, SpecFault>
        ensures { JudgesFiles (scopes_broken interface.now modules.now) (λ s. s ≡ scopes_of interface.now modules.now) result }
    {
        let (declared, found) = match judge_names(alloc, interface, modules) {
            Ok(judged) => judged,
            Err(_) => return Err(out_of_memory()),
        };
        match found {
            Some(found) => return Err(SpecFault::from(found)),
            None => {}
        }
        match scopes_by(alloc, declared, interface, modules) {
            Ok(scopes) => Ok(scopes),
            Err(_) => Err(out_of_memory()),
        }
    }

    /// The declared types, by number.
    pub fn types(&self) -> &[DeclaredType]
        ensures { result.now ≡ self.now.types }
    {
        self.types.items()
    }

    /// The heads of the parameters, by number.
    pub fn parameters(&self) -> &[Head]
        ensures { result.now ≡ self.now.parameters }
    {
        self.parameters.items()
    }

    /// The definitions with their texts, by number.
    pub fn definitions(&self) -> &[Definition]
        ensures { result.now ≡ self.now.definitions }
    {
        self.definitions.items()
    }

    /// The heads of the functions, by number.
    pub fn functions(&self) -> &[Head]
        ensures { result.now ≡ self.now.functions }
    {
        self.functions.items()
    }

    /// The names of the levels, by number.
    pub fn levels(&self) -> &[Name]
        ensures { result.now ≡ self.now.levels }
    {
        self.levels.items()
    }

    /// The declared order of the levels.
    pub fn order(&self) -> &LevelOrder
        ensures { result.now ≡ self.now.order }
    {
        &self.order
    }

    /// How many modules there are; the number of the interface itself, for `find`.
    pub fn modules(&self) -> usize
        ensures { result ≡ length self.now.takes }
    {
        self.takes.items().len()
    }

    /// What the name stands for in this module, where it is visible there. A number that is no module's stands for the
    /// interface itself, which sees all. It takes no memory.
    pub fn find(&self, module: u16, name: &[u8]) -> Option<Entity>
        ensures { result ≡ entity_at self.now «module» name.now }
    {
        match self.declaration(module, name) {
            None => None,
            Some(d) => Some(d.entity),
        }
    }

    /// The declaration that the name has in this module, where it is visible there.
    pub fn declaration(&self, module: u16, name: &[u8]) -> Option<&Declaration>
        ensures { option_copied result ≡ find_in self.now.declared self.now.takes «module» name.now }
    {
        match at(self.takes.items(), module as usize) {
            None => self.declared.named(name),
            Some(names) => seen(&self.declared, module, names, name),
        }
    }
}
