ghost use Rattle.std.specs.Prelude.{◌≡◌, ◌<◌, ◌≤◌, IfOk, OnOk, length, map, slice_get, slice_index_or, Some, []};
ghost use Rattle.std.specs.Map.{lookup};
ghost use Rattle.indexmap.specs.IndexMap.{insert_entry};
ghost use Rattle.sp_text.specs.declared.limits.TheConstants.{MOST_POPULATION};
ghost use Rattle.sp_values.specs.Identity.{same_values};
ghost use Rattle.sp_core.specs.Instances.{IsInstanceOf, InstanceParts, filling_of, row_value, table_value};

use crate::spec::Spec;
use indexmap::IndexMap;
use sp_text::{Memory, Name};
use sp_values::{Args, Value};
use std::alloc::Global;
use std::marker::Model;

/// The values of a parameter: those of its rows, found by their arguments, and the value at all other arguments.
#[derive(Drop)]
pub struct Table {
    rows: IndexMap<Args, Value>,
    other: Value,
}

impl Model for Table {
    ghost use Rattle.std.specs.Coded.{codes};
    ghost use Rattle.sp_core.specs.Instances.{TableParts};

    ghost Value = { TableParts };

    ghost coded = { Prim.hlevel codes };

    ghost view = { λ t. record { rows = t.rows.entries; other = t.other } };
}

impl Table {
    /// A table without rows, which has this value at all arguments. It takes no memory, and the table keeps the
    /// allocator.
    pub fn new(alloc: Global, other: Value) -> Table
        ensures { result ≡ record { rows = []; other = other } }
    {
        Table {
            rows: IndexMap::new(alloc),
            other,
        }
    }

    /// Gives the arguments this value, and tells the one that they had.
    ///
    /// # Errors
    /// `Memory` where the row can't be stored.
    pub fn insert(&mut self, args: Args, value: Value) -> Result<Option<Value>, Memory>
        ensures rows { OnOk result (self.new.rows ≡ insert_entry same_values self.old.rows args value) }
        ensures earlier { IfOk result (λ earlier. earlier ≡ lookup (same_values args) self.old.rows) }
        ensures other { self.new.other ≡ self.old.other }
    {
        match self.rows.insert(args, value) {
            Ok(earlier) => Ok(earlier),
            Err(_) => Err(Memory),
        }
    }

    // The value at arguments.
    fn at(&self, args: &Args) -> Value
        ensures { result ≡ row_value self.now.rows self.now.other args.now }
    {
        self.rows.get(args).copied().unwrap_or(self.other)
    }
}

/// An instance of a specification: the names of each declared type's members, and a table for each parameter.
#[derive(Drop)]
pub struct Instance {
    members: Vec<Vec<Name>>,
    tables: Vec<Table>,
}

impl Model for Instance {
    ghost use Rattle.std.specs.Prelude.{◌≤◌, length, map};
    ghost use Rattle.std.specs.List.{All};
    ghost use Rattle.std.specs.Coded.{codes};
    ghost use Rattle.sp_text.specs.declared.limits.TheConstants.{MOST_POPULATION};
    ghost use Rattle.sp_core.specs.Instances.{InstanceParts};

    ghost Value = { InstanceParts };

    ghost coded = { Prim.hlevel codes };

    ghost view = { λ i. record { members = map (λ names. names.items) i.members.items; tables = i.tables.items } };

    ghost invariant = { λ i. All (λ names. length names ≤ MOST_POPULATION) (map (λ names. names.items) i.members.items) };
}

impl Instance {
    /// The instance of the specification that has these members and tables. It takes no memory.
    pub fn assemble(spec: &Spec, members: Vec<Vec<Name>>, tables: Vec<Table>) -> Instance
        requires { IsInstanceOf spec.now (record { members = map (λ names. names.items) members.items; tables = tables.items }) }
        ensures { result ≡ record { members = map (λ names. names.items) members.items; tables = tables.items } }
    {
        let _ = spec;
        Instance { members, tables }
    }

    // The names of a declared type's members.
    fn names(&self, ty: u16) -> &[Name]
        requires { ty < length self.now.members }
        ensures names { result.now ≡ slice_index_or self.now.members ty [] }
        ensures size { length result.now ≡ slice_index_or (filling_of self.now).sizes ty 0 }
        ensures few { length result.now ≤ MOST_POPULATION }
    {
        self.members[ty as usize].as_slice()
    }

    /// How many members a declared type has.
    pub fn size(&self, ty: u16) -> u16
        requires { ty < length self.now.members }
        ensures size { result ≡ slice_index_or (filling_of self.now).sizes ty 0 }
        ensures few { result ≤ MOST_POPULATION }
    {
        self.names(ty).len() as u16
    }

    /// The value of a parameter at arguments.
    pub fn param(&self, p: u16, args: &Args) -> Value
        requires { p < length self.now.tables }
        ensures { result ≡ table_value (slice_get self.now.tables p) args.now }
    {
        self.tables[p as usize].at(args)
    }

    /// The name of a member of a declared type.
    pub fn member(&self, ty: u16, k: u16) -> &Name
        requires declared { ty < length self.now.members }
        requires within { k < slice_index_or (filling_of self.now).sizes ty 0 }
        ensures { slice_get (slice_index_or self.now.members ty []) k ≡ Some result.now }
    {
        &self.names(ty)[k as usize]
    }
}
