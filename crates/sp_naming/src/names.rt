//! A list of names with an index.

ghost use Rattle.std.specs.Prelude.{◌≡◌, [], IfOk};
ghost use Rattle.sp_naming.specs.Names.{at_name, is_among, IsIndex};

use crate::index::{Index, note};
use indexmap::IndexMap;
use sp_text::{Memory, Name};
use std::alloc::Global;
use std::marker::Model;

/// Names, which contracts see as their list. Whether a name is among them is told in constant time.
#[derive(Drop)]
pub struct Names {
    all: Vec<Name>,
    index: Index,
}

impl Model for Names {
    ghost use Rattle.std.specs.Prelude.{List, ℕ};
    ghost use Rattle.sp_naming.specs.Names.{at_name, IsIndex};

    ghost Value = { List (List ℕ) };

    ghost view = { λ n. n.all.items };

    ghost invariant = { λ n. IsIndex n.all.items (at_name n.index) };
}

fn indexed_names(alloc: Global, all: &[Name]) -> Result<Index, Memory>
    ensures { IfOk result (λ index. IsIndex all.now (at_name index)) }
{
    let mut index = IndexMap::new(alloc);
    for (place, name) in all.iter().enumerate() {
        note(alloc, &mut index, name.bytes(), place)?;
    }
    Ok(index)
}

impl Names {
    /// These names.
    ///
    /// # Errors
    /// `Memory` where the index can't be stored.
    pub fn new(alloc: Global, all: Vec<Name>) -> Result<Names, Memory>
        ensures { IfOk result (λ names. names ≡ all.items) }
    {
        let index = indexed_names(alloc, all.as_slice())?;
        Ok(Names { all, index })
    }

    /// Whether the name is one of them.
    pub fn contains(&self, name: &[u8]) -> bool
        ensures { result ≡ is_among self.now name.now }
    {
        self.index.contains_key(name)
    }
}
