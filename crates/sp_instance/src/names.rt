//! Lists of names with an index.

ghost use Rattle.std.specs.Prelude.{◌≡◌, [], ◌∷◌, ◌++◌, ℕ, List, length, map, IfOk, OnOk};
ghost use Rattle.sp_naming.specs.Names.{at_name, is_among, IsIndex};
ghost use Rattle.sp_instance.specs.Words.{place_of};

use indexmap::IndexMap;
use sp_core::{Function, Param, TypeInfo};
use sp_text::{Memory, Name};
use sp_tree::Ident;
use std::alloc::Global;
use std::marker::Model;

// The names of a list, each with its first place.
type Index = IndexMap<Vec<u8>, usize>;

/// Names in order, which contracts see as their list. A name is looked up in constant time.
#[derive(Drop)]
pub struct NameList {
    all: Vec<Name>,
    index: Index,
}

impl Model for NameList {
    ghost use Rattle.std.specs.Prelude.{List, ℕ};
    ghost use Rattle.sp_naming.specs.Names.{at_name, IsIndex};

    ghost Value = { List (List ℕ) };

    ghost view = { λ n. n.all.items };

    ghost invariant = { λ n. IsIndex n.all.items (at_name n.index) };
}

// Adds the name that stands next in the list.
fn note(alloc: Global, index: &mut Index, name: &[u8], place: usize) -> Result<(), Memory>
    ensures { (before : List (List ℕ)) → IsIndex before (at_name index.old) → place ≡ length before
        → OnOk result (IsIndex (before ++ name.now ∷ []) (at_name index.new)) }
{
    if index.contains_key(name) {
        return Ok(());
    }
    let key = name.to_vec(alloc)?;
    match index.insert(key, place) {
        Ok(_) => Ok(()),
        Err(_) => Err(Memory),
    }
}

fn indexed(alloc: Global, all: &[Name]) -> Result<Index, Memory>
    ensures { IfOk result (λ index. IsIndex all.now (at_name index)) }
{
    let mut index = IndexMap::new(alloc);
    for (place, name) in all.iter().enumerate() {
        note(alloc, &mut index, name.bytes(), place)?;
    }
    Ok(index)
}

impl NameList {
    /// These names.
    ///
    /// # Errors
    /// `Memory` where the index can't be stored.
    pub fn new(alloc: Global, all: Vec<Name>) -> Result<NameList, Memory>
        ensures { IfOk result (λ names. names ≡ all.items) }
    {
        let index = indexed(alloc, all.as_slice())?;
        Ok(NameList { all, index })
    }

    /// The first place of a name. It takes no memory.
    pub fn place(&self, name: &[u8]) -> Option<usize>
        ensures { result ≡ place_of self.now name.now }
    {
        self.index.get(name).copied()
    }

    /// Whether the name is one of them.
    pub fn contains(&self, name: &[u8]) -> bool
        ensures { result ≡ is_among self.now name.now }
    {
        self.index.contains_key(name)
    }
}

/// What has a name.
pub trait Named {
    ghost use Rattle.std.specs.Prelude.{List, ℕ};

    ghost name_of: { Self → List ℕ };

    /// Its name.
    fn name(&self) -> &Name
        ensures { result.now ≡ name_of self.now };
}

impl Named for Name {
    ghost name_of = { λ n. n };

    fn name(&self) -> &Name {
        self
    }
}

impl Named for Ident {
    ghost name_of = { λ x. x.name };

    fn name(&self) -> &Name {
        &self.name
    }
}

impl Named for TypeInfo {
    ghost name_of = { λ i. i.name };

    fn name(&self) -> &Name {
        &self.name
    }
}

impl Named for Param {
    ghost name_of = { λ q. q.name };

    fn name(&self) -> &Name {
        &self.name
    }
}

impl Named for Function {
    ghost name_of = { λ f. f.name };

    fn name(&self) -> &Name {
        &self.name
    }
}

/// Adds the names of the items.
///
/// # Errors
/// `Memory` where they can't be copied.
pub fn push_names<T: Named>(alloc: Global, names: &mut Vec<Name>, items: &[T]) -> Result<(), Memory>
    ensures { OnOk result (names.new.items ≡ names.old.items ++ map T.name_of items.now) }
{
    for item in items {
        names.push(Name::new(alloc, item.name().bytes())?)?;
    }
    Ok(())
}

/// The names of the items.
///
/// # Errors
/// `Memory` where they can't be stored.
pub fn list_names<T: Named>(alloc: Global, items: &[T]) -> Result<NameList, Memory>
    ensures { IfOk result (λ names. names ≡ map T.name_of items.now) }
{
    let mut names = Vec::new(alloc);
    push_names(alloc, &mut names, items)?;
    NameList::new(alloc, names)
}
