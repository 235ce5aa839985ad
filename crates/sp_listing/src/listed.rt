ghost use Rattle.std.specs.Prelude.{◌≡◌, ◌<◌, [], IfErr, IfOk, OnOk, length, slice_get, Some};
ghost use Rattle.sp_core.specs.States.{AreApart, entry_of, put_at};
ghost use Rattle.sp_eval.specs.Overlays.{overlay};
ghost use Rattle.sp_listing.specs.Listing.{AreAlike, IsAdded, IsClash, IsListFault};

use indexmap::IndexMap;
use sp_core::Entry;
use sp_eval::Entries;
use sp_text::Memory;
use sp_values::{Args, Place, Value};
use std::alloc::Global;
use std::marker::Model;

/// Why changes can't be listed.
#[derive(Drop)]
pub enum ListFault {
    /// A change gives a place of an earlier one another value; the place, and the two values in order.
    Conflict(Place, Value, Value),
    Memory,
}

/// The places that changes name with their values, in the order in which they are first named.
#[derive(Drop)]
pub struct Listed {
    places: IndexMap<Place, Value>,
}

impl Model for Listed {
    ghost use Rattle.std.specs.Prelude.{List};
    ghost use Rattle.std.specs.Coded.{codes};
    ghost use Rattle.sp_core.specs.declared.state.Entry.{Entry as OneEntry};
    ghost use Rattle.sp_core.specs.States.{entries_from};

    ghost Value = { List OneEntry };

    ghost coded = { Prim.hlevel codes };

    ghost view = { λ s. entries_from s.places.entries };
}

impl Entries for Listed {
    ghost entries = { λ s. s };

    fn find(&self, place: &Place) -> Option<Value> {
        self.places.get(place).copied()
    }
}

fn copied(place: &Place) -> Place
    ensures { result ≡ place.now }
{
    Place {
        fun: place.fun,
        args: Args::new(place.args.values()),
    }
}

impl Listed {
    /// No changes.
    pub fn new(alloc: Global) -> Listed
        ensures { result ≡ [] }
    {
        Listed {
            places: IndexMap::new(alloc),
        }
    }

    /// How many places are named.
    pub fn len(&self) -> usize
        ensures count { result ≡ length self.now }
        ensures apart { AreApart self.now }
    {
        self.places.len()
    }

    /// The entry of this number.
    pub fn entry(&self, index: usize) -> (&Place, Value)
        requires { index < length self.now }
        ensures { slice_get self.now index ≡ Some (record { place = result.0.now; value = result.1 }) }
    {
        let Some((place, value)) = self.places.get_index(index) else {
            unreachable!()
        };
        (place, *value)
    }

    // Lists that the place has this value.
    fn add(&mut self, p: Place, value: Value) -> Result<(), ListFault>
        ensures ok { OnOk result (IsAdded self.old p value self.new) }
        ensures clash { IfErr result (IsClash self.old p value) }
    {
        if let Some(first) = self.places.get(&p).copied() {
            if first != value {
                return Err(ListFault::Conflict(p, first, value));
            }
            return Ok(());
        }
        let Ok(_) = self.places.insert(p, value) else {
            return Err(ListFault::Memory);
        };
        Ok(())
    }

    // Gives the place this value, whatever it had.
    fn set(&mut self, p: &Place, value: Value) -> Result<(), Memory>
        ensures { OnOk result (entry_of self.new ≡ put_at p.now.fun p.now.args value (entry_of self.old)) }
    {
        let Ok(_) = self.places.insert(copied(p), value) else {
            return Err(Memory);
        };
        Ok(())
    }

    /// These changes with later ones laid over them.
    ///
    /// # Errors
    /// `Memory` where there is no room for them.
    pub fn lay(self, over: Listed) -> Result<Listed, Memory>
        ensures { IfOk result (λ both. entry_of both ≡ overlay (entry_of over) (entry_of self)) }
    {
        let mut both = self;
        for index in 0..over.len() {
            let (place, value) = over.entry(index);
            both.set(place, value)?;
        }
        Ok(both)
    }
}

/// Lists these changes in order.
///
/// # Errors
/// `Conflict` with the first place that a change gives another value than an earlier one does.
pub fn list_all(alloc: Global, changes: &[Entry]) -> Result<Listed, ListFault>
    ensures alike { IfOk result (λ listed. AreAlike changes.now) }
    ensures same { IfOk result (λ listed. entry_of listed ≡ entry_of changes.now) }
    ensures conflict { IfErr result (IsListFault changes.now) }
{
    let mut listed = Listed::new(alloc);
    for change in changes {
        match listed.add(copied(&change.place), change.value) {
            Ok(()) => {}
            Err(fault) => return Err(fault),
        }
    }
    Ok(listed)
}
