//! How evaluation looks up the entries of a state, which needn't be written in one.

ghost use Rattle.std.specs.Prelude.{◌≡◌};

use sp_core::State;
use sp_values::{Place, Value};

/// The entries of a state, of which contracts see a list; the first one of a place is that of the place.
pub trait Entries {
    ghost use Rattle.std.specs.Prelude.{List};
    ghost use Rattle.sp_core.specs.declared.state.Entry.{Entry};
    ghost use Rattle.sp_core.specs.States.{entry_of};

    ghost entries: { Self → List Entry };

    /// The value of the place's entry, if it has one.
    fn find(&self, place: &Place) -> Option<Value>
        ensures { result ≡ entry_of (entries self.now) place.now.fun place.now.args };
}

impl Entries for State {
    ghost entries = { λ s. s.entries };

    fn find(&self, place: &Place) -> Option<Value> {
        self.at(place)
    }
}

/// The initial state, which has no entry.
#[derive(Clone, Copy)]
pub struct InitialState;

impl Entries for InitialState {
    ghost use Rattle.std.specs.Prelude.{[]};

    ghost entries = { λ _. [] };

    fn find(&self, _place: &Place) -> Option<Value> {
        None
    }
}

/// Changes laid over a state: a place that they name has the value that they give it, and each other place the entry of
/// the state.
#[derive(Drop)]
pub struct Overlay<'a, D, S> {
    pub changes: &'a D,
    pub state: &'a S,
}

impl<'a, D: Entries, S: Entries> Entries for Overlay<'a, D, S> {
    ghost use Rattle.std.specs.Prelude.{◌++◌};

    ghost entries = { λ o. D.entries o.changes.now ++ S.entries o.state.now };

    fn find(&self, place: &Place) -> Option<Value> {
        match self.changes.find(place) {
            Some(value) => Some(value),
            None => self.state.find(place),
        }
    }
}
