ghost use Rattle.std.specs.Prelude.{◌≡◌, ◌≤◌, ◌+◌, length, is_some, if◌then◌else◌};
ghost use Rattle.sp_text.specs.declared.limits.TheConstants.{MOST_CHANGED_PLACES};
ghost use Rattle.sp_core.specs.States.{AreApart, entry_of};
ghost use Rattle.sp_eval.specs.Overlays.{overlay};
ghost use Rattle.sp_listing.specs.Listing as listing;

use crate::listed::Listed;
use sp_core::State;
use sp_values::Place;

fn missing(place: &Place, state: &State) -> u64
    ensures { result ≡ (if is_some (entry_of state.now.entries place.now.fun place.now.args) then 0 else 1) }
{
    if state.at(place).is_some() { 0 } else { 1 }
}

/// How many of the listed places have no entry in the state.
pub fn fresh(listed: &Listed, state: &State) -> u64
    ensures value { result ≡ listing.fresh listed.now (entry_of state.now.entries) }
    ensures few { result ≤ length listed.now }
    ensures apart { AreApart listed.now }
{
    let mut count: u64 = 0;
    for index in 0..listed.len() {
        let (place, _) = listed.entry(index);
        count += missing(place, state);
    }
    count
}

/// Gives the listed places their values. It takes no memory.
pub fn write(listed: &Listed, state: &mut State)
    requires room { length listed.now ≤ state.old.spare }
    requires few { length state.old.entries + listing.fresh listed.now (entry_of state.old.entries) ≤ MOST_CHANGED_PLACES }
    ensures entries { entry_of state.new.entries ≡ overlay (entry_of listed.now) (entry_of state.old.entries) }
    ensures count { length state.new.entries ≡ length state.old.entries + listing.fresh listed.now (entry_of state.old.entries) }
{
    for index in 0..listed.len() {
        let (place, value) = listed.entry(index);
        state.put(place, value);
    }
}
