//! Laws of the definitions, each on a function that does nothing.

ghost use Rattle.sp_listing.specs.Laws.{ChangedLaw, ClashLaw, CountLaw, EntriesLaw, OrderLaw};

/// The true entries in order are those of the true changes.
pub fn order_law()
    ensures { OrderLaw }
{}

/// Without a conflict among them, their map over the base is the state after the changes.
pub fn changed_law()
    ensures { ChangedLaw }
{}

/// A first conflict among them is one of two true changes.
pub fn clash_law()
    ensures { ClashLaw }
{}

/// Entries laid over a state make as many more as are of places that have none.
pub fn entries_law()
    ensures { EntriesLaw }
{}

/// A state has one number of entries.
pub fn count_law()
    ensures { CountLaw }
{}
