//! Laws of what is broken, as calls that do nothing.

ghost use Rattle.sp_ordered.specs.Laws.{BrokenLaw, OrderLaw};

/// What the order of the levels breaks is one list.
pub fn order_law()
    ensures { OrderLaw }
{}

/// What an interface and its modules break is one list.
pub fn broken_law()
    ensures { BrokenLaw }
{}
