//! What the order of new values is.

ghost use Rattle.sp_cycles.specs.Laws.{ChainLaw, CycleLaw};

/// The order's test tells whether there is a chain, of any length.
pub fn chain_law()
    ensures { ChainLaw }
{}

/// No quoted reference closes a cycle exactly where no chain leads from a function back to itself.
pub fn cycle_law()
    ensures { CycleLaw }
{}
