//! Laws of the definitions, each on a function that does nothing.

ghost use Rattle.sp_eval.specs.Laws.{OverlayLaw, OverlayStateLaw, ProperLaw};

/// The proper values of a type are, in order, those of the numbers below its population.
pub fn proper_law()
    ensures { ProperLaw }
{}

/// Entries that stand before others are laid over these.
pub fn overlay_law()
    ensures { OverlayLaw }
{}

/// Entries of a machine laid over a state of it are a state of it.
pub fn overlay_state_law()
    ensures { OverlayStateLaw }
{}
