//! Laws of mappings, each on a function that does nothing.

ghost use Rattle.sp_map_laws.specs.Laws.{ClosedViewsLaw, ViewsLaw};

/// Where the flow formulas of a specification and of a mapping to it hold, its views hide what is above.
pub fn views_law()
    ensures { ViewsLaw }
{}

/// The same where none of the formulas has an open branch.
pub fn closed_views_law()
    ensures { ClosedViewsLaw }
{}
