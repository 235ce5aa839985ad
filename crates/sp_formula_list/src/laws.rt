//! What holds of listing formulas.

ghost use Rattle.sp_formula_list.specs.Laws.{ListedLaw, ListingLaw};

/// Listing any formulas comes to one outcome at most, and its refusals say nothing of files. It does nothing: its clause is
/// the law.
pub fn listing_law()
    ensures { ListingLaw }
{}

/// So does listing those of a specification. It does nothing: its clause is the law.
pub fn listed_law()
    ensures { ListedLaw }
{}
