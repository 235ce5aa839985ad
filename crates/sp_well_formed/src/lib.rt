//! Specifications of texts that break nothing are well-formed.
#![tactic(auto)]

ghost use Rattle.sp_well_formed.specs.Laws.{SeenLaw, WellFormedLaw};

use sp_scopes::{found_are_lent, lent_are_found};

/// What an interface and its modules mean is well-formed, where they break nothing.
pub fn well_formed_law()
    ensures { WellFormedLaw }
{
    found_are_lent();
    lent_are_found();
}

/// What modules and the interface see is that of the specification's signature, where they break nothing.
pub fn seen_law()
    ensures { SeenLaw }
{
    found_are_lent();
}
