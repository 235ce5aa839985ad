//! What of a mapping's text breaks nothing is a mapping.
#![tactic(auto)]

ghost use Rattle.sp_mapping_laws.specs.Laws.{MappingLaw};

use sp_scopes::{found_are_lent, lent_are_found};
use sp_well_formed::seen_law;

/// The text of a mapping that breaks nothing stands for a mapping to the lower specification, and from the upper one.
pub fn mapping_law()
    ensures { MappingLaw }
{
    found_are_lent();
    lent_are_found();
    seen_law();
}
