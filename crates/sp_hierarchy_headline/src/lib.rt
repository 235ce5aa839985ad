//! What lines that begin with ACCEPTED mean in a report of `hierarchy`, by its bytes.
#![tactic(auto)]

ghost use Rattle.sp_hierarchy_headline.specs.Laws.{HierarchyLinesLaw, HierarchyRefusesLaw, MappingLinesLaw, MappingRowsLaw};

use sp_hierarchy_command::{came_law, hides_law, secure_law};

/// Where ACCEPTED stands under the heading of an interface, that interface is secure. It does nothing: its clause is the
/// law.
pub fn hierarchy_lines_law()
    ensures { HierarchyLinesLaw }
{
    came_law();
    secure_law();
}

/// Where ACCEPTED stands under the heading of a mapping, and under that of its lower interface, the mapping hides all that
/// is above. It does nothing: its clause is the law.
pub fn mapping_lines_law()
    ensures { MappingLinesLaw }
{
    came_law();
    hides_law();
}

/// A mapping under whose heading ACCEPTED stands is that of a row, and each row with a mapping of that name has the same two
/// interfaces. It does nothing: its clause is the law.
pub fn mapping_rows_law()
    ensures { MappingRowsLaw }
{
    came_law();
}

/// Each refusal of `hierarchy` tells names without line feeds, where its word holds none. It does nothing: its clause is the
/// law.
pub fn hierarchy_refusals_law()
    ensures { HierarchyRefusesLaw }
{}
