//! Laws of the definitions, each on a function that does nothing.

ghost use Rattle.sp_stepping.specs.Laws.{ConflictFaultLaw, FaultLaw, OneFaultLaw};

use sp_listing::{clash_law, count_law, order_law};

/// An invocation that has a step in memory has no fault but want of memory.
pub fn fault_law()
    ensures { FaultLaw }
{
    order_law();
    clash_law();
    count_law();
}

/// Besides want of memory an invocation has one fault at most.
pub fn one_fault_law()
    ensures { OneFaultLaw }
{
    order_law();
    clash_law();
    count_law();
}

/// An invocation that is refused for a conflict meets one, so it has no step.
pub fn conflict_fault_law()
    ensures { ConflictFaultLaw }
{
    order_law();
    clash_law();
    count_law();
}
