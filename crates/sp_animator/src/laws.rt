//! Laws of the definitions, each on a function that does nothing.

ghost use Rattle.sp_animator.specs.Laws.{CompareFaultLaw, MemoryRunLaw, RunFaultLaw};

use sp_stepping::fault_law;

/// A run in memory is a run of the machine.
pub fn memory_run_law()
    ensures { MemoryRunLaw }
{}

/// A list that has a run in memory breaks off for want of memory alone.
pub fn run_fault_law()
    ensures { RunFaultLaw }
{
    fault_law();
}

/// Where both runs end, their comparison is refused for want of memory alone.
pub fn compare_fault_law()
    ensures { CompareFaultLaw }
{
    fault_law();
}
