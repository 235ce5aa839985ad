//! Laws of the definitions, as calls that do nothing.

ghost use Rattle.sp_pool.specs.Trees.{FrontKeepsTrees, LongerKeepsTrees, OneNumber, OneTree};

/// A held number stands for one tree.
pub fn one_tree()
    ensures { OneTree }
{}

/// Equal trees have one number.
pub fn one_number()
    ensures { OneNumber }
{}

/// Numbers keep their trees where nodes come behind a pool's.
pub fn longer_keeps_trees()
    ensures { LongerKeepsTrees }
{}

/// Numbers keep their trees where a pool's last nodes are given up.
pub fn front_keeps_trees()
    ensures { FrontKeepsTrees }
{}
