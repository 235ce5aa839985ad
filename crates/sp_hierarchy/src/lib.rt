//! Hierarchies: interfaces and the mappings between them, read and judged.
#![tactic(auto)]

mod judging;
mod laws;
mod mappings;
mod members;
mod texts;

pub use judging::{Hierarchy, judge_hierarchy};
pub use laws::{hierarchy_judged_law, hierarchy_read_law, rows_are_read_law};
pub use mappings::Mapped;
pub use members::Member;
pub use texts::{HierarchyTexts, NamedSystem, RowMapping, load_hierarchy};
