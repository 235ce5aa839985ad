//! The trees of specifications, interfaces, hierarchies, mappings, instances and scripts, as they stand in their texts,
//! with the places of their parts.
#![tactic(auto)]

mod effect;
mod expr;
mod instance;
mod interface;
mod module;
mod names;

pub use effect::EffectTree;
pub use expr::{BinOp, ExprNode, ExprTree};
pub use instance::{InstanceTree, ScriptTree, TableTree, ValueNode, ValueTree};
pub use interface::{Equation, HierarchyTree, InterfaceTree, LatticeTree, MappingTree};
pub use module::{Body, FunDecl, Header, Module, TypeDecl};
pub use names::{FormalTree, Ident, TypeTree};
