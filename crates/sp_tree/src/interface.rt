use crate::{ExprTree, Ident};
use sp_text::{Sequence, Span};

/// What stands for the name with these formals: a function's level, or a mapping's row.
#[derive(Debug, Drop)]
pub struct Equation {
    pub name: Ident,
    pub formals: Sequence<Ident>,
    pub value: ExprTree,
}

/// The levels and their order. A span is that of the first keyword.
#[derive(Debug, Drop)]
pub enum LatticeTree {
    /// The levels, and the chains of them that ORDER lists.
    Order(Span, Sequence<Ident>, Sequence<Sequence<Ident>>),
    /// The chain and the categories of a product.
    Product(Span, Sequence<Ident>, Sequence<Ident>),
}

/// An interface: its modules, its lattice, the levels of its functions and the name of its sample instance.
#[derive(Debug, Drop)]
pub struct InterfaceTree {
    pub name: Ident,
    pub modules: Sequence<Ident>,
    pub lattice: LatticeTree,
    pub levels: Sequence<Equation>,
    pub sample: Ident,
}

/// A hierarchy: rows of an upper interface, a lower one and the mapping between them.
#[derive(Debug, Drop)]
pub struct HierarchyTree {
    pub name: Ident,
    pub rows: Sequence<(Ident, Ident, Ident)>,
}

/// A mapping of an upper interface to a lower one.
#[derive(Debug, Drop)]
pub struct MappingTree {
    pub name: Ident,
    pub upper: Ident,
    pub lower: Ident,
    /// Each upper type with its lower type.
    pub types: Sequence<(Ident, Ident)>,
    pub parameters: Sequence<Equation>,
    pub functions: Sequence<Equation>,
}
