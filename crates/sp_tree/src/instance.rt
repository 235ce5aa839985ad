use crate::Ident;
use sp_text::{Name, Sequence, Span};

/// The form of a value.
#[derive(Debug, Drop, PartialEq, Eq)]
pub enum ValueNode {
    /// `?`
    Unknown,
    /// A number with its sign.
    Int(i64),
    Truth(bool),
    Bottom,
    Top,
    Name(Name),
}

/// A value and its place.
#[derive(Debug, Drop, PartialEq, Eq)]
pub struct ValueTree {
    pub span: Span,
    pub node: ValueNode,
}

/// A parameter's table: rows of arguments and their value, and the value of all other arguments.
#[derive(Debug, Drop)]
pub struct TableTree {
    pub name: Ident,
    pub rows: Sequence<(Sequence<ValueTree>, ValueTree)>,
    pub other: ValueTree,
}

/// An instance: the populations of the designator types and the tables of the parameters.
#[derive(Debug, Drop)]
pub struct InstanceTree {
    pub name: Ident,
    pub populations: Sequence<(Ident, Sequence<Ident>)>,
    pub tables: Sequence<TableTree>,
}

/// A script: calls of functions with their values.
#[derive(Debug, Drop)]
pub struct ScriptTree {
    pub calls: Sequence<(Ident, Sequence<ValueTree>)>,
}
