use sp_text::{Name, Span};

/// What a name stands for, with its number among those of its sort in the order of their declaration; of a member, the number
/// of its type and its own in it.
#[derive(Clone, Copy, Debug, PartialEq, Eq)]
pub enum Entity {
    Declared(u16),
    Member(u16, u16),
    Param(u16),
    Definition(u16),
    Function(u16),
    Level(u16),
}

/// A name that is declared.
#[derive(Debug, Drop)]
pub struct Declaration {
    /// The file that declares it: 0 for the interface, then the modules in their order.
    pub file: u16,
    pub name: Name,
    /// Where the name stands; of a product's level, where its chain element does.
    pub span: Span,
    pub entity: Entity,
    /// The name of a member's type.
    pub owner: Option<Name>,
}
