use crate::fault::Span;
use crate::name::Name;

/// A word that is no name; each variant is spelled in capitals, with `_` before a second part.
#[derive(Clone, Copy, Debug, PartialEq, Eq)]
pub enum Keyword {
    Module,
    EndModule,
    Types,
    Parameters,
    Definitions,
    ExternalRefs,
    Assertions,
    Functions,
    Designator,
    Boolean,
    Integer,
    Level,
    From,
    Is,
    Vfun,
    Ofun,
    Ovfun,
    Hidden,
    Exceptions,
    Initially,
    Derivation,
    Effects,
    If,
    Then,
    Else,
    EndIf,
    Forall,
    EndForall,
    Exists,
    EndExists,
    Not,
    And,
    Or,
    Implies,
    Iff,
    Lub,
    Glb,
    True,
    False,
    Bottom,
    Top,
    Interface,
    EndInterface,
    Modules,
    Lattice,
    Order,
    Chain,
    Categories,
    Sample,
    Instance,
    EndInstance,
    Population,
    Parameter,
    Otherwise,
    Hierarchy,
    EndHierarchy,
    Over,
    By,
    Mapping,
    EndMapping,
    To,
}

/// A mark of punctuation or an operator.
#[derive(Clone, Copy, Debug, PartialEq, Eq)]
pub enum Symbol {
    /// `(`
    LeftParenthesis,
    /// `)`
    RightParenthesis,
    /// `{`
    LeftBrace,
    /// `}`
    RightBrace,
    /// `,`
    Comma,
    /// `;`
    Semicolon,
    /// `:`
    Colon,
    /// `=`
    Equal,
    /// `~=`
    NotEqual,
    /// `<`
    Less,
    /// `<=`
    LessOrEqual,
    /// `>`
    Greater,
    /// `>=`
    GreaterOrEqual,
    /// `+`
    Plus,
    /// `-`
    Minus,
    /// `*`
    Star,
    /// `->`
    Arrow,
    /// `'`
    Quote,
    /// `?`
    Question,
}

/// What a token is.
#[derive(Debug, Drop, PartialEq, Eq)]
pub enum TokenKind {
    Word(Keyword),
    Name(Name),
    /// A number without a sign, so it isn't negative where a text was read.
    Number(i64),
    Symbol(Symbol),
}

/// A token of a text, with its place.
#[derive(Debug, Drop, PartialEq, Eq)]
pub struct Token {
    pub kind: TokenKind,
    pub span: Span,
}
