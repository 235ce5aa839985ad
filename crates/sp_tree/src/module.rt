use crate::{EffectTree, ExprTree, FormalTree, Ident, TypeTree};
use sp_text::Sequence;

/// The head of a declaration: its name and formals, the type of its value and the name of its result, where it has them.
#[derive(Debug, Drop)]
pub struct Header {
    pub name: Ident,
    pub formals: Sequence<FormalTree>,
    pub ty: Option<TypeTree>,
    pub result: Option<Ident>,
}

/// What a function does: its first value, the value it is derived as, or its effects.
#[derive(Debug, Drop)]
pub enum Body {
    Initially(ExprTree),
    Derivation(ExprTree),
    Effects(Sequence<EffectTree>),
}

/// The declaration of a function, with its exceptions by name.
#[derive(Debug, Drop)]
pub struct FunDecl {
    pub head: Header,
    pub hidden: bool,
    pub exceptions: Sequence<(Ident, ExprTree)>,
    pub body: Body,
}

/// The declaration of a type: an enumeration of its members, or, without members, a designator type.
#[derive(Debug, Drop)]
pub struct TypeDecl {
    pub name: Ident,
    pub members: Option<Sequence<Ident>>,
}

/// A module.
#[derive(Debug, Drop)]
pub struct Module {
    pub name: Ident,
    pub types: Sequence<TypeDecl>,
    pub parameters: Sequence<Header>,
    pub definitions: Sequence<(Header, ExprTree)>,
    /// The names taken from other modules, each list with its module.
    pub externals: Sequence<(Ident, Sequence<Ident>)>,
    pub assertions: Sequence<ExprTree>,
    pub functions: Sequence<FunDecl>,
}
