use crate::expr::Expr;
use sp_text::{Name, Sequence};
use sp_values::{Ty, Value};
use sqlite_items::Items;

/// What a function does where no exception is true. Conditions are evaluated in the old state. The arguments and the value
/// of a change, and the value of a result, may read new values too.
#[derive(Debug, Drop)]
pub enum Effect {
    /// The primitive V-function, by its number, has at these arguments this new value.
    Change(u16, Items<Expr>, Expr),
    /// The result of an OV-function.
    Answer(Expr),
    /// The first effects where the condition is TRUE, else the second.
    If(Expr, Items<Effect>, Items<Effect>),
    /// The effects for each proper value of the type, put as the k-th after the first k values.
    Every(u32, Ty, Items<Effect>),
}

/// What sort of function it is.
#[derive(Debug, Drop)]
pub enum Kind {
    /// A V-function of the state: its type and its initial value.
    Primitive(Ty, Expr),
    /// A V-function that is computed: its type and its derivation.
    Derived(Ty, Expr),
    /// An O-function: its effects.
    Operation(Items<Effect>),
    /// An OV-function: the type of its result and its effects.
    Both(Ty, Items<Effect>),
}

/// A variable with its type.
#[derive(Debug, Drop)]
pub struct Formal {
    pub name: Name,
    pub ty: Ty,
}

/// A function of a specification.
#[derive(Debug, Drop)]
pub struct Function {
    pub name: Name,
    /// Whether it can be called from outside.
    pub visible: bool,
    pub formals: Sequence<Formal>,
    /// The exceptions in order, each with its name and condition.
    pub exceptions: Sequence<(Name, Expr)>,
    pub kind: Kind,
    /// Its level, over its formals and the parameters.
    pub level: Expr,
}

/// A declared type: an enumeration with its members, or a designator type, whose members an instance gives.
#[derive(Debug, Drop)]
pub struct TypeInfo {
    pub name: Name,
    pub members: Option<Sequence<Name>>,
}

/// A parameter, whose values an instance gives.
#[derive(Debug, Drop)]
pub struct Param {
    pub name: Name,
    pub formals: Sequence<Formal>,
    pub ty: Ty,
}

/// An assertion on instances: its body is TRUE for all proper values of its variables.
#[derive(Debug, Drop)]
pub struct Assertion {
    pub vars: Sequence<Formal>,
    pub body: Expr,
}

/// What an invocation answers.
#[derive(Clone, Copy, Debug, PartialEq, Eq)]
pub enum Answer {
    /// The function's exception of this number, from 0, is the first true one.
    Exception(u16),
    Done,
    Value(Value),
}
