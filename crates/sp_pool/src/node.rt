ghost use Rattle.std.specs.Prelude.{◌≡◌};
ghost use Rattle.sp_pool.specs.Nodes.{truth_node};

use sp_values::{Op, Value};

/// A term's number in its pool.
#[derive(Clone, Copy, Debug, PartialEq, Eq)]
pub struct TermId(pub u16);

/// A pool's length at some time, to which it can go back.
#[derive(Clone, Copy, Debug, PartialEq, Eq)]
pub struct Mark(pub u16);

/// The pool holds as many terms as it can, and the asked one is none of them.
#[derive(Clone, Copy, Debug, PartialEq, Eq)]
pub struct Full;

/// What stands at the top of a term.
#[derive(Clone, Copy, Debug, PartialEq, Eq)]
pub enum Head {
    Const(Value),
    /// A variable, by its number.
    Var(u16),
    Not,
    Two(Op),
    If,
    /// A parameter, by its number, at the arguments.
    Param(u16),
    /// A V-function, by its number, at the arguments, in the old state.
    Look(u16),
    /// The same in the new state.
    New(u16),
    /// A quantified expression, by its number.
    Quant(u16),
}

/// A term's head with the numbers of its `count` arguments; the other places are `TermId(0)`.
#[derive(Clone, Copy, Debug, PartialEq, Eq)]
pub struct Node {
    pub head: Head,
    pub count: u8,
    pub args: [TermId; 8],
}

/// The node of a truth value.
pub fn truth(value: bool) -> Node
    ensures { result ≡ truth_node value }
{
    Node {
        head: Head::Const(Value::Truth(value)),
        count: 0,
        args: [TermId(0); 8],
    }
}
