ghost use Rattle.std.specs.Prelude.{◌≡◌, IfOk};

use crate::{FormalTree, Ident};
use sp_text::{Memory, Name, Span};
use sqlite_items::{Boxed, Items};
use std::alloc::Global;

/// A binary operator of expressions, from the loosest to the tightest.
#[derive(Clone, Copy, Debug, PartialEq, Eq)]
pub enum BinOp {
    Iff,
    Implies,
    Or,
    And,
    /// `=`
    Eq,
    /// `~=`
    Ne,
    /// `<`
    Lt,
    /// `<=`
    Le,
    /// `>`
    Gt,
    /// `>=`
    Ge,
    Add,
    Sub,
    Mul,
}

/// An expression and its place.
#[cycle(expr)]
#[derive(Debug, Drop)]
pub struct ExprTree {
    pub span: Span,
    pub node: ExprNode,
}

/// The form of an expression.
#[cycle(expr)]
#[derive(Debug, Drop)]
pub enum ExprNode {
    /// A name without arguments.
    Name(Name),
    /// A number with its sign.
    Number(i64),
    Truth(bool),
    /// `?`
    Unknown,
    Bottom,
    Top,
    /// A name with arguments.
    Call(Ident, Items<ExprTree>),
    /// A quoted name with arguments: the value after the operation.
    New(Ident, Items<ExprTree>),
    /// An expression in parentheses.
    Paren(Boxed<ExprTree>),
    Not(Boxed<ExprTree>),
    Binary(BinOp, Boxed<ExprTree>, Boxed<ExprTree>),
    /// LUB of two levels where the flag is true, else GLB.
    Join(bool, Boxed<ExprTree>, Boxed<ExprTree>),
    If(Boxed<ExprTree>, Boxed<ExprTree>, Boxed<ExprTree>),
    /// FORALL where the flag is true, else EXISTS.
    Quant(bool, FormalTree, Boxed<ExprTree>),
}

impl ExprTree {
    /// An equal expression at the same place.
    ///
    /// # Errors
    /// `Memory` where it can't be copied.
    #[cycle(copy)]
    pub fn copy(&self, alloc: Global) -> Result<ExprTree, Memory>
        ensures { IfOk result (λ e. e ≡ self.now) }
    {
        let node = copy_node(alloc, &self.node)?;
        Ok(ExprTree {
            span: self.span,
            node,
        })
    }
}

#[cycle(copy)]
fn copy_node(alloc: Global, node: &ExprNode) -> Result<ExprNode, Memory>
    ensures { IfOk result (λ n. n ≡ node.now) }
{
    Ok(match node {
        ExprNode::Name(x) => ExprNode::Name(Name::new(alloc, x.bytes())?),
        ExprNode::Number(n) => ExprNode::Number(*n),
        ExprNode::Truth(b) => ExprNode::Truth(*b),
        ExprNode::Unknown => ExprNode::Unknown,
        ExprNode::Bottom => ExprNode::Bottom,
        ExprNode::Top => ExprNode::Top,
        ExprNode::Call(f, args) => ExprNode::Call(f.copy(alloc)?, copy_all(alloc, args)?),
        ExprNode::New(f, args) => ExprNode::New(f.copy(alloc)?, copy_all(alloc, args)?),
        ExprNode::Paren(a) => ExprNode::Paren(copy_boxed(alloc, a)?),
        ExprNode::Not(a) => ExprNode::Not(copy_boxed(alloc, a)?),
        ExprNode::Binary(op, a, b) => {
            ExprNode::Binary(*op, copy_boxed(alloc, a)?, copy_boxed(alloc, b)?)
        }
        ExprNode::Join(lub, a, b) => {
            ExprNode::Join(*lub, copy_boxed(alloc, a)?, copy_boxed(alloc, b)?)
        }
        ExprNode::If(c, a, b) => ExprNode::If(
            copy_boxed(alloc, c)?,
            copy_boxed(alloc, a)?,
            copy_boxed(alloc, b)?,
        ),
        ExprNode::Quant(all, formal, a) => {
            ExprNode::Quant(*all, formal.copy(alloc)?, copy_boxed(alloc, a)?)
        }
    })
}

#[cycle(copy)]
fn copy_boxed(alloc: Global, e: &Boxed<ExprTree>) -> Result<Boxed<ExprTree>, Memory>
    ensures { IfOk result (λ b. b ≡ e.now) }
{
    Ok(Boxed::new(alloc, e.get().copy(alloc)?)?)
}

#[cycle(copy)]
fn copy_all(alloc: Global, parts: &Items<ExprTree>) -> Result<Items<ExprTree>, Memory>
    ensures { IfOk result (λ all. all ≡ parts.now) }
{
    let mut all = Items::new(alloc);
    for part in parts.as_slice() {
        all.push(part.copy(alloc)?)?;
    }
    Ok(all)
}
