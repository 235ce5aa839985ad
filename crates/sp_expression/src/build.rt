ghost use Rattle.std.specs.Prelude.{◌≡◌, ◌<◌, ◌≤◌, length, IfOk, Some};
ghost use Rattle.sp_tree.specs.declared.expr.ExprNode.TheVariants as node;
ghost use Rattle.sp_grammar.specs.Codes.{code_at};
ghost use Rattle.sp_expression.specs.Grammar.{binary_tree, tree as spanned};

use crate::level::operator_at;
use crate::tokens::span;
use sp_text::Token;
use sp_tree::{ExprNode, ExprTree, FormalTree};
use sqlite_items::Boxed;
use std::alloc::{AllocError, Global};

/// The node with the span of the tokens from `from` up to the one before `to`.
pub fn tree(tokens: &[Token], from: usize, to: usize, node: ExprNode) -> ExprTree
    requires before { from < to }
    requires within { to ≤ length tokens.now }
    ensures { result ≡ spanned tokens.now node from to }
{
    ExprTree {
        span: span(tokens, from, to),
        node,
    }
}

/// Both operands and the operator that stands at `between`.
pub fn binary(
    alloc: Global,
    tokens: &[Token],
    between: usize,
    left: ExprTree,
    right: ExprTree,
    from: usize,
    to: usize,
) -> Result<ExprTree, AllocError>
    requires before { from < to }
    requires within { to ≤ length tokens.now }
    ensures { IfOk result (λ t. t ≡ binary_tree tokens.now (code_at tokens.now between) left right from to) }
{
    let left = Boxed::new(alloc, left)?;
    let right = Boxed::new(alloc, right)?;
    let node = ExprNode::Binary(operator_at(tokens, between), left, right);
    Ok(tree(tokens, from, to, node))
}

/// NOT of an operand.
pub fn negate(alloc: Global, operand: ExprTree) -> Result<ExprNode, AllocError>
    ensures { IfOk result (λ n. n ≡ node.Not operand) }
{
    Ok(ExprNode::Not(Boxed::new(alloc, operand)?))
}

/// An expression in parentheses.
pub fn paren(alloc: Global, inner: ExprTree) -> Result<ExprNode, AllocError>
    ensures { IfOk result (λ n. n ≡ node.Paren inner) }
{
    Ok(ExprNode::Paren(Boxed::new(alloc, inner)?))
}

/// A condition and what counts by it.
pub fn choice(
    alloc: Global,
    condition: ExprTree,
    yes: ExprTree,
    no: ExprTree,
) -> Result<ExprNode, AllocError>
    ensures { IfOk result (λ n. n ≡ node.If condition yes no) }
{
    let condition = Boxed::new(alloc, condition)?;
    let yes = Boxed::new(alloc, yes)?;
    let no = Boxed::new(alloc, no)?;
    Ok(ExprNode::If(condition, yes, no))
}

/// LUB of two levels, or GLB.
pub fn join(
    alloc: Global,
    lub: bool,
    left: ExprTree,
    right: ExprTree,
) -> Result<ExprNode, AllocError>
    ensures { IfOk result (λ n. n ≡ node.Join lub left right) }
{
    let left = Boxed::new(alloc, left)?;
    let right = Boxed::new(alloc, right)?;
    Ok(ExprNode::Join(lub, left, right))
}

/// FORALL of a variable, or EXISTS.
pub fn quantified(
    alloc: Global,
    forall: bool,
    variable: FormalTree,
    body: ExprTree,
) -> Result<ExprNode, AllocError>
    ensures { IfOk result (λ n. n ≡ node.Quant forall variable body) }
{
    Ok(ExprNode::Quant(forall, variable, Boxed::new(alloc, body)?))
}
