use crate::{ExprTree, FormalTree};
use sp_text::{Sequence, Span};
use sqlite_items::Items;

/// An effect of an operation. A span is that of its first keyword.
#[derive(Debug, Drop)]
pub enum EffectTree {
    /// A change or a result, written as an expression.
    Plain(ExprTree),
    /// The condition, the effects after THEN and those after ELSE.
    If(Span, ExprTree, Items<EffectTree>, Items<EffectTree>),
    /// The bound variables and the effects below them.
    Forall(Span, Sequence<FormalTree>, Items<EffectTree>),
}
