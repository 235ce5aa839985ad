//! The plain trees of expressions of texts.
#![tactic(auto)]

ghost use Rattle.std.specs.Prelude.{◌≡◌};
ghost use Rattle.sp_plain.specs.Text.{span, text};

use sp_text::Span;
use sp_tree::{ExprNode, ExprTree};

/// The place of an expression.
pub fn span_of(e: &ExprTree) -> Span
    ensures { result ≡ span (text e.now) }
{
    // The proof goes by forms, so the code does.
    match &e.node {
        ExprNode::Paren(_) => e.span,
        _ => e.span,
    }
}
