use crate::texts::{span, tokens};
use sp_expression::parse_expr;
use sp_text::{Limit, Malformed, Quantity, Rule, TextFault};
use sp_tree::{BinOp, ExprNode, ExprTree};
use sqlite_items::Boxed;
use std::alloc::Global;
use std::process::Abort;
use std::test::Fail;

/// What the text reads as within the height, from its first token on, and how many tokens it is. It is boxed, since the
/// proof of whoever lets an expression itself go goes through all its forms.
fn read(alloc: Global, text: &[u8], budget: u32) -> Result<(Boxed<ExprTree>, usize), TextFault> {
    let tokens = tokens(alloc, text)?;
    let (tree, next) = parse_expr(alloc, &tokens, 0, text.len() as u32, budget)?;
    Ok((Boxed::new(alloc, tree)?, next))
}

/// How many tokens of the text are an expression, or its fault.
fn count(alloc: Global, text: &[u8], budget: u32) -> Result<usize, TextFault> {
    Ok(read(alloc, text, budget)?.1)
}

fn unexpected(start: u32, end: u32) -> Result<usize, TextFault> {
    let span = span(start, end);
    let rule = Rule::Unexpected;
    Err(TextFault::Malformed(Malformed { span, rule }))
}

fn too_high(start: u32, end: u32) -> Result<usize, TextFault> {
    let span = span(start, end);
    let quantity = Quantity::Height;
    Err(TextFault::Limit(Limit { span, quantity }))
}

// Asserts how many tokens of the text are an expression within the height, or its fault. The assertion stands here
// alone, since each costs the proof of a test much.
fn shows(
    rt: &impl Abort,
    alloc: Global,
    text: &[u8],
    budget: u32,
    counted: Result<usize, TextFault>,
) {
    assert_eq!(rt; count(alloc, text, budget), counted);
}

#[test]
fn a_comparison_does_not_chain(rt: HostRuntime) {
    shows(&rt, rt.alloc(), b"x <= y <= z", 64, Ok(3));
}

// Whether a name implies that a second name implies a third.
fn leans_right(tree: &ExprTree) -> bool {
    let ExprNode::Binary(BinOp::Implies, left, right) = &tree.node else {
        return false;
    };
    matches!(left.get().node, ExprNode::Name(_))
        && matches!(right.get().node, ExprNode::Binary(BinOp::Implies, _, _))
}

#[test]
fn an_implication_leans_to_the_right(rt: HostRuntime) -> Result<(), Fail> {
    let (tree, next) = read(rt.alloc(), b"a IMPLIES b IMPLIES c", 64)?;
    assert!(rt; next == 5 && leans_right(tree.get()));
    Ok(())
}

#[test]
fn not_is_looser_than_a_comparison(rt: HostRuntime) -> Result<(), Fail> {
    let (tree, next) = read(rt.alloc(), b"NOT x = y", 64)?;
    assert!(rt; next == 4 && matches!(tree.get().node, ExprNode::Not(_)));
    shows(&rt, rt.alloc(), b"x = NOT y", 64, unexpected(4, 7));
    Ok(())
}

#[test]
fn a_chain_leans_to_the_left(rt: HostRuntime) -> Result<(), Fail> {
    let (tree, next) = read(rt.alloc(), b"a - b + c", 64)?;
    assert!(rt; next == 5 && tree.get().span == span(0, 9));
    assert!(rt; matches!(tree.get().node, ExprNode::Binary(BinOp::Add, _, _)));
    Ok(())
}

// Whether an equality and its sides span so.
fn has_sides(tree: &ExprTree) -> bool {
    let ExprNode::Binary(BinOp::Eq, left, right) = &tree.node else {
        return false;
    };
    tree.span == span(0, 21)
        && left.get().span == span(0, 6)
        && right.get().span == span(9, 21)
        && has_bounded(right.get())
}

// Whether a LUB's levels span so.
fn has_bounded(tree: &ExprTree) -> bool {
    let ExprNode::Join(true, first, second) = &tree.node else {
        return false;
    };
    first.get().span == span(13, 17) && second.get().span == span(19, 20)
}

#[test]
fn a_tree_spans_its_tokens(rt: HostRuntime) -> Result<(), Fail> {
    let (tree, _) = read(rt.alloc(), b"'f(xy) = LUB((ab), c)", 64)?;
    assert!(rt; has_sides(tree.get()));
    Ok(())
}

#[test]
fn every_form_reads(rt: HostRuntime) {
    let text = b"IF a IFF b THEN FORALL BOOLEAN x: -1 = 'f(2, p) END_FORALL ELSE EXISTS t y:
        LUB(BOTTOM, GLB(TOP, l)) <= ? + 2 * (3) - q() OR TRUE END_EXISTS END_IF";
    shows(&rt, rt.alloc(), text, 64, Ok(52));
}

#[test]
fn parentheses_have_height(rt: HostRuntime) {
    let full =
        b"(((((((((((((((((((((((((((((((((((((((((((((((((((((((((((((((TRUE)))))))))))))))))))))))))))))))))))))))))))))))))))))))))))))))";
    shows(&rt, rt.alloc(), full, 64, Ok(127));
    let more =
        b"((((((((((((((((((((((((((((((((((((((((((((((((((((((((((((((((TRUE))))))))))))))))))))))))))))))))))))))))))))))))))))))))))))))))";
    shows(&rt, rt.alloc(), more, 64, too_high(63, 64));
}

#[test]
fn operators_have_height(rt: HostRuntime) {
    let full = b"a AND a AND a AND a AND a AND a AND a AND a AND a AND a AND a AND a AND a AND a \
        AND a AND a AND a AND a AND a AND a AND a AND a AND a AND a AND a AND a AND a AN\
        D a AND a AND a AND a AND a AND a AND a AND a AND a AND a AND a AND a AND a AND \
        a AND a AND a AND a AND a AND a AND a AND a AND a AND a AND a AND a AND a AND a \
        AND a AND a AND a AND a AND a AND a AND a AND a AND a AND a";
    shows(&rt, rt.alloc(), full, 64, Ok(127));
    let more = b"a AND a AND a AND a AND a AND a AND a AND a AND a AND a AND a AND a AND a AND a \
        AND a AND a AND a AND a AND a AND a AND a AND a AND a AND a AND a AND a AND a AN\
        D a AND a AND a AND a AND a AND a AND a AND a AND a AND a AND a AND a AND a AND \
        a AND a AND a AND a AND a AND a AND a AND a AND a AND a AND a AND a AND a AND a \
        AND a AND a AND a AND a AND a AND a AND a AND a AND a AND a AND a";
    shows(&rt, rt.alloc(), more, 64, too_high(380, 383));
}

#[test]
fn the_last_level_of_height(rt: HostRuntime) {
    shows(&rt, rt.alloc(), b"LUB(a, b)", 1, too_high(0, 3));
    shows(&rt, rt.alloc(), b"LUB(a, b)", 2, Ok(6));
    shows(&rt, rt.alloc(), b"f()", 1, Ok(3));
    shows(&rt, rt.alloc(), b"f(x)", 1, too_high(2, 3));
    shows(&rt, rt.alloc(), b"f(;", 1, unexpected(2, 3));
}

#[test]
fn no_tokens_are_no_expression(rt: HostRuntime) {
    shows(&rt, rt.alloc(), b"", 0, unexpected(0, 0));
    shows(&rt, rt.alloc(), b"", 1, unexpected(0, 0));
    shows(&rt, rt.alloc(), b"a", 0, too_high(0, 1));
}
