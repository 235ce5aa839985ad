//! Forms of few tokens without an expression in them: names, types, formals, constants, numbers.

ghost use Rattle.std.specs.Prelude.{◌≡◌, ◌<◌, ◌≤◌, ◌+◌, suc, length, All, IsTrue, IfOk, IfSome, IfNone, MatchResult, Some, None, slice_get, pos, ◌≤ℤ◌, ◌-ℤ◌};
ghost use Rattle.sp_text.specs.declared.fault.Span.{Span as ContractSpan};
ghost use Rattle.sp_text.specs.declared.token.TokenKind.TheVariants as kind;
ghost use Rattle.sp_tree.specs.declared.expr.ExprNode.TheVariants as node;
ghost use Rattle.sp_grammar.specs.Lang.{has, Measures};
ghost use Rattle.sp_grammar.specs.Codes.{code_at, minus, name_code, number_code, span_of};
ghost use Rattle.sp_lexer.specs.Tokens.{IsUnsigned};
ghost use Rattle.sp_expression.specs.Contract.{constant_first, type_first, Fails};
ghost use Rattle.sp_expression.specs.Grammar.{constant_line, formal_line, number_line, tree as spanned, type_line};

use crate::build::tree;
use crate::tokens::{
    BOOLEAN, BOTTOM, FALSE, INTEGER, LEVEL, QUESTION, TOP, TRUE, is, name_at, number_at, span,
    unexpected,
};
use sp_text::{Memory, Name, TextFault, Token};
use sp_tree::{ExprNode, ExprTree, FormalTree, Ident, TypeTree};
use std::alloc::Global;

/// The constant that stands there, if one does.
pub(crate) fn constant_at(tokens: &[Token], place: usize) -> Option<ExprNode>
    ensures none { IfNone result (IsTrue (has constant_first (code_at tokens.now place)) → ⊥) }
    ensures some { IfSome result (λ n. (constant_line tokens.now).whole (spanned tokens.now n place (suc place)) place (suc place)) }
    ensures within { IfSome result (λ _. place < length tokens.now) }
{
    if is(tokens, place, TRUE) {
        return Some(ExprNode::Truth(true));
    }
    if is(tokens, place, FALSE) {
        return Some(ExprNode::Truth(false));
    }
    if is(tokens, place, QUESTION) {
        return Some(ExprNode::Unknown);
    }
    if is(tokens, place, BOTTOM) {
        return Some(ExprNode::Bottom);
    }
    if is(tokens, place, TOP) {
        return Some(ExprNode::Top);
    }
    None
}

/// The number that stands there, if one does, which has no sign.
fn unsigned_at(tokens: &[Token], place: usize) -> Option<i64>
    requires { All (λ t. IsUnsigned t.kind) tokens.now }
    ensures none { IfNone result (code_at tokens.now place ≡ number_code → ⊥) }
    ensures some { IfSome result (λ n. (s : ContractSpan) × (slice_get tokens.now place ≡ Some (record { kind = kind.Number n; span = s }))) }
    ensures sign { IfSome result (λ n. pos 0 ≤ℤ n) }
    ensures within { IfSome result (λ _. place < length tokens.now) }
{
    match number_at(tokens, place) {
        Some((number, _)) => Some(number),
        None => None,
    }
}

/// The number with a sign.
fn opposite(number: i64) -> ExprNode
    requires { pos 0 ≤ℤ number }
    ensures { result ≡ node.Number (pos 0 -ℤ number) }
{
    ExprNode::Number(0 - number)
}

/// The number behind a sign.
pub(crate) fn negative(tokens: &[Token], start: usize, end: u32) -> Result<ExprTree, TextFault>
    requires opens { code_at tokens.now start ≡ minus }
    requires within { start < length tokens.now }
    requires unsigned { All (λ t. IsUnsigned t.kind) tokens.now }
    ensures reads { MatchResult result (λ t. (number_line tokens.now).whole t start (start + 2))
        (Fails (λ _. number_line tokens.now) 0 tokens.now end start) }
    ensures within { IfOk result (λ _. start + 2 ≤ length tokens.now) }
{
    let Some(number) = unsigned_at(tokens, start + 1) else {
        return Err(unexpected(tokens, end, start + 1));
    };
    Ok(tree(tokens, start, start + 2, opposite(number)))
}

/// The name that stands there, if one does.
pub(crate) fn ident_at(
    alloc: Global,
    tokens: &[Token],
    place: usize,
) -> Result<Option<Ident>, Memory>
    ensures none { IfOk result (λ found. IfNone found (code_at tokens.now place ≡ name_code → ⊥)) }
    ensures some { IfOk result (λ found. IfSome found (λ v. slice_get tokens.now place ≡ Some (record { kind = kind.Name v.name; span = v.span }))) }
    ensures within { IfOk result (λ found. IfSome found (λ _. place < length tokens.now)) }
{
    match name_at(tokens, place) {
        Some((name, span)) => {
            let name = Name::new(alloc, name.bytes())?;
            Ok(Some(Ident { name, span }))
        }
        None => Ok(None),
    }
}

/// The type that stands there, if one does.
pub(crate) fn type_at(
    alloc: Global,
    tokens: &[Token],
    place: usize,
) -> Result<Option<TypeTree>, Memory>
    ensures none { IfOk result (λ found. IfNone found (IsTrue (has type_first (code_at tokens.now place)) → ⊥)) }
    ensures some { IfOk result (λ found. IfSome found (λ t. (type_line tokens.now).whole t place (suc place))) }
    ensures within { IfOk result (λ found. IfSome found (λ _. place < length tokens.now)) }
{
    if is(tokens, place, BOOLEAN) {
        return Ok(Some(TypeTree::Boolean(span(tokens, place, place + 1))));
    }
    if is(tokens, place, INTEGER) {
        return Ok(Some(TypeTree::Integer(span(tokens, place, place + 1))));
    }
    if is(tokens, place, LEVEL) {
        return Ok(Some(TypeTree::Level(span(tokens, place, place + 1))));
    }
    Ok(ident_at(alloc, tokens, place)?.map(TypeTree::Named))
}

/// A type and a name.
pub(crate) fn formal(
    alloc: Global,
    tokens: &[Token],
    start: usize,
    end: u32,
) -> Result<FormalTree, TextFault>
    requires { start ≤ length tokens.now }
    ensures reads { MatchResult result (λ t. (formal_line tokens.now).whole t start (start + 2))
        (Fails (λ _. formal_line tokens.now) 0 tokens.now end start) }
    ensures within { IfOk result (λ _. start + 2 ≤ length tokens.now) }
{
    let Some(ty) = type_at(alloc, tokens, start)? else {
        return Err(unexpected(tokens, end, start));
    };
    let Some(name) = ident_at(alloc, tokens, start + 1)? else {
        return Err(unexpected(tokens, end, start + 1));
    };
    Ok(FormalTree { ty, name })
}
