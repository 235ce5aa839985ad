ghost use Rattle.std.specs.Prelude.{◌<◌, ◌≤◌, length, All, IfOk};
ghost use Rattle.sp_lexer.specs.Tokens.{IsUnsigned};
ghost use Rattle.sp_expression.specs.Contract.{Parses};
ghost use Rattle.sp_expression.specs.Front.{Answers, AnswersOnly};
ghost use Rattle.sp_expression.specs.Grammar.{expression};

use crate::expr::{Found, parse_chain};
use crate::level::Chain;
use crate::tokens::{begins_expr, too_high, unexpected};
use sp_text::{TextFault, Token};
use sp_tree::ExprTree;
use std::alloc::Global;

/// The expression that begins at the token `at`, within a height of `budget`, and the index of the token behind it.
///
/// The front is the longest list of tokens from `at` on that an expression of some height can begin with. `end` is the
/// length of the text in bytes.
///
/// # Errors
/// Where the front is no expression of height at most `budget`, the fault is that of the first token up to and with
/// which the tokens are a prefix of no such expression: Limit height where the token belongs to the front, else
/// Unexpected; past the last token its place is the end of the text. `Memory` where the tree can't be kept.
pub fn parse_expr(
    alloc: Global,
    tokens: &[Token],
    at: usize,
    end: u32,
    budget: u32,
) -> Result<(ExprTree, usize), TextFault>
    requires within { at ≤ length tokens.now }
    requires unsigned { All (λ t. IsUnsigned t.kind) tokens.now }
    ensures answers { Answers (expression tokens.now) budget tokens.now end at result }

    // So where the front is an expression within the height, its tree is the answer, but for memory.
    ensures only { AnswersOnly (expression tokens.now) budget at result }
{
    if budget < 1 {
        if begins_expr(tokens, at) {
            return Err(too_high(tokens, end, at));
        }
        return Err(unexpected(tokens, end, at));
    }
    let found = parse_chain(alloc, tokens, at, end, budget, Chain::Iff)?;
    Ok((found.tree, found.next))
}

/// The expression that begins at the token `start`, within a height of `budget`, with its height.
///
/// For the readers of whole texts, which ask at each token what a text can go on with. `end` is the length of the text in
/// bytes.
///
/// # Errors
/// As [`parse_expr`].
pub fn read_expr(
    alloc: Global,
    tokens: &[Token],
    start: usize,
    end: u32,
    budget: u32,
) -> Result<Found, TextFault>
    requires budget { 1 ≤ budget }
    requires unsigned { All (λ t. IsUnsigned t.kind) tokens.now }
    ensures reads { Parses (expression tokens.now) budget tokens.now end start result }
    ensures moves { IfOk result (λ x. start < x.next) }
    ensures within { IfOk result (λ x. x.next ≤ length tokens.now) }
{
    parse_chain(alloc, tokens, start, end, budget, Chain::Iff)
}
