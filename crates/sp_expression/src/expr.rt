ghost use Rattle.std.specs.Prelude.{◌≡◌, ◌<◌, ◌≤◌, suc, length, All, IfOk, Some, slice_get};
ghost use Rattle.sp_text.specs.declared.token.TokenKind.TheVariants as kind;
ghost use Rattle.sp_grammar.specs.Lang.{behind};
ghost use Rattle.sp_grammar.specs.Codes.{code_at, left_parenthesis, name_code, quote, word_if};
ghost use Rattle.sp_lexer.specs.Tokens.{IsUnsigned};
ghost use Rattle.sp_expression.specs.Contract.{join_code, quant_code, Parses, ParsesArgs};
ghost use Rattle.sp_expression.specs.Grammar.{at, expression, negation, primary, tree as spanned};
ghost use Rattle.sp_expression.specs.Levels.{chain_form, operand_form, pair_form, pair_right};
ghost use Rattle.sp_expression.specs.Marks.{mark_code};

use crate::build::{binary, choice, join, negate, paren, quantified, tree};
use crate::leaf::{constant_at, formal, ident_at, negative};
use crate::level::{Chain, Pair, is_chain_operator, is_pair_operator};
use crate::tokens::{
    COLON, COMMA, ELSE, END_IF, EXISTS, FORALL, FixedToken, GLB, IF, LEFT_PARENTHESIS, LUB, MINUS,
    NOT, QUOTE, RIGHT_PARENTHESIS, THEN, begins_expr, closing, is, larger, number_at, too_high,
    unexpected,
};
use sp_text::{TextFault, Token};
use sp_tree::{ExprNode, ExprTree, Ident};
use sqlite_items::Items;
use std::alloc::Global;

/// An expression, its height and the place behind it.
#[derive(Debug, Drop)]
pub struct Found {
    pub tree: ExprTree,
    pub height: u32,
    pub next: usize,
}

/// Arguments, their greatest height and the place behind them.
#[derive(Debug, Drop)]
pub struct ArgsFound {
    pub items: Vec<ExprTree>,
    pub height: u32,
    pub next: usize,
}

/// A chain of operators, read from the left.
#[cycle(expr)]
pub fn parse_chain(
    alloc: Global,
    tokens: &[Token],
    start: usize,
    end: u32,
    budget: u32,
    chain: Chain,
) -> Result<Found, TextFault>
    requires budget { 1 ≤ budget }
    requires unsigned { All (λ t. IsUnsigned t.kind) tokens.now }
    ensures reads { Parses (chain_form tokens.now chain) budget tokens.now end start result }
    ensures moves { IfOk result (λ x. start < x.next) }
    ensures within { IfOk result (λ x. x.next ≤ length tokens.now) }
{
    let first = parse_operand(alloc, tokens, start, end, budget, chain)?;
    let mut left = first.tree;
    let mut height = first.height;
    let mut next = first.next;
    while is_chain_operator(tokens, next, chain) {
        if height >= budget {
            return Err(too_high(tokens, end, next));
        }
        let right = parse_operand(alloc, tokens, next + 1, end, budget - 1, chain)?;
        left = binary(alloc, tokens, next, left, right.tree, start, right.next)?;
        height = larger(height, right.height) + 1;
        next = right.next;
    }
    Ok(Found {
        tree: left,
        height,
        next,
    })
}

/// What stands between the operators of a chain.
#[cycle(expr)]
fn parse_operand(
    alloc: Global,
    tokens: &[Token],
    start: usize,
    end: u32,
    budget: u32,
    chain: Chain,
) -> Result<Found, TextFault>
    requires budget { 1 ≤ budget }
    requires unsigned { All (λ t. IsUnsigned t.kind) tokens.now }
    ensures reads { Parses (operand_form tokens.now chain) budget tokens.now end start result }
    ensures moves { IfOk result (λ x. start < x.next) }
    ensures within { IfOk result (λ x. x.next ≤ length tokens.now) }
{
    match chain {
        Chain::Iff => parse_pair(alloc, tokens, start, end, budget, Pair::Implies),
        Chain::Or => parse_chain(alloc, tokens, start, end, budget, Chain::And),
        Chain::And => parse_not(alloc, tokens, start, end, budget),
        Chain::Sum => parse_chain(alloc, tokens, start, end, budget, Chain::Product),
        Chain::Product => parse_primary(alloc, tokens, start, end, budget),
    }
}

/// An operand alone, or an operand, an operator and what stands right of it.
#[cycle(expr)]
fn parse_pair(
    alloc: Global,
    tokens: &[Token],
    start: usize,
    end: u32,
    budget: u32,
    pair: Pair,
) -> Result<Found, TextFault>
    requires budget { 1 ≤ budget }
    requires unsigned { All (λ t. IsUnsigned t.kind) tokens.now }
    ensures reads { Parses (pair_form tokens.now pair) budget tokens.now end start result }
    ensures moves { IfOk result (λ x. start < x.next) }
    ensures within { IfOk result (λ x. x.next ≤ length tokens.now) }
{
    let side = pair.operand();
    let left = parse_chain(alloc, tokens, start, end, budget, side)?;
    let between = left.next;
    if !is_pair_operator(tokens, between, pair) {
        return Ok(left);
    }
    if left.height >= budget {
        return Err(too_high(tokens, end, between));
    }
    let right = parse_right(alloc, tokens, between + 1, end, budget - 1, pair)?;
    let tree = binary(
        alloc, tokens, between, left.tree, right.tree, start, right.next,
    )?;
    Ok(Found {
        tree,
        height: larger(left.height, right.height) + 1,
        next: right.next,
    })
}

/// What stands right of the operator: an implication goes on, a comparison doesn't.
#[cycle(expr)]
fn parse_right(
    alloc: Global,
    tokens: &[Token],
    start: usize,
    end: u32,
    budget: u32,
    pair: Pair,
) -> Result<Found, TextFault>
    requires budget { 1 ≤ budget }
    requires unsigned { All (λ t. IsUnsigned t.kind) tokens.now }
    ensures reads { Parses (pair_right tokens.now pair) budget tokens.now end start result }
    ensures moves { IfOk result (λ x. start < x.next) }
    ensures within { IfOk result (λ x. x.next ≤ length tokens.now) }
{
    match pair {
        Pair::Implies => parse_pair(alloc, tokens, start, end, budget, Pair::Implies),
        Pair::Comparison => parse_chain(alloc, tokens, start, end, budget, Chain::Sum),
    }
}

/// NOT of an operand, or a comparison.
#[cycle(expr)]
fn parse_not(
    alloc: Global,
    tokens: &[Token],
    start: usize,
    end: u32,
    budget: u32,
) -> Result<Found, TextFault>
    requires budget { 1 ≤ budget }
    requires unsigned { All (λ t. IsUnsigned t.kind) tokens.now }
    ensures reads { Parses (negation tokens.now) budget tokens.now end start result }
    ensures moves { IfOk result (λ x. start < x.next) }
    ensures within { IfOk result (λ x. x.next ≤ length tokens.now) }
{
    if !is(tokens, start, NOT) {
        return parse_pair(alloc, tokens, start, end, budget, Pair::Comparison);
    }
    if budget < 2 {
        return Err(too_high(tokens, end, start));
    }
    let inner = parse_not(alloc, tokens, start + 1, end, budget - 1)?;
    let node = negate(alloc, inner.tree)?;
    Ok(Found {
        tree: tree(tokens, start, inner.next, node),
        height: inner.height + 1,
        next: inner.next,
    })
}

/// An expression that no operator stands in, but in its parts.
#[cycle(expr)]
fn parse_primary(
    alloc: Global,
    tokens: &[Token],
    start: usize,
    end: u32,
    budget: u32,
) -> Result<Found, TextFault>
    requires budget { 1 ≤ budget }
    requires unsigned { All (λ t. IsUnsigned t.kind) tokens.now }
    ensures reads { Parses (primary tokens.now) budget tokens.now end start result }
    ensures moves { IfOk result (λ x. start < x.next) }
    ensures within { IfOk result (λ x. x.next ≤ length tokens.now) }
{
    if let Some((number, _)) = number_at(tokens, start) {
        return Ok(leaf(tokens, start, ExprNode::Number(number)));
    }
    if let Some(node) = constant_at(tokens, start) {
        return Ok(leaf(tokens, start, node));
    }
    if let Some(name) = ident_at(alloc, tokens, start)? {
        return parse_named(alloc, tokens, start, end, budget, name);
    }
    if is(tokens, start, MINUS) {
        return Ok(Found {
            tree: negative(tokens, start, end)?,
            height: 1,
            next: start + 2,
        });
    }
    if is(tokens, start, QUOTE) {
        return parse_new(alloc, tokens, start, end, budget);
    }
    if is(tokens, start, LEFT_PARENTHESIS) {
        return parse_paren(alloc, tokens, start, end, budget);
    }
    if is(tokens, start, IF) {
        return parse_if(alloc, tokens, start, end, budget);
    }
    if is(tokens, start, LUB) {
        return parse_join(alloc, tokens, start, end, budget, true);
    }
    if is(tokens, start, GLB) {
        return parse_join(alloc, tokens, start, end, budget, false);
    }
    if is(tokens, start, FORALL) {
        return parse_quant(alloc, tokens, start, end, budget, true);
    }
    if is(tokens, start, EXISTS) {
        return parse_quant(alloc, tokens, start, end, budget, false);
    }
    Err(unexpected(tokens, end, start))
}

/// An expression of one token.
fn leaf(tokens: &[Token], start: usize, node: ExprNode) -> Found
    requires { start < length tokens.now }
    ensures tree { result.tree ≡ spanned tokens.now node start (suc start) }
    ensures height { result.height ≡ 1 }
    ensures next { result.next ≡ suc start }
{
    Found {
        tree: tree(tokens, start, start + 1, node),
        height: 1,
        next: start + 1,
    }
}

/// A name, or a call.
#[cycle(expr)]
fn parse_named(
    alloc: Global,
    tokens: &[Token],
    start: usize,
    end: u32,
    budget: u32,
    name: Ident,
) -> Result<Found, TextFault>
    requires budget { 1 ≤ budget }
    requires unsigned { All (λ t. IsUnsigned t.kind) tokens.now }
    requires named { slice_get tokens.now start ≡ Some (record { kind = kind.Name name.name; span = name.span }) }
    requires within { start < length tokens.now }
    ensures reads { Parses (primary tokens.now) budget tokens.now end start result }
    ensures moves { IfOk result (λ x. start < x.next) }
    ensures within { IfOk result (λ x. x.next ≤ length tokens.now) }
{
    if !is(tokens, start + 1, LEFT_PARENTHESIS) {
        let Ident { name, span: _ } = name;
        return Ok(leaf(tokens, start, ExprNode::Name(name)));
    }
    let args = parse_args(alloc, tokens, start + 1, end, budget - 1)?;
    let node = ExprNode::Call(name, Items::from_vec(args.items));
    Ok(Found {
        tree: tree(tokens, start, args.next, node),
        height: args.height + 1,
        next: args.next,
    })
}

/// A quoted call.
#[cycle(expr)]
fn parse_new(
    alloc: Global,
    tokens: &[Token],
    start: usize,
    end: u32,
    budget: u32,
) -> Result<Found, TextFault>
    requires budget { 1 ≤ budget }
    requires unsigned { All (λ t. IsUnsigned t.kind) tokens.now }
    requires opens { code_at tokens.now start ≡ quote }
    requires within { start < length tokens.now }
    ensures reads { Parses (primary tokens.now) budget tokens.now end start result }
    ensures moves { IfOk result (λ x. start < x.next) }
    ensures within { IfOk result (λ x. x.next ≤ length tokens.now) }
{
    let Some(name) = ident_at(alloc, tokens, start + 1)? else {
        return Err(unexpected(tokens, end, start + 1));
    };
    if !is(tokens, start + 2, LEFT_PARENTHESIS) {
        return Err(unexpected(tokens, end, start + 2));
    }
    let args = parse_args(alloc, tokens, start + 2, end, budget - 1)?;
    let node = ExprNode::New(name, Items::from_vec(args.items));
    Ok(Found {
        tree: tree(tokens, start, args.next, node),
        height: args.height + 1,
        next: args.next,
    })
}

/// Arguments, from their parenthesis on.
#[cycle(expr)]
fn parse_args(
    alloc: Global,
    tokens: &[Token],
    start: usize,
    end: u32,
    budget: u32,
) -> Result<ArgsFound, TextFault>
    requires unsigned { All (λ t. IsUnsigned t.kind) tokens.now }
    requires opens { code_at tokens.now start ≡ left_parenthesis }
    requires within { start < length tokens.now }
    ensures reads { ParsesArgs budget tokens.now end start result }
    ensures moves { IfOk result (λ x. start < x.next) }
    ensures within { IfOk result (λ x. x.next ≤ length tokens.now) }
{
    let first = start + 1;
    let mut items = Vec::new(alloc);
    if is(tokens, first, RIGHT_PARENTHESIS) {
        return Ok(ArgsFound {
            items,
            height: 0,
            next: first + 1,
        });
    }
    if !begins_expr(tokens, first) {
        return Err(unexpected(tokens, end, first));
    }
    if budget < 1 {
        return Err(too_high(tokens, end, first));
    }
    let head = parse_chain(alloc, tokens, first, end, budget, Chain::Iff)?;
    items.push(head.tree)?;
    let mut height = 0;
    let mut next = head.next;
    while is(tokens, next, COMMA) {
        let item = parse_behind(alloc, tokens, next, end, budget, COMMA)?;
        items.push(item.tree)?;
        height = larger(height, item.height);
        next = item.next;
    }
    if !is(tokens, next, RIGHT_PARENTHESIS) {
        return Err(unexpected(tokens, end, next));
    }
    Ok(ArgsFound {
        items,
        height: larger(head.height, height),
        next: next + 1,
    })
}

/// A token, and an expression behind it.
#[cycle(expr)]
fn parse_behind(
    alloc: Global,
    tokens: &[Token],
    start: usize,
    end: u32,
    budget: u32,
    mark: FixedToken,
) -> Result<Found, TextFault>
    requires unsigned { All (λ t. IsUnsigned t.kind) tokens.now }
    ensures reads { Parses (λ b. behind (at tokens.now) (mark_code mark) (expression tokens.now b)) budget tokens.now end start result }
    ensures moves { IfOk result (λ x. start < x.next) }
    ensures within { IfOk result (λ x. x.next ≤ length tokens.now) }
{
    if !is(tokens, start, mark) {
        return Err(unexpected(tokens, end, start));
    }
    if budget < 1 {
        return Err(too_high(tokens, end, start));
    }
    parse_chain(alloc, tokens, start + 1, end, budget, Chain::Iff)
}

/// An expression in parentheses.
#[cycle(expr)]
fn parse_paren(
    alloc: Global,
    tokens: &[Token],
    start: usize,
    end: u32,
    budget: u32,
) -> Result<Found, TextFault>
    requires budget { 1 ≤ budget }
    requires unsigned { All (λ t. IsUnsigned t.kind) tokens.now }
    requires opens { code_at tokens.now start ≡ left_parenthesis }
    ensures reads { Parses (primary tokens.now) budget tokens.now end start result }
    ensures moves { IfOk result (λ x. start < x.next) }
    ensures within { IfOk result (λ x. x.next ≤ length tokens.now) }
{
    let inner = parse_behind(alloc, tokens, start, end, budget - 1, LEFT_PARENTHESIS)?;
    if !is(tokens, inner.next, RIGHT_PARENTHESIS) {
        return Err(unexpected(tokens, end, inner.next));
    }
    let next = inner.next + 1;
    let node = paren(alloc, inner.tree)?;
    Ok(Found {
        tree: tree(tokens, start, next, node),
        height: inner.height + 1,
        next,
    })
}

/// A condition and what counts by it.
#[cycle(expr)]
fn parse_if(
    alloc: Global,
    tokens: &[Token],
    start: usize,
    end: u32,
    budget: u32,
) -> Result<Found, TextFault>
    requires budget { 1 ≤ budget }
    requires unsigned { All (λ t. IsUnsigned t.kind) tokens.now }
    requires opens { code_at tokens.now start ≡ word_if }
    ensures reads { Parses (primary tokens.now) budget tokens.now end start result }
    ensures moves { IfOk result (λ x. start < x.next) }
    ensures within { IfOk result (λ x. x.next ≤ length tokens.now) }
{
    let condition = parse_behind(alloc, tokens, start, end, budget - 1, IF)?;
    let yes = parse_behind(alloc, tokens, condition.next, end, budget - 1, THEN)?;
    let no = parse_behind(alloc, tokens, yes.next, end, budget - 1, ELSE)?;
    if !is(tokens, no.next, END_IF) {
        return Err(unexpected(tokens, end, no.next));
    }
    let next = no.next + 1;
    let height = larger(condition.height, larger(yes.height, no.height)) + 1;
    let node = choice(alloc, condition.tree, yes.tree, no.tree)?;
    Ok(Found {
        tree: tree(tokens, start, next, node),
        height,
        next,
    })
}

/// LUB of two levels, or GLB.
#[cycle(expr)]
fn parse_join(
    alloc: Global,
    tokens: &[Token],
    start: usize,
    end: u32,
    budget: u32,
    lub: bool,
) -> Result<Found, TextFault>
    requires budget { 1 ≤ budget }
    requires unsigned { All (λ t. IsUnsigned t.kind) tokens.now }
    requires opens { code_at tokens.now start ≡ join_code lub }
    requires within { start < length tokens.now }
    ensures reads { Parses (primary tokens.now) budget tokens.now end start result }
    ensures moves { IfOk result (λ x. start < x.next) }
    ensures within { IfOk result (λ x. x.next ≤ length tokens.now) }
{
    if budget < 2 {
        return Err(too_high(tokens, end, start));
    }
    let left = parse_behind(alloc, tokens, start + 1, end, budget - 1, LEFT_PARENTHESIS)?;
    let right = parse_behind(alloc, tokens, left.next, end, budget - 1, COMMA)?;
    if !is(tokens, right.next, RIGHT_PARENTHESIS) {
        return Err(unexpected(tokens, end, right.next));
    }
    let next = right.next + 1;
    let node = join(alloc, lub, left.tree, right.tree)?;
    Ok(Found {
        tree: tree(tokens, start, next, node),
        height: larger(left.height, right.height) + 1,
        next,
    })
}

/// FORALL of a variable, or EXISTS.
#[cycle(expr)]
fn parse_quant(
    alloc: Global,
    tokens: &[Token],
    start: usize,
    end: u32,
    budget: u32,
    forall: bool,
) -> Result<Found, TextFault>
    requires budget { 1 ≤ budget }
    requires unsigned { All (λ t. IsUnsigned t.kind) tokens.now }
    requires opens { code_at tokens.now start ≡ quant_code forall }
    requires within { start < length tokens.now }
    ensures reads { Parses (primary tokens.now) budget tokens.now end start result }
    ensures moves { IfOk result (λ x. start < x.next) }
    ensures within { IfOk result (λ x. x.next ≤ length tokens.now) }
{
    if budget < 2 {
        return Err(too_high(tokens, end, start));
    }
    let variable = formal(alloc, tokens, start + 1, end)?;
    let body = parse_behind(alloc, tokens, start + 3, end, budget - 1, COLON)?;
    if !is(tokens, body.next, closing(forall)) {
        return Err(unexpected(tokens, end, body.next));
    }
    let next = body.next + 1;
    let node = quantified(alloc, forall, variable, body.tree)?;
    Ok(Found {
        tree: tree(tokens, start, next, node),
        height: body.height + 1,
        next,
    })
}
