//! Single tokens: which one stands at a place, and the faults there.

ghost use Rattle.std.specs.Prelude.{◌≡◌, ◌+◌, ◌<◌, ◌≤◌, ◌↔◌, length, eqb, suc, IsTrue, IfErr, IfOk, IfSome, IfNone, Some, slice_get, max};
ghost use Rattle.sp_grammar.specs.Lang.{has};
ghost use Rattle.sp_text.specs.declared.token.TokenKind.TheVariants as kind;
ghost use Rattle.sp_text.specs.declared.fault.TextFault.TheVariants as fault;
ghost use Rattle.sp_text.specs.declared.fault.Rule.TheVariants as rule;
ghost use Rattle.sp_text.specs.declared.fault.Quantity.TheVariants as quantity;
ghost use Rattle.sp_grammar.specs.Codes.{code_at, kind_code, name_code, number_code, place_of, span_of, symbol_code, word_code};
ghost use Rattle.sp_expression.specs.Contract.{close_code, expression_first};
ghost use Rattle.sp_expression.specs.Marks.{mark_code};

use sp_text::{
    Keyword, Limit, Malformed, Name, Quantity, Rule, Span, Symbol, TextFault, Token, TokenKind,
};
use sqlite_items::at;

/// A token that has one spelling.
#[derive(Clone, Copy, Debug, PartialEq, Eq)]
pub enum FixedToken {
    Word(Keyword),
    Symbol(Symbol),
}

pub const LEFT_PARENTHESIS: FixedToken = FixedToken::Symbol(Symbol::LeftParenthesis);

pub const RIGHT_PARENTHESIS: FixedToken = FixedToken::Symbol(Symbol::RightParenthesis);

pub const COMMA: FixedToken = FixedToken::Symbol(Symbol::Comma);

pub const COLON: FixedToken = FixedToken::Symbol(Symbol::Colon);

pub const EQUAL: FixedToken = FixedToken::Symbol(Symbol::Equal);

pub const NOT_EQUAL: FixedToken = FixedToken::Symbol(Symbol::NotEqual);

pub const LESS: FixedToken = FixedToken::Symbol(Symbol::Less);

pub const LESS_OR_EQUAL: FixedToken = FixedToken::Symbol(Symbol::LessOrEqual);

pub const GREATER: FixedToken = FixedToken::Symbol(Symbol::Greater);

pub const GREATER_OR_EQUAL: FixedToken = FixedToken::Symbol(Symbol::GreaterOrEqual);

pub const PLUS: FixedToken = FixedToken::Symbol(Symbol::Plus);

pub const MINUS: FixedToken = FixedToken::Symbol(Symbol::Minus);

pub const ASTERISK: FixedToken = FixedToken::Symbol(Symbol::Star);

pub const QUOTE: FixedToken = FixedToken::Symbol(Symbol::Quote);

pub const QUESTION: FixedToken = FixedToken::Symbol(Symbol::Question);

pub const BOOLEAN: FixedToken = FixedToken::Word(Keyword::Boolean);

pub const INTEGER: FixedToken = FixedToken::Word(Keyword::Integer);

pub const LEVEL: FixedToken = FixedToken::Word(Keyword::Level);

pub const IF: FixedToken = FixedToken::Word(Keyword::If);

pub const THEN: FixedToken = FixedToken::Word(Keyword::Then);

pub const ELSE: FixedToken = FixedToken::Word(Keyword::Else);

pub const END_IF: FixedToken = FixedToken::Word(Keyword::EndIf);

pub const FORALL: FixedToken = FixedToken::Word(Keyword::Forall);

pub const END_FORALL: FixedToken = FixedToken::Word(Keyword::EndForall);

pub const EXISTS: FixedToken = FixedToken::Word(Keyword::Exists);

pub const END_EXISTS: FixedToken = FixedToken::Word(Keyword::EndExists);

pub const NOT: FixedToken = FixedToken::Word(Keyword::Not);

pub const AND: FixedToken = FixedToken::Word(Keyword::And);

pub const OR: FixedToken = FixedToken::Word(Keyword::Or);

pub const IMPLIES: FixedToken = FixedToken::Word(Keyword::Implies);

pub const IFF: FixedToken = FixedToken::Word(Keyword::Iff);

pub const LUB: FixedToken = FixedToken::Word(Keyword::Lub);

pub const GLB: FixedToken = FixedToken::Word(Keyword::Glb);

pub const TRUE: FixedToken = FixedToken::Word(Keyword::True);

pub const FALSE: FixedToken = FixedToken::Word(Keyword::False);

pub const BOTTOM: FixedToken = FixedToken::Word(Keyword::Bottom);

pub const TOP: FixedToken = FixedToken::Word(Keyword::Top);

fn word_number(word: Keyword) -> u8
    ensures { result ≡ word_code word }
{
    word as u8 + 1
}

fn symbol_number(symbol: Symbol) -> u8
    ensures { result ≡ symbol_code symbol }
{
    symbol as u8 + 62
}

fn mark_number(mark: FixedToken) -> u8
    ensures { result ≡ mark_code mark }
{
    match mark {
        FixedToken::Word(word) => word_number(word),
        FixedToken::Symbol(symbol) => symbol_number(symbol),
    }
}

fn kind_number(kind: &TokenKind) -> u8
    ensures { result ≡ kind_code kind.now }
{
    match kind {
        TokenKind::Word(word) => word_number(*word),
        TokenKind::Symbol(symbol) => symbol_number(*symbol),
        TokenKind::Name(_) => 81,
        TokenKind::Number(_) => 82,
    }
}

/// The number of the token's kind, or 0 past the last.
#[tactic(auto, unfolding(sp_grammar::specs::Codes::code_at))]
fn code(tokens: &[Token], place: usize) -> u8
    ensures { result ≡ code_at tokens.now place }
{
    match at(tokens, place) {
        Some(token) => kind_number(&token.kind),
        None => 0,
    }
}

/// What closes FORALL, or EXISTS.
pub(crate) fn closing(forall: bool) -> FixedToken
    ensures { mark_code result ≡ close_code forall }
{
    if forall { END_FORALL } else { END_EXISTS }
}

/// Whether this token stands there.
pub fn is(tokens: &[Token], place: usize, mark: FixedToken) -> bool
    ensures value { result ≡ eqb (mark_code mark) (code_at tokens.now place) }
    ensures same { IsTrue result ↔ (code_at tokens.now place ≡ mark_code mark) }
    ensures within { IsTrue result → place < length tokens.now }
{
    mark_number(mark) == code(tokens, place)
}

/// Whether an expression can begin with the token.
#[tactic(auto, unfolding(sp_grammar::specs::Codes::code_at))]
pub fn begins_expr(tokens: &[Token], place: usize) -> bool
    ensures { result ≡ has expression_first (code_at tokens.now place) }
{
    match at(tokens, place) {
        Some(token) => kind_begins_expr(&token.kind),
        None => false,
    }
}

fn kind_begins_expr(kind: &TokenKind) -> bool
    ensures { result ≡ has expression_first (kind_code kind.now) }
{
    match kind {
        TokenKind::Word(word) => word_begins_expr(*word),
        TokenKind::Symbol(symbol) => symbol_begins_expr(*symbol),
        TokenKind::Name(_) | TokenKind::Number(_) => true,
    }
}

fn word_begins_expr(word: Keyword) -> bool
    ensures { result ≡ has expression_first (word_code word) }
{
    matches!(
        word,
        Keyword::Not
            | Keyword::True
            | Keyword::False
            | Keyword::Bottom
            | Keyword::Top
            | Keyword::If
            | Keyword::Lub
            | Keyword::Glb
            | Keyword::Forall
            | Keyword::Exists
    )
}

fn symbol_begins_expr(symbol: Symbol) -> bool
    ensures { result ≡ has expression_first (symbol_code symbol) }
{
    matches!(
        symbol,
        Symbol::Minus | Symbol::Question | Symbol::Quote | Symbol::LeftParenthesis
    )
}

/// Where the token stands, or the end of the text.
#[tactic(auto, unfolding(sp_grammar::specs::Codes::place_of))]
pub fn place_at(tokens: &[Token], end: u32, place: usize) -> Span
    ensures { result ≡ place_of tokens.now end place }
{
    match at(tokens, place) {
        Some(token) => token.span,
        None => Span { start: end, end },
    }
}

/// The token there is the first that doesn't go on.
pub fn unexpected(tokens: &[Token], end: u32, place: usize) -> TextFault
    ensures { result ≡ fault.Malformed (record { span = place_of tokens.now end place; rule = rule.Unexpected }) }
{
    TextFault::Malformed(Malformed {
        span: place_at(tokens, end, place),
        rule: Rule::Unexpected,
    })
}

/// The token there is the first that exceeds the height.
pub fn too_high(tokens: &[Token], end: u32, place: usize) -> TextFault
    ensures { result ≡ fault.Limit (record { span = place_of tokens.now end place; quantity = quantity.Height }) }
{
    TextFault::Limit(Limit {
        span: place_at(tokens, end, place),
        quantity: Quantity::Height,
    })
}

/// From the token at `from` up to the one before `to`.
#[tactic(auto, unfolding(sp_grammar::specs::Codes::span_of))]
pub fn span(tokens: &[Token], from: usize, to: usize) -> Span
    requires before { from < to }
    requires within { to ≤ length tokens.now }
    ensures { result ≡ span_of tokens.now from to }
{
    Span {
        start: tokens[from].span.start,
        end: tokens[to - 1].span.end,
    }
}

/// The name that stands there, if one does.
pub fn name_at(tokens: &[Token], place: usize) -> Option<(&Name, Span)>
    ensures none { IfNone result (code_at tokens.now place ≡ name_code → ⊥) }
    ensures some { IfSome result (λ x. slice_get tokens.now place ≡ Some (record { kind = kind.Name x.0.now; span = x.1 })) }
    ensures within { IfSome result (λ _. place < length tokens.now) }
{
    match at(tokens, place) {
        Some(token) => match &token.kind {
            TokenKind::Name(name) => Some((name, token.span)),
            _ => None,
        },
        None => None,
    }
}

/// The number that stands there, if one does.
pub fn number_at(tokens: &[Token], place: usize) -> Option<(i64, Span)>
    ensures none { IfNone result (code_at tokens.now place ≡ number_code → ⊥) }
    ensures some { IfSome result (λ x. slice_get tokens.now place ≡ Some (record { kind = kind.Number x.0; span = x.1 })) }
    ensures within { IfSome result (λ _. place < length tokens.now) }
{
    match at(tokens, place) {
        Some(token) => match &token.kind {
            TokenKind::Number(number) => Some((*number, token.span)),
            _ => None,
        },
        None => None,
    }
}

/// The larger height.
pub(crate) fn larger(a: u32, b: u32) -> u32
    ensures { result ≡ max a b }
{
    if a < b { b } else { a }
}
