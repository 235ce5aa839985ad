ghost use Rattle.std.specs.Prelude.{◌≡◌};
ghost use Rattle.sp_grammar.specs.Lang.{has};
ghost use Rattle.sp_grammar.specs.Codes.{code_at, kind_code, symbol_code, word_code};
ghost use Rattle.sp_expression.specs.Grammar.{operator};
ghost use Rattle.sp_expression.specs.declared.level.Pair.TheVariants as pair;
ghost use Rattle.sp_expression.specs.Levels.{chain_ops, pair_operand, pair_ops};

use crate::tokens::{
    AND, ASTERISK, EQUAL, GREATER, GREATER_OR_EQUAL, IFF, IMPLIES, LESS, LESS_OR_EQUAL, MINUS,
    NOT_EQUAL, OR, PLUS, is,
};
use sp_text::{Keyword, Symbol, Token, TokenKind};
use sp_tree::BinOp;
use sqlite_items::at;

/// A line with any number of operators, which leans to the left.
#[derive(Clone, Copy, Debug, PartialEq, Eq)]
pub enum Chain {
    Iff,
    Or,
    And,
    Sum,
    Product,
}

/// A line that is an operand, or two parts with an operator between them.
#[derive(Clone, Copy, Debug, PartialEq, Eq)]
pub enum Pair {
    Implies,
    Comparison,
}

impl Pair {
    /// Its operand, which is also what stands left of its operator.
    pub fn operand(self) -> Chain
        ensures { result ≡ pair_operand self }
    {
        match self {
            Pair::Implies => Chain::Or,
            Pair::Comparison => Chain::Sum,
        }
    }
}

/// Whether an operator of the chain stands there.
pub fn is_chain_operator(tokens: &[Token], place: usize, chain: Chain) -> bool
    ensures { result ≡ has (chain_ops chain) (code_at tokens.now place) }
{
    match chain {
        Chain::Iff => is(tokens, place, IFF),
        Chain::Or => is(tokens, place, OR),
        Chain::And => is(tokens, place, AND),
        Chain::Sum => is(tokens, place, PLUS) || is(tokens, place, MINUS),
        Chain::Product => is(tokens, place, ASTERISK),
    }
}

/// Whether an operator of the line stands there.
pub fn is_pair_operator(tokens: &[Token], place: usize, pair: Pair) -> bool
    ensures { result ≡ has (pair_ops pair) (code_at tokens.now place) }
{
    match pair {
        Pair::Implies => is(tokens, place, IMPLIES),
        Pair::Comparison => is_comparison(tokens, place),
    }
}

fn is_comparison(tokens: &[Token], place: usize) -> bool
    ensures { result ≡ has (pair_ops pair.Comparison) (code_at tokens.now place) }
{
    is(tokens, place, EQUAL)
        || is(tokens, place, NOT_EQUAL)
        || is(tokens, place, LESS)
        || is(tokens, place, LESS_OR_EQUAL)
        || is(tokens, place, GREATER)
        || is(tokens, place, GREATER_OR_EQUAL)
}

/// The operator that stands there, of those that have one.
#[tactic(auto, unfolding(sp_grammar::specs::Codes::code_at))]
pub fn operator_at(tokens: &[Token], place: usize) -> BinOp
    ensures { result ≡ operator (code_at tokens.now place) }
{
    match at(tokens, place) {
        Some(token) => kind_operator(&token.kind),
        None => BinOp::Mul,
    }
}

fn kind_operator(kind: &TokenKind) -> BinOp
    ensures { result ≡ operator (kind_code kind.now) }
{
    match kind {
        TokenKind::Word(word) => word_operator(*word),
        TokenKind::Symbol(symbol) => symbol_operator(*symbol),
        TokenKind::Name(_) | TokenKind::Number(_) => BinOp::Mul,
    }
}

fn word_operator(word: Keyword) -> BinOp
    ensures { result ≡ operator (word_code word) }
{
    match word {
        Keyword::Iff => BinOp::Iff,
        Keyword::Implies => BinOp::Implies,
        Keyword::Or => BinOp::Or,
        Keyword::And => BinOp::And,
        _ => BinOp::Mul,
    }
}

fn symbol_operator(symbol: Symbol) -> BinOp
    ensures { result ≡ operator (symbol_code symbol) }
{
    match symbol {
        Symbol::Equal => BinOp::Eq,
        Symbol::NotEqual => BinOp::Ne,
        Symbol::Less => BinOp::Lt,
        Symbol::LessOrEqual => BinOp::Le,
        Symbol::Greater => BinOp::Gt,
        Symbol::GreaterOrEqual => BinOp::Ge,
        Symbol::Plus => BinOp::Add,
        Symbol::Minus => BinOp::Sub,
        _ => BinOp::Mul,
    }
}
