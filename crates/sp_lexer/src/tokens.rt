ghost use Rattle.std.specs.Prelude.{◌≡◌, ◌≤◌, ◌<◌, ◌⊎◌, All, IfErr, IfOk, List, MatchResult, OnOk, length};
ghost use Rattle.sp_text.specs.declared.limits.TheConstants.{MOST_CERTIFICATE_BYTES};
ghost use Rattle.sp_text.specs.declared.token.Token.{Token};
ghost use Rattle.sp_text.specs.declared.fault.TextFault.{TextFault};
ghost use Rattle.sp_lexer.specs.Tokens.{HasTokens, IsTokens, IsUnsigned};
ghost use Rattle.sp_lexer.specs.Faults.{IsFirstFault};
ghost use Rattle.sp_lexer.specs.Scanned.{IsScanned, lexeme_kind};
ghost use Rattle.sp_text.specs.declared.fault.TextFault.TheVariants as fault;

use crate::piece::{Lexeme, Scanned, next_piece, span};
use sp_text::{Limit, Memory, Name, Quantity, TextFault, Token, TokenKind};
use std::alloc::Global;

/// The greatest number of tokens of a text.
const MOST_TOKENS: usize = sp_text::MOST_TOKENS as usize;

/// The tokens of the text.
///
/// # Errors
/// The first fault from the left: a bad byte, a comment without an end, a number too large, or the token after the
/// 200,000th. `Memory` where the tokens can't be kept.
pub fn lex(alloc: Global, text: &[u8]) -> Result<Vec<Token>, TextFault>
    requires { length text.now ≤ MOST_CERTIFICATE_BYTES }
    ensures ok { IfOk result (λ tokens. IsTokens text.now tokens.items) }
    ensures err { IfErr result (λ f. (f ≡ fault.Memory) ⊎ IsFirstFault text.now f) }

    // So a text with tokens is answered with them, and one with a fault is refused, but for memory.
    ensures answered { (tokens : List Token) → IsTokens text.now tokens
        → MatchResult result (λ found. found.items ≡ tokens) (λ f. f ≡ fault.Memory) }
    ensures refused { (first : TextFault) → IsFirstFault text.now first
        → MatchResult result (λ _. ⊥) (λ f. (f ≡ fault.Memory) ⊎ (f ≡ first)) }
    ensures unsigned { IfOk result (λ tokens. All (λ t. IsUnsigned t.kind) tokens.items) }
{
    let mut tokens = Vec::new(alloc);
    let mut place = 0;
    while place < text.len() {
        let piece = next_piece(text, place).map_err(TextFault::Malformed)?;
        add_token(alloc, &mut tokens, text, place, &piece)?;
        place = piece.end;
    }
    Ok(tokens)
}

/// Adds the token that the piece at `place` is, if it is one.
fn add_token(
    alloc: Global,
    tokens: &mut Vec<Token>,
    text: &[u8],
    place: usize,
    piece: &Scanned,
) -> Result<(), TextFault>
    requires size { length text.now ≤ MOST_CERTIFICATE_BYTES }
    requires before { HasTokens text.now tokens.old.items place }
    requires here { IsScanned text.now place piece.now }
    ensures ok { OnOk result (HasTokens text.now tokens.new.items piece.now.end) }
    ensures err { IfErr result (λ f. (f ≡ fault.Memory) ⊎ IsFirstFault text.now f) }
{
    let Some(lexeme) = piece.lexeme else {
        return Ok(());
    };
    let span = span(place, piece.end);
    if tokens.len() == MOST_TOKENS {
        return Err(TextFault::Limit(Limit {
            span,
            quantity: Quantity::Tokens,
        }));
    }
    let kind = token_kind(alloc, lexeme, &text[place..piece.end])?;
    tokens.push(Token { kind, span })?;
    Ok(())
}

/// What the lexeme with these bytes is.
fn token_kind(alloc: Global, lexeme: Lexeme, bytes: &[u8]) -> Result<TokenKind, Memory>
    ensures { IfOk result (λ kind. kind ≡ lexeme_kind lexeme bytes.now) }
{
    match lexeme {
        Lexeme::Keyword(keyword) => Ok(TokenKind::Word(keyword)),
        Lexeme::Name => Ok(TokenKind::Name(Name::new(alloc, bytes)?)),
        Lexeme::Number(number) => Ok(TokenKind::Number(number)),
        Lexeme::Symbol(symbol) => Ok(TokenKind::Symbol(symbol)),
    }
}
