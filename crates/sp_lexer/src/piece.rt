ghost use Rattle.std.specs.Prelude.{◌≡◌, ◌<◌, ◌≤◌, ◌^◌, ◌+◌, length, slice_index, IfOk, IsTrue, MatchOption, MatchResult};
ghost use Rattle.sp_text.specs.declared.limits.TheConstants.{MOST_CERTIFICATE_BYTES};
ghost use Rattle.sp_text.specs.Classes.{digit_byte, letter_byte, space_byte};
ghost use Rattle.sp_text.specs.declared.token.Symbol.{Symbol};
ghost use Rattle.sp_lexer.specs.Pieces.{OpensComment};
ghost use Rattle.sp_lexer.specs.Scanned.{IsMalformed, IsScanned};
ghost use Rattle.sp_lexer.specs.Scans.{IsDoubleAt, IsOther};

use crate::scan::{comment_end, scan_digits, word_end};
use crate::spelling::{double_symbol, keyword, single_symbol};
use sp_text::{Keyword, Malformed, Rule, Span, Symbol, is_digit, is_letter, is_space};

/// A token without its place, and a name without its bytes.
#[derive(Clone, Copy, Debug, PartialEq, Eq)]
pub enum Lexeme {
    Keyword(Keyword),
    Name,
    Number(i64),
    Symbol(Symbol),
}

/// The piece that stands at a place of a text.
#[derive(Clone, Copy, Debug, PartialEq, Eq)]
pub struct Scanned {
    /// What it is, unless it is a blank or a comment.
    pub lexeme: Option<Lexeme>,
    /// The place behind it.
    pub end: usize,
}

/// The longest piece that stands at `place`.
///
/// # Errors
/// A bad byte, a comment without an end or a number too large.
pub fn next_piece(text: &[u8], place: usize) -> Result<Scanned, Malformed>
    requires inside { place < length text.now }
    requires size { length text.now ≤ MOST_CERTIFICATE_BYTES }
    ensures scanned { MatchResult result (IsScanned text.now place) (IsMalformed text.now place) }
    ensures onwards { IfOk result (λ s. place < s.end) }
    ensures within { IfOk result (λ s. s.end ≤ length text.now) }
{
    let first = text[place];
    if is_space(first) {
        return Ok(Scanned {
            lexeme: None,
            end: place + 1,
        });
    }
    if is_letter(first) {
        return Ok(scan_word(text, place));
    }
    if is_digit(first) {
        return scan_number(text, place);
    }
    if first == b'$' && place + 1 < text.len() && text[place + 1] == b'(' {
        return scan_comment(text, place);
    }
    scan_symbol(text, place)
}

/// The keyword or name that stands at `place`.
fn scan_word(text: &[u8], place: usize) -> Scanned
    requires inside { place < length text.now }
    requires letter { IsTrue (letter_byte (slice_index text.now place)) }
    ensures scanned { IsScanned text.now place result }
    ensures onwards { place < result.end }
    ensures within { result.end ≤ length text.now }
{
    let end = word_end(text, place);
    let lexeme = match keyword(&text[place..end]) {
        Some(keyword) => Lexeme::Keyword(keyword),
        None => Lexeme::Name,
    };
    Scanned {
        lexeme: Some(lexeme),
        end,
    }
}

/// The number that stands at `place`.
fn scan_number(text: &[u8], place: usize) -> Result<Scanned, Malformed>
    requires inside { place < length text.now }
    requires size { length text.now ≤ MOST_CERTIFICATE_BYTES }
    requires digit { IsTrue (digit_byte (slice_index text.now place)) }
    ensures scanned { MatchResult result (IsScanned text.now place) (IsMalformed text.now place) }
    ensures onwards { IfOk result (λ s. place < s.end) }
    ensures within { IfOk result (λ s. s.end ≤ length text.now) }
{
    let digits = scan_digits(text, place);
    match digits.value {
        Some(value) => Ok(Scanned {
            lexeme: Some(Lexeme::Number(value as i64)),
            end: digits.end,
        }),
        None => Err(Malformed {
            span: span(place, digits.end),
            rule: Rule::NumberTooLarge,
        }),
    }
}

/// The comment that begins at `place`.
fn scan_comment(text: &[u8], place: usize) -> Result<Scanned, Malformed>
    requires size { length text.now ≤ MOST_CERTIFICATE_BYTES }
    requires opens { OpensComment text.now place }
    ensures scanned { MatchResult result (IsScanned text.now place) (IsMalformed text.now place) }
    ensures onwards { IfOk result (λ s. place < s.end) }
    ensures within { IfOk result (λ s. s.end ≤ length text.now) }
{
    match comment_end(text, place + 2) {
        Some(end) => Ok(Scanned { lexeme: None, end }),
        None => Err(Malformed {
            span: span(place, text.len()),
            rule: Rule::OpenComment,
        }),
    }
}

/// The symbol that stands at `place`, where no other piece does.
fn scan_symbol(text: &[u8], place: usize) -> Result<Scanned, Malformed>
    requires inside { place < length text.now }
    requires size { length text.now ≤ MOST_CERTIFICATE_BYTES }
    requires other { IsOther text.now place }
    ensures scanned { MatchResult result (IsScanned text.now place) (IsMalformed text.now place) }
    ensures onwards { IfOk result (λ s. place < s.end) }
    ensures within { IfOk result (λ s. s.end ≤ length text.now) }
{
    if let Some(symbol) = double_symbol_at(text, place) {
        return Ok(Scanned {
            lexeme: Some(Lexeme::Symbol(symbol)),
            end: place + 2,
        });
    }
    match single_symbol(text[place]) {
        Some(symbol) => Ok(Scanned {
            lexeme: Some(Lexeme::Symbol(symbol)),
            end: place + 1,
        }),
        None => Err(Malformed {
            span: span(place, place + 1),
            rule: Rule::BadByte,
        }),
    }
}

/// The symbol of two bytes that stands at `place`.
fn double_symbol_at(text: &[u8], place: usize) -> Option<Symbol>
    requires { place < length text.now }
    ensures { MatchOption result
        ((s : Symbol) → ¬ IsDoubleAt text.now place s)
        (IsDoubleAt text.now place) }
{
    if place + 1 < text.len() {
        double_symbol(text[place], text[place + 1])
    } else {
        None
    }
}

/// The bytes from `start` on and before `end`.
pub fn span(start: usize, end: usize) -> Span
    requires first { start < 2 ^ 32 }
    requires last { end < 2 ^ 32 }
    ensures { result ≡ record { start = start; end = end } }
{
    Span {
        start: start as u32,
        end: end as u32,
    }
}
