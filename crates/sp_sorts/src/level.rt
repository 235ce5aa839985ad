//! The word for a level.

ghost use Rattle.std.specs.Prelude.{◌≡◌, ◌<◌, ◌≤◌, IfOk, IfSome, OnOk, length, position};
ghost use Rattle.std.specs.Str.{bytes_eq};
ghost use Rattle.sp_text.specs.declared.limits.TheConstants.{MOST_FILE_BYTES, MOST_LEVELS};
ghost use Rattle.sp_frame.specs.declared.refusal.Refusal.TheVariants as refusal;
ghost use Rattle.sp_frame.specs.Steps.{Demand, Does, Tells};
ghost use Rattle.sp_sorts.specs.Levels as levels;
ghost use Rattle.sp_sorts.specs.Levels.{LevelJudged, LevelRead, level_of};

use crate::reading::lexed;
use sp_frame::{Refusal, Stop, judged};
use sp_text::{Keyword, MOST_FILE_BYTES, Malformed, Name, Rule, Span, TextFault, Token, TokenKind};
use std::alloc::Global;

/// The level that the word is, of the levels of these names in order; `least` and `greatest` are called BOTTOM and TOP.
///
/// # Errors
/// `Refused` where it is none, as for a text of the name LEVEL, and `Memory`.
#[tactic(auto, using(sp_frame::proofs::Connective::does_after, sp_frame::proofs::Connective::does_refused, sp_frame::proofs::Connective::judged_after))]
pub fn judge_level(
    alloc: Global,
    names: &[Name],
    least: u16,
    greatest: u16,
    word: &str,
) -> Result<u16, Stop>
    requires few { length names.now ≤ MOST_LEVELS }
    requires ends { (least < length names.now) × (greatest < length names.now) }
    ensures does { Does (LevelJudged names.now least greatest word.now) result }
    ensures level { IfOk result (λ level. level < length names.now) }
{
    bound_word(word.as_bytes())?;
    judged(
        alloc,
        b"LEVEL",
        read_level(alloc, names, least, greatest, word.as_bytes()),
    )
}

// That the word isn't too long.
fn bound_word(word: &[u8]) -> Result<(), Stop>
    ensures does { Does (Demand (length word.now ≤ MOST_FILE_BYTES) refusal.LongWord) result }
    ensures within { OnOk result (length word.now ≤ MOST_FILE_BYTES) }
{
    if word.len() <= MOST_FILE_BYTES as usize {
        return Ok(());
    }
    Err(Stop::Refused(Refusal::LongWord))
}

// The level that the text is read as.
#[tactic(auto, using(sp_frame::proofs::Connective::tells_after, sp_frame::proofs::Connective::tells_refused))]
fn read_level(
    alloc: Global,
    names: &[Name],
    least: u16,
    greatest: u16,
    word: &[u8],
) -> Result<u16, TextFault>
    requires few { length names.now ≤ MOST_LEVELS }
    requires ends { (least < length names.now) × (greatest < length names.now) }
    requires within { length word.now ≤ MOST_FILE_BYTES }
    ensures tells { Tells (LevelRead names.now least greatest word.now) result }
    ensures level { IfOk result (λ level. level < length names.now) }
{
    let tokens = lexed(alloc, word)?;
    level_of_tokens(names, least, greatest, tokens.items(), word.len() as u32)
}

// The level that the tokens of a text of `end` bytes are.
fn level_of_tokens(
    names: &[Name],
    least: u16,
    greatest: u16,
    tokens: &[Token],
    end: u32,
) -> Result<u16, TextFault>
    requires few { length names.now ≤ MOST_LEVELS }
    requires ends { (least < length names.now) × (greatest < length names.now) }
    ensures tells { Tells (λ out. out ≡ level_of names.now least greatest end tokens.now) result }
    ensures level { IfOk result (λ level. level < length names.now) }
{
    match tokens {
        [] => Err(broken_at(Span { start: end, end }, Rule::Unexpected)),
        [token] => level_at(names, least, greatest, token),
        [_, second, ..] => Err(broken_at(second.span, Rule::Unexpected)),
    }
}

// The level that the token is.
fn level_at(names: &[Name], least: u16, greatest: u16, token: &Token) -> Result<u16, TextFault>
    requires few { length names.now ≤ MOST_LEVELS }
    requires ends { (least < length names.now) × (greatest < length names.now) }
    ensures tells { Tells (λ out. out ≡ levels.level_at names.now least greatest token.now.span token.now.kind) result }
    ensures level { IfOk result (λ level. level < length names.now) }
{
    match &token.kind {
        TokenKind::Name(name) => match level_named(names, name) {
            Some(level) => Ok(level),
            None => Err(broken_at(token.span, Rule::UnknownName)),
        },
        TokenKind::Word(Keyword::Bottom) => Ok(least),
        TokenKind::Word(Keyword::Top) => Ok(greatest),
        _ => Err(broken_at(token.span, Rule::UnknownName)),
    }
}

// The number of the level of this name.
fn level_named(names: &[Name], name: &Name) -> Option<u16>
    requires { length names.now ≤ MOST_LEVELS }
    ensures place { result ≡ position (λ other. bytes_eq other name.now) names.now }
    ensures level { IfSome result (λ level. level < length names.now) }
{
    match place_of(names, name) {
        Some(place) => Some(place as u16),
        None => None,
    }
}

fn place_of(names: &[Name], name: &Name) -> Option<usize>
    ensures place { result ≡ position (λ other. bytes_eq other name.now) names.now }
    ensures level { IfSome result (λ place. place < length names.now) }
{
    names.iter().position(|other| *other == *name)
}

// A rule that is broken at a place.
fn broken_at(span: Span, rule: Rule) -> TextFault
    ensures { result ≡ levels.broken_at span rule }
{
    TextFault::Malformed(Malformed { span, rule })
}
