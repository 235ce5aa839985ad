//! Texts of each sort, read.

ghost use Rattle.std.specs.Prelude.{◌≤◌, All, IfOk, length};
ghost use Rattle.sp_lexer.specs.Tokens.{IsUnsigned};

use sp_instance_text::{parse_instance, parse_script};
use sp_interface::{parse_hierarchy, parse_interface, parse_mapping};
use sp_lexer::lex;
use sp_parser::parse_module;
use sp_text::{Limit, Malformed, Quantity, Rule, Span, TextFault, Token};
use sp_tree::Ident;
use std::alloc::Global;
use std::process::Abort;

/// A sort of text.
#[derive(Clone, Copy, Debug, PartialEq, Eq)]
pub enum Sort {
    Module,
    Interface,
    Hierarchy,
    Mapping,
    Instance,
    Script,
}

/// The tokens of the text; `Memory` for one of over 4096 bytes, which no test has.
pub fn tokens(alloc: Global, text: &[u8]) -> Result<Vec<Token>, TextFault>
    ensures unsigned { IfOk result (λ tokens. All (λ t. IsUnsigned t.kind) tokens.items) }
    ensures short { IfOk result (λ _. length text.now ≤ 4096) }
{
    if text.len() > 4096 {
        return Err(TextFault::Memory);
    }
    lex(alloc, text)
}

// Why the tokens are no text of this sort, if they aren't.
fn fault_of(alloc: Global, sort: Sort, tokens: &[Token], end: u32) -> Option<TextFault>
    requires { All (λ t. IsUnsigned t.kind) tokens.now }
{
    match sort {
        Sort::Module => parse_module(alloc, tokens, end).err(),
        Sort::Interface => parse_interface(alloc, tokens, end).err(),
        Sort::Hierarchy => parse_hierarchy(alloc, tokens, end).err(),
        Sort::Mapping => parse_mapping(alloc, tokens, end).err(),
        Sort::Instance => parse_instance(alloc, tokens, end).err(),
        Sort::Script => parse_script(alloc, tokens, end).err(),
    }
}

/// The fault of the text, if it doesn't read.
pub fn outcome(alloc: Global, sort: Sort, text: &[u8]) -> Option<TextFault> {
    match tokens(alloc, text) {
        Ok(tokens) => fault_of(alloc, sort, &tokens, text.len() as u32),
        Err(fault) => Some(fault),
    }
}

/// Asserts what fault the text has. The assertion stands here alone, since each costs the proof of a test much.
pub fn shows(rt: &impl Abort, alloc: Global, sort: Sort, text: &[u8], fault: Option<TextFault>) {
    assert_eq!(rt; outcome(alloc, sort, text), fault);
}

/// A text, and where it has its first token off.
pub type Off = (&'static [u8], u32, u32);

/// Asserts that each of the texts has its first token off at its place.
pub fn show_off(rt: &impl Abort, alloc: Global, sort: Sort, texts: &[Off]) {
    for (text, start, end) in texts {
        shows(rt, alloc, sort, text, unexpected(*start, *end));
    }
}

/// Asserts that each of the texts reads.
pub fn show_read(rt: &impl Abort, alloc: Global, sort: Sort, texts: &[&[u8]]) {
    for text in texts {
        shows(rt, alloc, sort, text, None);
    }
}

// Whether the text, cut at this place, reads if that is its end, and else breaks off there.
fn reads_or_breaks_off(alloc: Global, sort: Sort, text: &[u8], end: u32) -> bool {
    match text.get(..end as usize) {
        None => false,
        Some(front) if front.len() == text.len() => outcome(alloc, sort, front) == None,
        Some(front) => outcome(alloc, sort, front) == unexpected(end, end),
    }
}

/// Whether the text reads, and cut behind any other token than the last it breaks off at its end.
pub fn reads_whole_alone(alloc: Global, sort: Sort, text: &[u8]) -> bool {
    let Ok(tokens) = tokens(alloc, text) else {
        return false;
    };
    for token in &tokens {
        if !reads_or_breaks_off(alloc, sort, text, token.span.end) {
            return false;
        }
    }
    true
}

/// Whether the name is this one.
pub fn is(ident: &Ident, name: &[u8]) -> bool {
    ident.name.bytes() == name
}

pub fn span(start: u32, end: u32) -> Span {
    Span { start, end }
}

/// Unexpected, from one place to the other.
pub fn unexpected(start: u32, end: u32) -> Option<TextFault> {
    let span = Span { start, end };
    let rule = Rule::Unexpected;
    Some(TextFault::Malformed(Malformed { span, rule }))
}

/// A limit, from one place to the other.
pub fn exceeds(quantity: Quantity, start: u32, end: u32) -> Option<TextFault> {
    let span = Span { start, end };
    Some(TextFault::Limit(Limit { span, quantity }))
}
