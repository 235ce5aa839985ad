//! Texts that are divided into tokens and read by a grammar.

ghost use Rattle.std.specs.Prelude.{◌≤◌, ◌++◌, ℕ, All, IfOk, List, Result, length};
ghost use Rattle.std.specs.Str.{IsUtf8};
ghost use Rattle.sp_text.specs.declared.limits.TheConstants.{MOST_FILE_BYTES};
ghost use Rattle.sp_lexer.specs.Tokens.{IsUnsigned};
ghost use Rattle.sp_frame.specs.Loads.{Loads};
ghost use Rattle.sp_frame.specs.Steps.{Tells};
ghost use Rattle.sp_sorts.specs.Texts.{Answered, Grammar, IsTree, Lexed, TreeRead, text_sort};

use sp_frame::{LoadStop, Text, read_file, read_named};
use sp_lexer::lex;
use sp_outside::Library;
use sp_text::{MOST_FILE_BYTES, Name, Sequence, TextFault, Token};
use std::alloc::Global;

/// The tree of a text.
#[derive(Debug, Drop)]
pub struct Reading<T> {
    pub tree: T,
}

/// The trees of a grammar.
pub trait Parse: Drop {
    /// What the tokens of a text are read as.
    ghost grammar: { Grammar Self };

    /// The tree that all the tokens are; `end` is the length of their text in bytes.
    ///
    /// # Errors
    /// The fault of tokens that are none, and `Memory`.
    fn parse(alloc: Global, tokens: &[Token], end: u32) -> Result<Self, TextFault>
        requires { All (λ t. IsUnsigned t.kind) tokens.now }
        ensures { grammar tokens.now end result };
}

impl<T: Parse> Text for Reading<T> {
    ghost sort = { text_sort T.grammar };

    fn most() -> u32 {
        MOST_FILE_BYTES
    }

    #[tactic(auto, using(sp_frame::proofs::Connective::tells_after, sp_frame::proofs::Connective::tells_refused))]
    fn read(alloc: Global, text: &[u8]) -> Result<Reading<T>, TextFault> {
        let tokens = lexed(alloc, text)?;
        let end = text.len() as u32;
        let tree = parsed(alloc, tokens.items(), end)?;
        Ok(Reading { tree })
    }
}

/// The tokens of a text.
///
/// # Errors
/// The first fault, and `Memory`.
pub fn lexed(alloc: Global, text: &[u8]) -> Result<Sequence<Token>, TextFault>
    requires { length text.now ≤ MOST_FILE_BYTES }
    ensures tells { Tells (Lexed text.now) result }
    ensures unsigned { IfOk result (λ tokens. All (λ t. IsUnsigned t.kind) tokens) }
{
    let tokens = lex(alloc, text)?;
    Ok(Sequence::new(tokens))
}

// The tree that the tokens of a text of `end` bytes are.
#[tactic(auto, using(crate::proofs::Definite::tells_answered))]
fn parsed<T: Parse>(alloc: Global, tokens: &[Token], end: u32) -> Result<T, TextFault>
    requires { All (λ t. IsUnsigned t.kind) tokens.now }
    ensures { Tells (Answered (T.grammar tokens.now end)) result }
{
    T::parse(alloc, tokens, end)
}

/// The tree of the text of a file.
///
/// # Errors
/// `Refused` where it can't be loaded or has a fault, `ReadFault` where it can't be read, and `Memory`.
#[tactic(auto, using(sp_frame::proofs::Connective::loads_refused, sp_frame::proofs::Connective::loads_gives))]
pub fn read_tree<T: Parse, L: Library>(
    alloc: Global,
    lib: &mut L,
    name: &str,
) -> Result<T, LoadStop>
    ensures loads { Loads L.told L.faults lib.old lib.new (TreeRead T.grammar name.now) result }
    ensures reading { IfOk result (IsTree T.grammar) }
{
    let text: Reading<T> = read_file(alloc, lib, name)?;
    Ok(text.tree)
}

/// The tree of the text of the file that is called as a name, with an ending.
///
/// # Errors
/// As `read_tree`.
#[tactic(auto, using(sp_frame::proofs::Connective::loads_refused, sp_frame::proofs::Connective::loads_gives))]
pub fn read_named_tree<T: Parse, L: Library>(
    alloc: Global,
    lib: &mut L,
    name: &Name,
    ending: &str,
) -> Result<T, LoadStop>
    requires { IsUtf8 name.now }
    ensures loads { Loads L.told L.faults lib.old lib.new (TreeRead T.grammar (name.now ++ ending.now)) result }
    ensures reading { IfOk result (IsTree T.grammar) }
{
    let text: Reading<T> = read_named(alloc, lib, name, ending)?;
    Ok(text.tree)
}
