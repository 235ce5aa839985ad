ghost use Rattle.std.specs.Prelude.{All};
ghost use Rattle.sp_lexer.specs.Tokens.{IsUnsigned};
ghost use Rattle.sp_grammar.specs.Texts.{AnswersText, AnswersTextOnly};
ghost use Rattle.sp_instance_text.specs.Instances.{instance_line};
ghost use Rattle.sp_instance_text.specs.Scripts.{script_line};

use crate::instance::instance;
use crate::script::script;
use sp_cursor::Tokens;
use sp_text::{TextFault, Token};
use sp_tree::{InstanceTree, ScriptTree};
use std::alloc::Global;

/// The instance that all the tokens are; `end` is the length of their text in bytes.
///
/// # Errors
/// Where the tokens are no instance, Unexpected at the first token up to and with which they are a prefix of none;
/// past the last token its place is the end of the text. `Memory` where the tree can't be kept.
pub fn parse_instance(alloc: Global, tokens: &[Token], end: u32) -> Result<InstanceTree, TextFault>
    requires unsigned { All (λ t. IsUnsigned t.kind) tokens.now }
    ensures answers { AnswersText (instance_line tokens.now) tokens.now end result }

    // So where the tokens are an instance, its tree is the answer, but for memory.
    ensures only { AnswersTextOnly (instance_line tokens.now) tokens.now result }
{
    instance(alloc, &mut Tokens::new(tokens, end))
}

/// The script that all the tokens are; `end` is the length of their text in bytes.
///
/// # Errors
/// Where the tokens are no script, Unexpected at the first token up to and with which they are a prefix of none; past
/// the last token its place is the end of the text. `Memory` where the tree can't be kept.
pub fn parse_script(alloc: Global, tokens: &[Token], end: u32) -> Result<ScriptTree, TextFault>
    requires unsigned { All (λ t. IsUnsigned t.kind) tokens.now }
    ensures answers { AnswersText (script_line tokens.now) tokens.now end result }

    // So where the tokens are a script, its tree is the answer, but for memory.
    ensures only { AnswersTextOnly (script_line tokens.now) tokens.now result }
{
    script(alloc, &mut Tokens::new(tokens, end))
}
