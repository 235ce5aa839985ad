ghost use Rattle.std.specs.Prelude.{All};
ghost use Rattle.sp_lexer.specs.Tokens.{IsUnsigned};
ghost use Rattle.sp_grammar.specs.Texts.{AnswersText, AnswersTextOnly};
ghost use Rattle.sp_parser.specs.Modules.{module_line};

use crate::module::module;
use sp_cursor::Tokens;
use sp_text::{TextFault, Token};
use sp_tree::Module;
use std::alloc::Global;

/// The module that all the tokens are; `end` is the length of their text in bytes.
///
/// # Errors
/// Where the tokens are no module within the limits of height and of the nesting of effects, the fault is that of the first
/// token up to and with which they are a prefix of no such module: Limit height or Limit effect nesting where the token
/// exceeds that limit, else Unexpected; past the last token its place is the end of the text. `Memory` where the tree
/// can't be kept.
pub fn parse_module(alloc: Global, tokens: &[Token], end: u32) -> Result<Module, TextFault>
    requires unsigned { All (λ t. IsUnsigned t.kind) tokens.now }
    ensures answers { AnswersText (module_line tokens.now) tokens.now end result }

    // So where the tokens are a module, its tree is the answer, but for memory.
    ensures only { AnswersTextOnly (module_line tokens.now) tokens.now result }
{
    module(alloc, &mut Tokens::new(tokens, end))
}
