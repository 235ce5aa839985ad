ghost use Rattle.std.specs.Prelude.{All};
ghost use Rattle.sp_lexer.specs.Tokens.{IsUnsigned};
ghost use Rattle.sp_grammar.specs.Texts.{AnswersCounted, AnswersCountedOnly, AnswersText, AnswersTextOnly};
ghost use Rattle.sp_interface.specs.Counts.{over_interfaces, over_modules};
ghost use Rattle.sp_interface.specs.Hierarchies.{hierarchy_line};
ghost use Rattle.sp_interface.specs.Interfaces.{interface_line};
ghost use Rattle.sp_interface.specs.Mappings.{mapping_line};

use crate::hierarchy::counted_hierarchy;
use crate::interface::counted_interface;
use crate::mapping::mapping;
use sp_cursor::Tokens;
use sp_text::{TextFault, Token};
use sp_tree::{HierarchyTree, InterfaceTree, MappingTree};
use std::alloc::Global;

/// The interface that all the tokens are; `end` is the length of their text in bytes.
///
/// # Errors
/// Where the tokens are no interface within the limit of height, the fault is that of the first token up to and with
/// which they are a prefix of none: Limit height where the token exceeds that limit, else Unexpected; past the last
/// token its place is the end of the text. Where they are one with more than 32 modules, Limit modules at the 33rd,
/// repeated ones counted. `Memory` where the tree can't be kept.
pub fn parse_interface(
    alloc: Global,
    tokens: &[Token],
    end: u32,
) -> Result<InterfaceTree, TextFault>
    requires unsigned { All (λ t. IsUnsigned t.kind) tokens.now }
    ensures answers { AnswersCounted (interface_line tokens.now) over_modules tokens.now end result }

    // So where the tokens are an interface, its tree is the answer, or its limit, but for memory.
    ensures only { AnswersCountedOnly (interface_line tokens.now) over_modules tokens.now result }
{
    counted_interface(alloc, &mut Tokens::new(tokens, end))
}

/// The hierarchy that all the tokens are; `end` is the length of their text in bytes.
///
/// # Errors
/// Where the tokens are no hierarchy, Unexpected at the first token up to and with which they are a prefix of none;
/// past the last token its place is the end of the text. Where they are one with more than 16 different interfaces,
/// Limit interfaces at the first mention of the 17th. `Memory` where the tree can't be kept.
pub fn parse_hierarchy(
    alloc: Global,
    tokens: &[Token],
    end: u32,
) -> Result<HierarchyTree, TextFault>
    requires unsigned { All (λ t. IsUnsigned t.kind) tokens.now }
    ensures answers { AnswersCounted (hierarchy_line tokens.now) over_interfaces tokens.now end result }

    // So where the tokens are a hierarchy, its tree is the answer, or its limit, but for memory.
    ensures only { AnswersCountedOnly (hierarchy_line tokens.now) over_interfaces tokens.now result }
{
    counted_hierarchy(alloc, &mut Tokens::new(tokens, end))
}

/// The mapping that all the tokens are; `end` is the length of their text in bytes.
///
/// # Errors
/// Where the tokens are no mapping within the limit of height, the fault is that of the first token up to and with
/// which they are a prefix of none: Limit height where the token exceeds that limit, else Unexpected; past the last
/// token its place is the end of the text. `Memory` where the tree can't be kept.
pub fn parse_mapping(alloc: Global, tokens: &[Token], end: u32) -> Result<MappingTree, TextFault>
    requires unsigned { All (λ t. IsUnsigned t.kind) tokens.now }
    ensures answers { AnswersText (mapping_line tokens.now) tokens.now end result }

    // So where the tokens are a mapping, its tree is the answer, but for memory.
    ensures only { AnswersTextOnly (mapping_line tokens.now) tokens.now result }
{
    mapping(alloc, &mut Tokens::new(tokens, end))
}
