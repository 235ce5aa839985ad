//! Hierarchies.

ghost use Rattle.std.specs.Prelude.{◌≡◌, []};
ghost use Rattle.sp_grammar.specs.Lang.{has};
ghost use Rattle.sp_forms.specs.Cursors.{lookahead, Reads};
ghost use Rattle.sp_forms.specs.Grammars.{first};
ghost use Rattle.sp_forms.specs.Readers.{counted, read_line, read_text};
ghost use Rattle.sp_interface.specs.Counts.{over_interfaces};
ghost use Rattle.sp_interface.specs.Hierarchies.{hierarchy_grammar, row_line, rows_line};

use crate::counts::interface_over;
use sp_cursor::marks::{BY, END_HIERARCHY, HIERARCHY, OVER, SEMICOLON};
use sp_cursor::{Tokens, many};
use sp_text::{Sequence, TextFault};
use sp_tree::{HierarchyTree, Ident};
use std::alloc::Global;

/// An upper interface, a lower one and the mapping between them.
#[tactic(auto, unfolding(crate::specs::Hierarchies::row_line))]
fn row(alloc: Global, tokens: &mut Tokens<'_>) -> Result<(Ident, Ident, Ident), TextFault>
    ensures { Reads (read_line row_line tokens.old) result tokens.new }
{
    let upper = tokens.name(alloc)?;
    tokens.expect(OVER)?;
    let lower = tokens.name(alloc)?;
    tokens.expect(BY)?;
    let mapping = tokens.name(alloc)?;
    tokens.expect(SEMICOLON)?;
    Ok((upper, lower, mapping))
}

#[tactic(auto, unfolding(crate::specs::Hierarchies::row_line))]
fn begins_row(tokens: &Tokens<'_>) -> bool
    ensures { result ≡ has (first [] row_line) (lookahead tokens.now) }
{
    tokens.is_name()
}

fn rows(
    alloc: Global,
    tokens: &mut Tokens<'_>,
) -> Result<Sequence<(Ident, Ident, Ident)>, TextFault>
    ensures { Reads (read_line rows_line tokens.old) result tokens.new }
{
    many(alloc, tokens, begins_row, row)
}

/// The hierarchy that all the tokens are.
#[tactic(auto, unfolding(crate::specs::Hierarchies::hierarchy_grammar))]
fn hierarchy(alloc: Global, tokens: &mut Tokens<'_>) -> Result<HierarchyTree, TextFault>
    ensures { Reads (read_text hierarchy_grammar tokens.old) result tokens.new }
{
    tokens.expect(HIERARCHY)?;
    let name = tokens.name(alloc)?;
    let rows = rows(alloc, tokens)?;
    tokens.expect(END_HIERARCHY)?;
    tokens.finish()?;
    Ok(HierarchyTree { name, rows })
}

/// The hierarchy that all the tokens are, unless it has too many interfaces.
pub fn counted_hierarchy(alloc: Global, tokens: &mut Tokens<'_>) -> Result<HierarchyTree, TextFault>
    ensures { Reads (counted over_interfaces (read_text hierarchy_grammar) tokens.old) result tokens.new }
{
    let tree = hierarchy(alloc, tokens)?;
    match interface_over(alloc, &tree)? {
        Some(limit) => Err(TextFault::Limit(limit)),
        None => Ok(tree),
    }
}
