//! Instances.

ghost use Rattle.std.specs.Prelude.{◌≡◌, []};
ghost use Rattle.sp_grammar.specs.Lang.{has};
ghost use Rattle.sp_forms.specs.Cursors.{lookahead, Reads};
ghost use Rattle.sp_forms.specs.Grammars.{first};
ghost use Rattle.sp_forms.specs.Readers.{read_line, read_text};
ghost use Rattle.sp_instance_text.specs.Instances.{instance_grammar, members_line, other_line, population_line, populations_line, row_line, rows_line, table_line, tables_line};

use crate::value::{value, values};
use sp_cursor::lines::{begins_names, names};
use sp_cursor::marks::{
    COLON, END_INSTANCE, EQUAL, INSTANCE, LEFT_BRACE, LEFT_PARENTHESIS, OTHERWISE, PARAMETER,
    POPULATION, RIGHT_BRACE, SEMICOLON,
};
use sp_cursor::{Tokens, many};
use sp_text::{Sequence, TextFault};
use sp_tree::{Ident, InstanceTree, TableTree, ValueTree};
use std::alloc::Global;

/// Names, with their braces.
#[tactic(auto, unfolding(crate::specs::Instances::members_line))]
fn members(alloc: Global, tokens: &mut Tokens<'_>) -> Result<Sequence<Ident>, TextFault>
    ensures { Reads (read_line members_line tokens.old) result tokens.new }
{
    tokens.expect(LEFT_BRACE)?;
    if !begins_names(tokens) {
        tokens.expect(RIGHT_BRACE)?;
        return Ok(Sequence::new(Vec::new(alloc)));
    }
    let members = names(alloc, tokens)?;
    tokens.expect(RIGHT_BRACE)?;
    Ok(members)
}

/// The members of a type.
#[tactic(auto, unfolding(crate::specs::Instances::population_line))]
fn population(alloc: Global, tokens: &mut Tokens<'_>) -> Result<(Ident, Sequence<Ident>), TextFault>
    ensures { Reads (read_line population_line tokens.old) result tokens.new }
{
    tokens.expect(POPULATION)?;
    let name = tokens.name(alloc)?;
    tokens.expect(EQUAL)?;
    let members = members(alloc, tokens)?;
    tokens.expect(SEMICOLON)?;
    Ok((name, members))
}

#[tactic(auto, unfolding(crate::specs::Instances::population_line))]
fn begins_population(tokens: &Tokens<'_>) -> bool
    ensures { result ≡ has (first [] population_line) (lookahead tokens.now) }
{
    tokens.is(POPULATION)
}

fn populations(
    alloc: Global,
    tokens: &mut Tokens<'_>,
) -> Result<Sequence<(Ident, Sequence<Ident>)>, TextFault>
    ensures { Reads (read_line populations_line tokens.old) result tokens.new }
{
    many(alloc, tokens, begins_population, population)
}

/// Arguments and their value.
#[tactic(auto, unfolding(crate::specs::Instances::row_line))]
fn row(
    alloc: Global,
    tokens: &mut Tokens<'_>,
) -> Result<(Sequence<ValueTree>, ValueTree), TextFault>
    ensures { Reads (read_line row_line tokens.old) result tokens.new }
{
    let arguments = values(alloc, tokens)?;
    tokens.expect(EQUAL)?;
    let value = value(alloc, tokens)?;
    tokens.expect(SEMICOLON)?;
    Ok((arguments, value))
}

#[tactic(auto, unfolding(crate::specs::Instances::row_line, crate::specs::Values::values_line))]
fn begins_row(tokens: &Tokens<'_>) -> bool
    ensures { result ≡ has (first [] row_line) (lookahead tokens.now) }
{
    tokens.is(LEFT_PARENTHESIS)
}

fn rows(
    alloc: Global,
    tokens: &mut Tokens<'_>,
) -> Result<Sequence<(Sequence<ValueTree>, ValueTree)>, TextFault>
    ensures { Reads (read_line rows_line tokens.old) result tokens.new }
{
    many(alloc, tokens, begins_row, row)
}

/// The value of all other arguments.
#[tactic(auto, unfolding(crate::specs::Instances::other_line))]
fn other(alloc: Global, tokens: &mut Tokens<'_>) -> Result<ValueTree, TextFault>
    ensures { Reads (read_line other_line tokens.old) result tokens.new }
{
    tokens.expect(OTHERWISE)?;
    let value = value(alloc, tokens)?;
    tokens.expect(SEMICOLON)?;
    Ok(value)
}

/// The table of a parameter.
#[tactic(auto, unfolding(crate::specs::Instances::table_line))]
fn table(alloc: Global, tokens: &mut Tokens<'_>) -> Result<TableTree, TextFault>
    ensures { Reads (read_line table_line tokens.old) result tokens.new }
{
    tokens.expect(PARAMETER)?;
    let name = tokens.name(alloc)?;
    tokens.expect(COLON)?;
    let rows = rows(alloc, tokens)?;
    let other = other(alloc, tokens)?;
    Ok(TableTree { name, rows, other })
}

#[tactic(auto, unfolding(crate::specs::Instances::table_line))]
fn begins_table(tokens: &Tokens<'_>) -> bool
    ensures { result ≡ has (first [] table_line) (lookahead tokens.now) }
{
    tokens.is(PARAMETER)
}

fn tables(alloc: Global, tokens: &mut Tokens<'_>) -> Result<Sequence<TableTree>, TextFault>
    ensures { Reads (read_line tables_line tokens.old) result tokens.new }
{
    many(alloc, tokens, begins_table, table)
}

/// The instance that all the tokens are.
#[tactic(auto, unfolding(crate::specs::Instances::instance_grammar))]
pub fn instance(alloc: Global, tokens: &mut Tokens<'_>) -> Result<InstanceTree, TextFault>
    ensures { Reads (read_text instance_grammar tokens.old) result tokens.new }
{
    tokens.expect(INSTANCE)?;
    let name = tokens.name(alloc)?;
    let populations = populations(alloc, tokens)?;
    let tables = tables(alloc, tokens)?;
    tokens.expect(END_INSTANCE)?;
    tokens.finish()?;
    Ok(InstanceTree {
        name,
        populations,
        tables,
    })
}
