//! The sections of a module: each a keyword and its items, or nothing.

ghost use Rattle.sp_forms.specs.Cursors.{Reads};
ghost use Rattle.sp_forms.specs.Readers.{read_line};
ghost use Rattle.sp_parser.specs.Modules.{assertions_line, definitions_line, externals_line, parameters_line, types_line};

use crate::statements::{
    begins_definition, begins_external, begins_parameter, begins_statement, begins_type_decl,
    definition, external, parameter, statement, type_decl,
};
use sp_cursor::marks::{ASSERTIONS, DEFINITIONS, EXTERNALREFS, PARAMETERS, TYPES};
use sp_cursor::{Tokens, section};
use sp_text::{Sequence, TextFault};
use sp_tree::{ExprTree, Header, Ident, TypeDecl};
use std::alloc::Global;

/// The declarations of types.
pub fn types(alloc: Global, tokens: &mut Tokens<'_>) -> Result<Sequence<TypeDecl>, TextFault>
    ensures { Reads (read_line types_line tokens.old) result tokens.new }
{
    section(alloc, tokens, TYPES, begins_type_decl, type_decl)
}

/// The parameters.
pub fn parameters(alloc: Global, tokens: &mut Tokens<'_>) -> Result<Sequence<Header>, TextFault>
    ensures { Reads (read_line parameters_line tokens.old) result tokens.new }
{
    section(alloc, tokens, PARAMETERS, begins_parameter, parameter)
}

/// The definitions.
pub fn definitions(
    alloc: Global,
    tokens: &mut Tokens<'_>,
) -> Result<Sequence<(Header, ExprTree)>, TextFault>
    ensures { Reads (read_line definitions_line tokens.old) result tokens.new }
{
    section(alloc, tokens, DEFINITIONS, begins_definition, definition)
}

/// The names taken from other modules.
pub fn externals(
    alloc: Global,
    tokens: &mut Tokens<'_>,
) -> Result<Sequence<(Ident, Sequence<Ident>)>, TextFault>
    ensures { Reads (read_line externals_line tokens.old) result tokens.new }
{
    section(alloc, tokens, EXTERNALREFS, begins_external, external)
}

/// The assertions.
pub fn assertions(alloc: Global, tokens: &mut Tokens<'_>) -> Result<Sequence<ExprTree>, TextFault>
    ensures { Reads (read_line assertions_line tokens.old) result tokens.new }
{
    section(alloc, tokens, ASSERTIONS, begins_statement, statement)
}
