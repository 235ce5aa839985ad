//! Names that stand twice.

ghost use Rattle.std.specs.Prelude.{◌≡◌, [], IfOk};
ghost use Rattle.sp_text.specs.Violations.{first};
ghost use Rattle.sp_naming.specs.Names as names;
ghost use Rattle.sp_naming.specs.Names.{repeated_names};

use crate::index::note;
use indexmap::IndexMap;
use sp_text::{Memory, Rule, Span, Violation, breaks, earlier};
use sp_tree::Ident;
use std::alloc::Global;

/// What a name breaks that is known already, or isn't.
pub fn repeat_rule(known: bool, span: Span) -> Option<Violation>
    ensures { result ≡ first (names.repeat_rule known span) }
{
    if known {
        breaks(span, Rule::TwiceDeclared)
    } else {
        None
    }
}

/// The first of the names that an earlier one is.
///
/// # Errors
/// `Memory` where their index can't be stored.
pub fn first_repeated(alloc: Global, idents: &[Ident]) -> Result<Option<Violation>, Memory>
    ensures { IfOk result (λ found. found ≡ first (repeated_names [] idents.now)) }
{
    let mut index = IndexMap::new(alloc);
    let mut found = None;
    for (place, x) in idents.iter().enumerate() {
        let known = note(alloc, &mut index, x.name.bytes(), place)?;
        found = earlier(found, repeat_rule(known, x.span));
    }
    Ok(found)
}
