//! The names of a specification that was read from texts are words.
#![tactic(auto)]

ghost use Rattle.sp_plain_names.specs.Names.{PlainNamesLaw, SystemNamesLaw};

/// The names of a specification that was read from texts are letters, digits and `_`. It does nothing: its clause is the
/// law.
pub fn plain_names_law()
    ensures { PlainNamesLaw }
{}

/// So are those of the specification of a system that was read and judged.
pub fn system_names_law()
    ensures { SystemNamesLaw }
{}
