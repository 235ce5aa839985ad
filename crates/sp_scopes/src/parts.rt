//! What the modules of an interface declare by their headers, one module after the other.

ghost use Rattle.std.specs.Prelude.{◌≡◌, [], ◌∷◌, ◌++◌, IfOk, OnOk, map};
ghost use Rattle.sp_scopes.specs.Heads as spec_heads;
ghost use Rattle.sp_scopes.specs.Lent as spec_lent;
ghost use Rattle.sp_scopes.specs.Scopes.{module_takes};

use crate::heads::{Head, function_heads, parameter_heads};
use crate::lent::{Definition, module_definitions};
use sp_naming::{Declared, Names, after, taken};
use sp_text::Memory;
use sp_tree::{Ident, Module};
use std::alloc::Global;

/// What each module takes from others, and the heads and definitions of all of them.
#[derive(Drop)]
pub struct Parts {
    pub takes: Vec<Names>,
    pub parameters: Vec<Head>,
    pub definitions: Vec<Definition>,
    pub functions: Vec<Head>,
}

fn push_module(
    alloc: Global,
    parts: &mut Parts,
    declared: &Declared,
    modules: &[Ident],
    k: u16,
    text: &Module,
) -> Result<(), Memory>
    ensures takes { OnOk result (parts.new.takes.items ≡ parts.old.takes.items ++ module_takes declared.now modules.now text.now ∷ []) }
    ensures parameters { OnOk result (parts.new.parameters.items
        ≡ parts.old.parameters.items ++ spec_heads.parameter_heads declared.now modules.now k text.now) }
    ensures definitions { OnOk result (parts.new.definitions.items
        ≡ parts.old.definitions.items ++ spec_lent.module_definitions declared.now modules.now k text.now) }
    ensures functions { OnOk result (parts.new.functions.items
        ≡ parts.old.functions.items ++ spec_heads.function_heads declared.now modules.now k text.now) }
{
    let names = taken(alloc, declared, modules, text.externals.items())?;
    let mut parameters = parameter_heads(alloc, declared, k, &names, text.parameters.items())?;
    let mut definitions = module_definitions(alloc, declared, k, &names, text.definitions.items())?;
    let mut functions = function_heads(alloc, declared, k, &names, text.functions.items())?;
    parts.parameters.append(&mut parameters)?;
    parts.definitions.append(&mut definitions)?;
    parts.functions.append(&mut functions)?;
    parts.takes.push(names)?;
    Ok(())
}

/// What the modules take and declare; MODULES has these names.
///
/// # Errors
/// `Memory` where it can't be stored.
pub fn parts_of(
    alloc: Global,
    declared: &Declared,
    names: &[Ident],
    modules: &[Module],
) -> Result<Parts, Memory>
    ensures takes { IfOk result (λ parts. parts.takes.items ≡ map (module_takes declared.now names.now) modules.now) }
    ensures parameters { IfOk result (λ parts. parts.parameters.items ≡ spec_lent.all_parameters declared.now names.now modules.now) }
    ensures definitions { IfOk result (λ parts. parts.definitions.items ≡ spec_lent.all_definitions declared.now names.now modules.now) }
    ensures functions { IfOk result (λ parts. parts.functions.items ≡ spec_lent.all_functions declared.now names.now modules.now) }
{
    let mut number = 0;
    let mut parts = Parts {
        takes: Vec::new(alloc),
        parameters: Vec::new(alloc),
        definitions: Vec::new(alloc),
        functions: Vec::new(alloc),
    };
    for text in modules {
        push_module(alloc, &mut parts, declared, names, number, text)?;
        number = after(number);
    }
    Ok(parts)
}
