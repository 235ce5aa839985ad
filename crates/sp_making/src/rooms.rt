//! Whether the variables of texts can be numbered, as those of all texts of limited height can.

ghost use Rattle.std.specs.Prelude.{◌≡◌, IfOk, IsTrue, length};
ghost use Rattle.std.specs.List.{All};
ghost use Rattle.sp_functions.specs.Equations as spec_equations;
ghost use Rattle.sp_functions.specs.Exceptions.{HaveRoom};

use sp_definitions::has_room;
use sp_scopes::Local;
use sp_text::{Memory, Name};
use sp_tree::{Equation, ExprTree, Ident};
use sp_values::Ty;
use std::alloc::Global;

/// The same of the conditions of exceptions with these formals.
#[tactic(auto, using(crate::proofs::Numbered::conditions_next))]
pub fn have_exception_room(formals: &[Local], exceptions: &[(Ident, ExprTree)]) -> bool
    ensures { IsTrue result → HaveRoom (length formals.now) exceptions.now }
{
    for exception in exceptions {
        if !has_room(formals, &exception.1) {
            return false;
        }
    }
    true
}

// As many variables as there are names.
fn variables(alloc: Global, names: &[Ident]) -> Result<Vec<Local>, Memory>
    ensures { IfOk result (λ all. length all.items ≡ length names.now) }
{
    let mut all = Vec::new(alloc);
    for name in names {
        all.push(Local {
            name: Name::new(alloc, name.name.bytes())?,
            ty: Ty::Boolean,
        })?;
    }
    Ok(all)
}

fn has_equation_room(alloc: Global, equation: &Equation) -> Result<bool, Memory>
    ensures { IfOk result (λ b. IsTrue b → spec_equations.HasRoom equation.now) }
{
    let locals = variables(alloc, equation.formals.items())?;
    Ok(has_room(&locals, &equation.value))
}

/// The same of level equations.
///
/// # Errors
/// `Memory` where their variables can't be stored.
#[tactic(auto, using(crate::proofs::Numbered::equations_next))]
pub fn have_equation_room(alloc: Global, equations: &[Equation]) -> Result<bool, Memory>
    ensures { IfOk result (λ b. IsTrue b → All spec_equations.HasRoom equations.now) }
{
    for equation in equations {
        if !has_equation_room(alloc, equation)? {
            return Ok(false);
        }
    }
    Ok(true)
}
