//! The level equations of functions.

ghost use Rattle.std.specs.Prelude.{◌≡◌, ◌++◌, IfOk, OnOk, option_copied};
ghost use Rattle.sp_core.specs.Tree.{tree};
ghost use Rattle.sp_judge.specs.Translation.{AreFine};
ghost use Rattle.sp_functions.specs.Equations as spec_equations;
ghost use Rattle.sp_specification.specs.Ends as spec;

use crate::expression::make;
use sp_core::Expr;
use sp_judge::{Meaning, Scope};
use sp_naming::Entity;
use sp_scopes::{Head, Local};
use sp_text::{Memory, Name};
use sp_tree::{Equation, Ident};
use std::alloc::Global;

fn is_of(scope: &Scope, g: usize, equation: &Equation) -> bool
    ensures { result ≡ spec.is_of scope.now g equation.now }
{
    let found = scope
        .names
        .find(scope.module_number, equation.name.name.bytes());
    match found {
        None => false,
        Some(Entity::Function(h)) => h as usize == g,
        Some(Entity::Declared(_)) => false,
        Some(Entity::Member(..)) => false,
        Some(Entity::Param(_)) => false,
        Some(Entity::Definition(_)) => false,
        Some(Entity::Level(_)) => false,
    }
}

/// The level equation of function `g`, the first that has its name.
pub fn equation_of<'a>(scope: &Scope, equations: &'a [Equation], g: usize) -> Option<&'a Equation>
    ensures { option_copied result ≡ spec.equation_of scope.now equations.now g }
{
    equations.iter().find(|equation| is_of(scope, g, equation))
}

// The head of the function that an equation is of.
fn head_of<'a>(scope: &'a Scope, equation: &Equation) -> Option<&'a Head>
    ensures { option_copied result ≡ spec_equations.head_of scope.now equation.now }
{
    match scope
        .names
        .find(scope.module_number, equation.name.name.bytes())
    {
        None => None,
        Some(Entity::Function(g)) => scope.head_of(Meaning::Shared(Entity::Function(g))),
        Some(Entity::Declared(_)) => None,
        Some(Entity::Member(..)) => None,
        Some(Entity::Param(_)) => None,
        Some(Entity::Definition(_)) => None,
        Some(Entity::Level(_)) => None,
    }
}

fn formals_of<'a>(head: Option<&'a Head>) -> &'a [Local]
    ensures { result.now ≡ spec_equations.formals_of (option_copied head.entry) }
{
    match head {
        None => &[],
        Some(head) => head.formals.items(),
    }
}

fn with_type(alloc: Global, name: &Ident, formal: &Local) -> Result<Local, Memory>
    ensures { IfOk result (λ l. l ≡ spec_equations.with_type name.now formal.now) }
{
    Ok(Local {
        name: Name::new(alloc, name.name.bytes())?,
        ty: formal.ty,
    })
}

fn push_types(
    alloc: Global,
    all: &mut Vec<Local>,
    names: &[Ident],
    formals: &[Local],
) -> Result<(), Memory>
    ensures { OnOk result (all.new.items ≡ all.old.items ++ spec_equations.with_types names.now formals.now) }
{
    if let [name, names @ ..] = names {
        if let [formal, formals @ ..] = formals {
            all.push(with_type(alloc, name, formal)?)?;
            return push_types(alloc, all, names, formals);
        }
    }
    Ok(())
}

// The variables of an equation's term.
fn locals_of(alloc: Global, scope: &Scope, equation: &Equation) -> Result<Vec<Local>, Memory>
    ensures { IfOk result (λ all. all.items ≡ spec_equations.locals_of scope.now equation.now) }
{
    let formals = formals_of(head_of(scope, equation));
    let mut all = Vec::new(alloc);
    push_types(alloc, &mut all, equation.formals.items(), formals)?;
    Ok(all)
}

/// The level that an equation gives.
///
/// # Errors
/// `Memory` where it can't be stored.
pub fn make_level(alloc: Global, scope: &Scope, equation: &Equation) -> Result<Expr, Memory>
    requires { AreFine scope.now.cores }
    ensures { IfOk result (λ x. tree x ≡ spec.level_tree scope.now equation.now) }
{
    let locals = locals_of(alloc, scope, equation)?;
    make(alloc, scope, &locals, &equation.value)
}
