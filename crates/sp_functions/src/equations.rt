//! The level equations of an interface.

ghost use Rattle.std.specs.Prelude.{◌≡◌, ◌++◌, IfOk, OnOk, length, map, option_copied};
ghost use Rattle.std.specs.List.{All, flat_map};
ghost use Rattle.sp_text.specs.Violations.{first};
ghost use Rattle.sp_plain.specs.Text.{text};
ghost use Rattle.sp_judge.specs.Broken as spec_broken;
ghost use Rattle.sp_judge.specs.Translation.{AreFine};
ghost use Rattle.sp_judge.specs.Visible.{see};
ghost use Rattle.sp_functions.specs.Equations as spec;
ghost use Rattle.sp_functions.specs.Equations.{HasRoom, equation_name};
ghost use Rattle.sp_functions.specs.Judged as spec_judged;

use crate::judging::judge_level;
use sp_judge::{Meaning, Scope, count_rule};
use sp_naming::{Entity, first_repeated};
use sp_scopes::{Head, Local};
use sp_text::{Memory, Name, Rule, Violation, breaks, earlier, otherwise};
use sp_tree::{Equation, Ident};
use std::alloc::Global;

// What the name of an equation breaks.
fn judge_name(scope: &Scope, equation: &Equation) -> Option<Violation>
    ensures { result ≡ first (spec.function_rule equation.now.name.span (see scope.now equation.now.name.name)) }
{
    let place = equation.name.span;
    match scope
        .names
        .find(scope.module_number, equation.name.name.bytes())
    {
        None => breaks(place, Rule::UnknownName),
        Some(Entity::Function(_)) => None,
        Some(Entity::Declared(_)) => breaks(place, Rule::WrongKind),
        Some(Entity::Member(..)) => breaks(place, Rule::WrongKind),
        Some(Entity::Param(_)) => breaks(place, Rule::WrongKind),
        Some(Entity::Definition(_)) => breaks(place, Rule::WrongKind),
        Some(Entity::Level(_)) => breaks(place, Rule::WrongKind),
    }
}

// The head of the function that an equation is of.
fn head_of<'a>(scope: &'a Scope, equation: &Equation) -> Option<&'a Head>
    ensures { option_copied result ≡ spec.head_of scope.now equation.now }
{
    match scope
        .names
        .find(scope.module_number, equation.name.name.bytes())
    {
        None => None,
        Some(Entity::Function(g)) => scope.head_of(Meaning::Shared(Entity::Function(g))),
        Some(Entity::Declared(_)) => None,
        Some(Entity::Member(..)) => None,
        Some(Entity::Param(_)) => None,
        Some(Entity::Definition(_)) => None,
        Some(Entity::Level(_)) => None,
    }
}

fn formals_of<'a>(head: Option<&'a Head>) -> &'a [Local]
    ensures { result.now ≡ spec.formals_of (option_copied head.entry) }
{
    match head {
        None => &[],
        Some(head) => head.formals.items(),
    }
}

fn with_type(alloc: Global, name: &Ident, formal: &Local) -> Result<Local, Memory>
    ensures { IfOk result (λ l. l ≡ spec.with_type name.now formal.now) }
{
    Ok(Local {
        name: Name::new(alloc, name.name.bytes())?,
        ty: formal.ty,
    })
}

fn push_types(
    alloc: Global,
    all: &mut Vec<Local>,
    names: &[Ident],
    formals: &[Local],
) -> Result<(), Memory>
    ensures { OnOk result (all.new.items ≡ all.old.items ++ spec.with_types names.now formals.now) }
{
    if let [name, names @ ..] = names {
        if let [formal, formals @ ..] = formals {
            all.push(with_type(alloc, name, formal)?)?;
            return push_types(alloc, all, names, formals);
        }
    }
    Ok(())
}

fn with_types(alloc: Global, names: &[Ident], formals: &[Local]) -> Result<Vec<Local>, Memory>
    ensures { IfOk result (λ all. all.items ≡ spec.with_types names.now formals.now) }
{
    let mut all = Vec::new(alloc);
    push_types(alloc, &mut all, names, formals)?;
    Ok(all)
}

// The variables of an equation's term.
fn locals_of(alloc: Global, scope: &Scope, equation: &Equation) -> Result<Vec<Local>, Memory>
    ensures { IfOk result (λ all. all.items ≡ spec.locals_of scope.now equation.now) }
{
    let formals = formals_of(head_of(scope, equation));
    with_types(alloc, equation.formals.items(), formals)
}

// Whether there are as many names as formals.
fn judge_count(scope: &Scope, equation: &Equation) -> Option<Violation>
    ensures { result ≡ first (spec_broken.count_rule equation.now.name.span (spec.head_of scope.now equation.now) (length equation.now.formals)) }
{
    let count = equation.formals.items().len();
    count_rule(equation.name.span, head_of(scope, equation), count)
}

#[tactic(auto, using(crate::proofs::Equated::with_room))]
fn judge_term(
    alloc: Global,
    scope: &Scope,
    flags: &[bool],
    equation: &Equation,
) -> Result<Option<Violation>, Memory>
    requires flags { flags.now ≡ spec_judged.all_flags scope.now.names.functions }
    requires fine { AreFine scope.now.cores }
    requires room { HasRoom equation.now }
    ensures { IfOk result (λ r. r ≡ first (spec_judged.level_broken scope.now (spec.locals_of scope.now equation.now) (text equation.now.value))) }
{
    let locals = locals_of(alloc, scope, equation)?;
    judge_level(alloc, scope, flags, &locals, &equation.value)
}

fn judge_equation(
    alloc: Global,
    scope: &Scope,
    flags: &[bool],
    equation: &Equation,
) -> Result<Option<Violation>, Memory>
    requires flags { flags.now ≡ spec_judged.all_flags scope.now.names.functions }
    requires fine { AreFine scope.now.cores }
    requires room { HasRoom equation.now }
    ensures { IfOk result (λ r. r ≡ first (spec.equation_broken scope.now equation.now)) }
{
    let twice = first_repeated(alloc, equation.formals.items())?;
    let term = judge_term(alloc, scope, flags, equation)?;
    let head = earlier(judge_name(scope, equation), twice);
    Ok(otherwise(otherwise(head, judge_count(scope, equation)), term))
}

fn names_of(alloc: Global, equations: &[Equation]) -> Result<Vec<Ident>, Memory>
    ensures { IfOk result (λ names. names.items ≡ map equation_name equations.now) }
{
    let mut names = Vec::new(alloc);
    for equation in equations {
        names.push(equation.name.copy(alloc)?)?;
    }
    Ok(names)
}

#[tactic(auto, using(crate::proofs::Equated::room_at))]
fn judge_each(
    alloc: Global,
    scope: &Scope,
    flags: &[bool],
    equations: &[Equation],
) -> Result<Option<Violation>, Memory>
    requires flags { flags.now ≡ spec_judged.all_flags scope.now.names.functions }
    requires fine { AreFine scope.now.cores }
    requires room { All HasRoom equations.now }
    ensures { IfOk result (λ r. r ≡ first (flat_map (spec.equation_broken scope.now) equations.now)) }
{
    let mut found = None;
    for equation in equations {
        found = earlier(found, judge_equation(alloc, scope, flags, equation)?);
    }
    Ok(found)
}

/// The first of what the level equations of an interface break, where the scope is the interface's and the flags are those of all
/// V-functions.
///
/// # Errors
/// `Memory` where what is around can't be stored.
pub fn judge_equations(
    alloc: Global,
    scope: &Scope,
    flags: &[bool],
    equations: &[Equation],
) -> Result<Option<Violation>, Memory>
    requires flags { flags.now ≡ spec_judged.all_flags scope.now.names.functions }
    requires fine { AreFine scope.now.cores }
    requires room { All HasRoom equations.now }
    ensures { IfOk result (λ r. r ≡ first (spec.equations_broken scope.now equations.now)) }
{
    let names = names_of(alloc, equations)?;
    let twice = first_repeated(alloc, &names)?;
    let each = judge_each(alloc, scope, flags, equations)?;
    Ok(earlier(twice, each))
}
