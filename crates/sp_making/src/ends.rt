//! What the levels of functions break.

ghost use Rattle.std.specs.Prelude.{◌≡◌, [], IfOk, if◌then◌else◌, nat_lt, option_copied};
ghost use Rattle.sp_text.specs.declared.fault.Quantity.TheVariants as quantity;
ghost use Rattle.sp_text.specs.declared.limits.TheConstants.{MOST_FUNCTION_NODES};
ghost use Rattle.sp_text.specs.Violations as violations;
ghost use Rattle.sp_text.specs.Violations.{first, first_in_files};
ghost use Rattle.sp_core.specs.Measures.{function_nodes};
ghost use Rattle.sp_judge.specs.Translation.{AreFine};
ghost use Rattle.sp_elaborate.specs.Views.{cores_from};
ghost use Rattle.sp_functions.specs.Equations.{equations_broken};
ghost use Rattle.sp_specification.specs.Ends as spec;
ghost use Rattle.sp_specification.specs.Functions.{nodes_of};
ghost use Rattle.sp_making.specs.Seen as seen;
ghost use Rattle.sp_making.specs.Seen.{at_module};

use crate::counting::count_function;
use crate::equations::equation_of;
use crate::function::make_function;
use crate::rooms::have_equation_room;
use sp_core::{Expr, Function};
use sp_functions::{all_flags, judge_equations};
use sp_judge::Scope;
use sp_naming::{after, counted};
use sp_scopes::{Head, Scopes};
use sp_text::{
    FileViolation, MOST_FUNCTION_NODES, Memory, Quantity, Rule, Span, Violation, breaks, earlier,
    earlier_in_files, exceeds, in_file,
};
use sp_tree::{Equation, FunDecl, InterfaceTree, Module};
use sqlite_items::at;
use std::alloc::Global;

fn judge_nodes(place: Span, f: &Function) -> Result<Option<Violation>, Memory>
    ensures { IfOk result (λ r. r ≡ first (if nat_lt MOST_FUNCTION_NODES (function_nodes f.now) then violations.exceeds place quantity.FunctionNodes else [])) }
{
    let nodes = count_function(f)?;
    if nodes > MOST_FUNCTION_NODES as u64 {
        Ok(exceeds(place, Quantity::FunctionNodes))
    } else {
        Ok(None)
    }
}

// Whether a function with this head and level equation has too many nodes.
#[tactic(auto, using(crate::proofs::Counts::same_nodes))]
fn judge_size(
    alloc: Global,
    whole: &Scope,
    k: u16,
    head: &Head,
    x: &FunDecl,
    equation: &Equation,
) -> Result<Option<Violation>, Memory>
    requires { AreFine whole.now.cores }
    ensures { IfOk result (λ r. r ≡ first (if nat_lt MOST_FUNCTION_NODES (nodes_of (at_module whole.now k) head.now x.now (spec.level_tree whole.now equation.now)) then violations.exceeds x.now.head.name.span quantity.FunctionNodes else [])) }
{
    let function = make_function(alloc, whole, k, head, x, equation)?;
    judge_nodes(x.head.name.span, &function)
}

fn judge_level(
    alloc: Global,
    whole: &Scope,
    k: u16,
    head: Option<&Head>,
    x: &FunDecl,
    equation: Option<&Equation>,
) -> Result<Option<Violation>, Memory>
    requires { AreFine whole.now.cores }
    ensures { IfOk result (λ r. r ≡ first (spec.level_broken (at_module whole.now k) whole.now (option_copied head.entry) x.now (option_copied equation.entry))) }
{
    match equation {
        None => Ok(breaks(x.head.name.span, Rule::NoLevel)),
        Some(equation) => match head {
            None => Ok(None),
            Some(head) => judge_size(alloc, whole, k, head, x, equation),
        },
    }
}

// The first of what the levels of functions of module `k` break, of which the first has number `g`.
fn judge_levels(
    alloc: Global,
    whole: &Scope,
    k: u16,
    equations: &[Equation],
    g: u16,
    xs: &[FunDecl],
) -> Result<Option<Violation>, Memory>
    requires { AreFine whole.now.cores }
    ensures { IfOk result (λ r. r ≡ first (spec.levels_broken (at_module whole.now k) whole.now equations.now g xs.now)) }
{
    let [x, rest @ ..] = xs else {
        return Ok(None);
    };
    let head = at(whole.names.functions(), g as usize);
    let equation = equation_of(whole, equations, g as usize);
    let here = judge_level(alloc, whole, k, head, x, equation)?;
    let later = judge_levels(alloc, whole, k, equations, after(g), rest)?;
    Ok(earlier(here, later))
}

fn judge_modules(
    alloc: Global,
    whole: &Scope,
    equations: &[Equation],
    k: u16,
    g: u16,
    modules: &[Module],
) -> Result<Option<FileViolation>, Memory>
    requires { AreFine whole.now.cores }
    ensures { IfOk result (λ r. r ≡ first_in_files (seen.modules_broken whole.now equations.now k g modules.now)) }
{
    let [first, rest @ ..] = modules else {
        return Ok(None);
    };
    let functions = first.functions.items();
    let here = judge_levels(alloc, whole, k, equations, g, functions)?;
    let next = counted(g, functions.len());
    let later = judge_modules(alloc, whole, equations, after(k), next, rest)?;
    Ok(earlier_in_files(in_file(counted(1, k as usize), here), later))
}

fn judge_all_equations(
    alloc: Global,
    whole: &Scope,
    equations: &[Equation],
) -> Result<Option<Violation>, Memory>
    requires { AreFine whole.now.cores }
    ensures { IfOk result (λ r. r ≡ first (equations_broken whole.now equations.now)) }
{
    if !have_equation_room(alloc, equations)? {
        return Err(Memory);
    }
    let flags = all_flags(alloc, whole.names.functions())?;
    judge_equations(alloc, whole, &flags, equations)
}

// Where the equations break nothing, they are as few as the functions, so that few are searched for each function's.
#[tactic(auto, using(crate::proofs::Earlier::own_first, crate::proofs::Earlier::others_first))]
fn judge_seen(
    alloc: Global,
    whole: &Scope,
    equations: &[Equation],
    modules: &[Module],
) -> Result<Option<FileViolation>, Memory>
    requires { AreFine whole.now.cores }
    ensures { IfOk result (λ r. r ≡ first_in_files (seen.ends_broken whole.now equations.now modules.now)) }
{
    match judge_all_equations(alloc, whole, equations)? {
        Some(found) => Ok(in_file(0, Some(found))),
        None => judge_modules(alloc, whole, equations, 0, 0, modules),
    }
}

/// The first of what the level equations of an interface and the levels of its functions break, where these are the
/// expressions of the definitions between these levels.
///
/// # Errors
/// `Memory` where what is around can't be stored, or where effects break a limit, which are judged before.
pub fn judge_ends(
    alloc: Global,
    scopes: &Scopes,
    bottom: u16,
    top: u16,
    cores: &[Expr],
    interface: &InterfaceTree,
    modules: &[Module],
) -> Result<Option<FileViolation>, Memory>
    requires cores { cores.now ≡ cores_from scopes.now bottom top [] scopes.now.definitions }
    requires fine { AreFine cores.now }
    ensures { IfOk result (λ r. r ≡ first_in_files (spec.ends_broken scopes.now bottom top interface.now modules.now)) }
{
    let whole = Scope {
        names: scopes,
        module_number: counted(0, scopes.modules()),
        cores,
        bottom,
        top,
    };
    judge_seen(alloc, &whole, interface.levels.items(), modules)
}
