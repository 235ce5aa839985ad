//! What a mapping's text breaks.

ghost use Rattle.std.specs.Prelude.{◌≡◌, IfOk, map};
ghost use Rattle.sp_text.specs.Violations.{first};
ghost use Rattle.sp_functions.specs.Equations.{equation_name};
ghost use Rattle.sp_instance.specs.Heads.{names_in};
ghost use Rattle.sp_judge.specs.Translation.{AreFine};
ghost use Rattle.sp_mapping_rules.specs.Mappings.{front_broken, rows_broken};
ghost use Rattle.sp_mapping_rules.specs.Mappings as spec;
ghost use Rattle.sp_mapping_rules.specs.Functions as functions_spec;
ghost use Rattle.sp_mapping_rules.specs.Parameters as params_spec;
ghost use Rattle.sp_mapping_rules.specs.Types as types_spec;
ghost use Rattle.sp_mapping_rules.specs.Types.{type_head};
ghost use Rattle.sp_mapping.specs.Named.{AreHeads};

use sp_core::{Expr, Spec};
use sp_functions::all_flags;
use sp_instance::{NameList, all_names, list_names};
use sp_judge::Scope;
use sp_mapping_rows::{
    functions_missing, judge_functions, judge_lattices, judge_params, judge_types, params_missing,
    row_heads, type_heads, types_missing,
};
use sp_text::{Memory, Violation, earlier, otherwise};
use sp_tree::{Equation, MappingTree};
use std::alloc::Global;

/// The names that the rows of a mapping are of.
#[derive(Drop)]
pub struct Heads {
    pub types: NameList,
    pub parameters: NameList,
    pub functions: NameList,
}

fn named_rows(alloc: Global, rows: &[Equation]) -> Result<NameList, Memory>
    ensures { IfOk result (λ names. names ≡ names_in (map equation_name rows.now)) }
{
    let heads = row_heads(alloc, rows)?;
    list_names(alloc, &heads)
}

fn named_types(alloc: Global, m: &MappingTree) -> Result<NameList, Memory>
    ensures { IfOk result (λ names. names ≡ names_in (map type_head m.now.types)) }
{
    let heads = type_heads(alloc, m.types.items())?;
    list_names(alloc, &heads)
}

/// The names that the rows of the mapping are of.
///
/// # Errors
/// `Memory` where they can't be stored.
pub fn heads_of(alloc: Global, m: &MappingTree) -> Result<Heads, Memory>
    ensures { IfOk result (AreHeads m.now) }
{
    let types = named_types(alloc, m)?;
    let parameters = named_rows(alloc, m.parameters.items())?;
    let functions = named_rows(alloc, m.functions.items())?;
    Ok(Heads {
        types,
        parameters,
        functions,
    })
}

// What upper types break that no row is of.
#[tactic(auto, using(crate::proofs::Missing::same_types))]
fn judge_types_missing(upper: &Spec, heads: &Heads, m: &MappingTree) -> Option<Violation>
    requires { AreHeads m.now heads.now }
    ensures { result ≡ first (types_spec.types_missing m.now.name.span m.now.types upper.now.types) }
{
    types_missing(m.name.span, &heads.types, upper.types())
}

// The same of parameters.
#[tactic(auto, using(crate::proofs::Missing::same_params))]
fn judge_params_missing(upper: &Spec, heads: &Heads, m: &MappingTree) -> Option<Violation>
    requires { AreHeads m.now heads.now }
    ensures { result ≡ first (params_spec.params_missing m.now.name.span m.now.parameters upper.now.params) }
{
    params_missing(m.name.span, &heads.parameters, upper.params())
}

// The same of primitive V-functions.
#[tactic(auto, using(crate::proofs::Missing::same_functions))]
fn judge_functions_missing(upper: &Spec, heads: &Heads, m: &MappingTree) -> Option<Violation>
    requires { AreHeads m.now heads.now }
    ensures { result ≡ first (functions_spec.functions_missing m.now.name.span m.now.functions upper.now.functions) }
{
    functions_missing(m.name.span, &heads.functions, upper.functions())
}

// What lacks a row.
fn judge_missing(upper: &Spec, heads: &Heads, m: &MappingTree) -> Option<Violation>
    requires { AreHeads m.now heads.now }
    ensures { result ≡ first (spec.all_missing upper.now m.now) }
{
    let types = judge_types_missing(upper, heads, m);
    let params = judge_params_missing(upper, heads, m);
    let functions = judge_functions_missing(upper, heads, m);
    earlier(types, earlier(params, functions))
}

/// The first of what the lattices and the rows of types break, and of what lacks a row.
///
/// # Errors
/// `Memory` where what is around can't be stored.
pub fn judge_front(
    alloc: Global,
    upper: &Spec,
    lower: &Spec,
    scope: &Scope,
    heads: &Heads,
    m: &MappingTree,
) -> Result<Option<Violation>, Memory>
    requires { AreHeads m.now heads.now }
    ensures { IfOk result (λ found. found ≡ first (front_broken upper.now lower.now scope.now m.now)) }
{
    let all = all_names(alloc, upper)?;
    let lattice = judge_lattices(m.name.span, upper, lower);
    let types = judge_types(alloc, upper, &all, lower, scope, m.types.items())?;
    let missing = judge_missing(upper, heads, m);
    Ok(earlier(lattice, earlier(types, missing)))
}

/// The first of what the rows of parameters break, or else of what those of functions do.
///
/// # Errors
/// `Memory` where what is around can't be stored.
pub fn judge_rows(
    alloc: Global,
    upper: &Spec,
    scope: &Scope,
    types: &[u16],
    cores: &[Expr],
    m: &MappingTree,
) -> Result<Option<Violation>, Memory>
    requires types { types.now ≡ spec.types_in upper.now scope.now m.now }
    requires cores { cores.now ≡ spec.cores_in upper.now scope.now m.now }
    requires fine { AreFine scope.now.cores }
    requires few { AreFine cores.now }
    ensures { IfOk result (λ found. found ≡ first (rows_broken upper.now scope.now m.now)) }
{
    let all = all_names(alloc, upper)?;
    let flags = all_flags(alloc, scope.names.functions())?;
    let rows = m.parameters.items();
    let params = judge_params(alloc, upper, &all, scope, &flags, types, rows)?;
    let functions = judge_functions(alloc, upper, scope, types, cores, m.functions.items())?;
    Ok(otherwise(params, functions))
}
