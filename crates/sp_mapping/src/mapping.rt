//! Mappings.

ghost use Rattle.std.specs.Prelude.{◌≡◌, [], IfOk, List};
ghost use Rattle.sp_text.specs.Violations.{Judges, first};
ghost use Rattle.sp_text.specs.declared.violation.Violation.{Violation as ViolationValue};
ghost use Rattle.sp_core.specs.Mappings.{IsMappingTo};
ghost use Rattle.sp_core.specs.WellFormed.{IsWellFormed};
ghost use Rattle.sp_core.specs.declared.mapping.Mapping.{Mapping as MappingValue};
ghost use Rattle.sp_elaborate.specs.Views.{cores_from};
ghost use Rattle.sp_judge.specs.Translation.{AreFine};
ghost use Rattle.sp_specification.specs.Ends.{whole_view};
ghost use Rattle.sp_mapping_laws.specs.Laws.{AreNumbered};
ghost use Rattle.sp_mapping_rules.specs.Lower.{AreNamesOf};
ghost use Rattle.sp_mapping_rules.specs.Mappings as spec;
ghost use Rattle.sp_mapping_rules.specs.Mappings.{mapping_broken, mapping_of, seen_broken};
ghost use Rattle.sp_mapping_rules.specs.Upper.{IsMappingFrom};
ghost use Rattle.sp_mapping.specs.Named.{AreHeads};

use crate::judging::{Heads, heads_of, judge_front, judge_rows};
use sp_bodies::view_cores;
use sp_core::{Expr, Mapping, Spec};
use sp_judge::Scope;
use sp_making::tell_numbers_of;
use sp_mapping_laws::mapping_law;
use sp_mapping_rows::{make_rows, param_cores, type_numbers};
use sp_naming::counted;
use sp_scopes::Scopes;
use sp_text::{Memory, Name, Sequence, TextFault, Violation, otherwise};
use sp_tree::MappingTree;
use std::alloc::Global;

fn tell_well_formed(spec: &Spec)
    ensures { IsWellFormed spec.now }
{
    let _name = spec.name();
}

// The numbers in definitions and in the mapping's text are in range, as those of every text are.
fn tell_numbers(scopes: &Scopes, m: &MappingTree)
    ensures { AreNumbered scopes.now m.now }
{
    tell_numbers_of(scopes.definitions(), m.parameters.items(), &[]);
    tell_numbers_of(scopes.definitions(), m.functions.items(), &[]);
}

// The expressions of the upper parameters, which keep within the limit of quantifiers.
#[tactic(auto, using(crate::proofs::Cores::fine_cores))]
fn cores_of(
    alloc: Global,
    upper: &Spec,
    scope: &Scope,
    types: &[u16],
    heads: &Heads,
    m: &MappingTree,
) -> Result<Vec<Expr>, Memory>
    requires heads { AreHeads m.now heads.now }
    requires types { types.now ≡ spec.types_in upper.now scope.now m.now }
    requires fine { AreFine scope.now.cores }
    ensures cores { IfOk result (λ all. all.items ≡ spec.cores_in upper.now scope.now m.now) }
    ensures fine { IfOk result (λ all. AreFine all.items) }
{
    let rows = m.parameters.items();
    let cores = param_cores(alloc, scope, types, rows, &heads.parameters, upper.params())?;
    Ok(cores)
}

fn types_of(
    alloc: Global,
    upper: &Spec,
    scope: &Scope,
    heads: &Heads,
    m: &MappingTree,
) -> Result<Vec<u16>, Memory>
    requires { AreHeads m.now heads.now }
    ensures { IfOk result (λ all. all.items ≡ spec.types_in upper.now scope.now m.now) }
{
    let rows = m.types.items();
    let types = type_numbers(alloc, scope, rows, &heads.types, upper.types())?;
    Ok(types)
}

// The mapping that the tree stands for, where a part that exceeds a limit is `?`.
fn make(
    alloc: Global,
    upper: &Spec,
    scope: &Scope,
    types: Vec<u16>,
    cores: &[Expr],
    m: &MappingTree,
) -> Result<Mapping, Memory>
    requires types { types.items ≡ spec.types_in upper.now scope.now m.now }
    requires cores { cores.now ≡ spec.cores_in upper.now scope.now m.now }
    requires fine { AreFine scope.now.cores }
    requires few { AreFine cores.now }
    ensures { IfOk result (λ r. r ≡ spec.seen_mapping upper.now scope.now m.now) }
{
    let name = Name::new(alloc, m.name.name.bytes())?;
    let rows = make_rows(alloc, upper, scope, &types, cores, m.functions.items())?;
    Ok(Mapping {
        name,
        types: Sequence::new(types),
        functions: Sequence::new(rows),
    })
}

// The mapping, unless something is broken.
fn unless(found: Option<Violation>, made: Mapping) -> Result<Mapping, TextFault>
    ensures { (vs : List ViolationValue) (whole : MappingValue) → found ≡ first vs → made ≡ whole → Judges vs (λ r. r ≡ whole) result }
{
    match found {
        Some(found) => Err(TextFault::from(found)),
        None => Ok(made),
    }
}

// The mapping, with the first of what the tree breaks, where the scope is what the lower interface sees.
fn judge(
    alloc: Global,
    upper: &Spec,
    lower: &Spec,
    scope: &Scope,
    m: &MappingTree,
) -> Result<(Option<Violation>, Mapping), Memory>
    requires { AreFine scope.now.cores }
    ensures found { IfOk result (λ r. r.0 ≡ first (seen_broken upper.now lower.now scope.now m.now)) }
    ensures made { IfOk result (λ r. r.1 ≡ spec.seen_mapping upper.now scope.now m.now) }
{
    let heads = heads_of(alloc, m)?;
    let front = judge_front(alloc, upper, lower, scope, &heads, m)?;
    let types = types_of(alloc, upper, scope, &heads, m)?;
    let cores = cores_of(alloc, upper, scope, &types, &heads, m)?;
    let rows = judge_rows(alloc, upper, scope, &types, &cores, m)?;
    let found = otherwise(front, rows);
    let made = make(alloc, upper, scope, types, &cores, m)?;
    Ok((found, made))
}

fn elaborate_seen(
    alloc: Global,
    upper: &Spec,
    lower: &Spec,
    scope: &Scope,
    m: &MappingTree,
) -> Result<Mapping, TextFault>
    requires { AreFine scope.now.cores }
    ensures { Judges (seen_broken upper.now lower.now scope.now m.now) (λ r. r ≡ spec.seen_mapping upper.now scope.now m.now) result }
{
    let judged = judge(alloc, upper, lower, scope, m)?;
    unless(judged.0, judged.1)
}

// The same with all names of the lower interface, whose definitions have these expressions between these levels.
fn elaborate_between(
    alloc: Global,
    upper: &Spec,
    lower: &Spec,
    scopes: &Scopes,
    bottom: u16,
    top: u16,
    cores: &[Expr],
    m: &MappingTree,
) -> Result<Mapping, TextFault>
    requires cores { cores.now ≡ cores_from scopes.now bottom top [] scopes.now.definitions }
    requires fine { AreFine cores.now }
    ensures { Judges (seen_broken upper.now lower.now (whole_view scopes.now bottom top) m.now) (λ r. r ≡ spec.seen_mapping upper.now (whole_view scopes.now bottom top) m.now) result }
{
    let whole = Scope {
        names: scopes,
        module_number: counted(0, scopes.modules()),
        cores,
        bottom,
        top,
    };
    elaborate_seen(alloc, upper, lower, &whole, m)
}

#[tactic(auto, using(crate::proofs::Cores::at_ends))]
fn elaborate_named(
    alloc: Global,
    upper: &Spec,
    lower: &Spec,
    scopes: &Scopes,
    m: &MappingTree,
) -> Result<Mapping, TextFault>
    ensures { Judges (mapping_broken upper.now lower.now scopes.now m.now) (λ r. r ≡ mapping_of upper.now lower.now scopes.now m.now) result }
{
    let lattice = lower.lattice();
    let bottom = lattice.bottom();
    let top = lattice.top();
    let cores = view_cores(alloc, scopes, bottom, top)?;
    elaborate_between(alloc, upper, lower, scopes, bottom, top, &cores, m)
}

/// The mapping from an upper specification to a lower one that the tree stands for; the names are all those of the lower
/// interface.
///
/// # Errors
/// The first rule or limit that the tree breaks; `Memory` where the mapping can't be stored.
pub fn elaborate_mapping(
    alloc: Global,
    upper: &Spec,
    lower: &Spec,
    scopes: &Scopes,
    m: &MappingTree,
) -> Result<Mapping, TextFault>
    requires { AreNamesOf lower.now scopes.now }
    ensures judges { Judges (mapping_broken upper.now lower.now scopes.now m.now) (λ r. r ≡ mapping_of upper.now lower.now scopes.now m.now) result }
    ensures to { IfOk result (IsMappingTo lower.now) }
    ensures from { IfOk result (IsMappingFrom upper.now lower.now) }
{
    tell_well_formed(upper);
    tell_well_formed(lower);
    tell_numbers(scopes, m);
    mapping_law();
    elaborate_named(alloc, upper, lower, scopes, m)
}
