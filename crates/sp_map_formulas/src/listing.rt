//! The formulas of a row, and those of a mapping.

ghost use Rattle.std.specs.Prelude.{◌≡◌, [], length, IfOk, IfErr, OnOk};
ghost use Rattle.sp_core.specs.Mappings.{IsMappingTo};
ghost use Rattle.sp_sequent.specs.Numbers.{nodes_of};
ghost use Rattle.sp_sequent.specs.Subterms.{truths};
ghost use Rattle.sp_formulas.specs.Generated.{IsAdded, IsRefused, spot_of};
ghost use Rattle.sp_formulas.specs.Typed.{AreTypedFormulas};
ghost use Rattle.sp_map_formulas.specs.Listed.{IsMapListed};
ghost use Rattle.sp_map_formulas.specs.Rows.{map_formulas, row_formulas, row_spot};

use crate::laws::tell_map_typed;
use sp_core::{MapRow, Mapping, Spec};
use sp_formulas::{FormulaFault, Level, Place, Subject, walk};
use sp_pool::Pool;
use sp_sequent::{Formula, FormulaKind};
use std::alloc::Global;

/// Where the references of a row's value stand.
fn place(row: &MapRow) -> Place<'_>
    ensures { spot_of result [] ≡ row_spot row.now }
{
    Place {
        subject: Subject {
            kind: FormulaKind::MappingReference,
            fun: row.upper,
            name: &row.name,
            formals: row.formals.items(),
            known: 0,
        },
        upper: Level {
            term: &row.level,
            args: None,
        },
    }
}

/// Adds the formulas of a row.
fn add_row(
    alloc: Global,
    lower: &Spec,
    pool: &mut Pool,
    row: &MapRow,
    out: &mut Vec<Formula>,
) -> Result<(), FormulaFault>
    requires two { pool.old ≡ nodes_of truths }
    requires typed { AreTypedFormulas lower.now (row_formulas lower.now row.now) }
    ensures ok { OnOk result (IsAdded lower.now out.old.items out.new.items (row_formulas lower.now row.now)) }
    ensures refused { IfErr result (λ f. IsRefused lower.now (length out.old.items) (row_formulas lower.now row.now) f) }
    ensures two { pool.new ≡ nodes_of truths }
{
    let place = place(row);
    walk(alloc, lower, pool, &place, &[], &[], &row.value, out)
}

/// Adds the formulas of all rows.
fn add_rows(
    alloc: Global,
    lower: &Spec,
    pool: &mut Pool,
    m: &Mapping,
    out: &mut Vec<Formula>,
) -> Result<(), FormulaFault>
    requires two { pool.old ≡ nodes_of truths }
    requires typed { AreTypedFormulas lower.now (map_formulas lower.now m.now) }
    ensures ok { OnOk result (IsAdded lower.now out.old.items out.new.items (map_formulas lower.now m.now)) }
    ensures refused { IfErr result (λ f. IsRefused lower.now (length out.old.items) (map_formulas lower.now m.now) f) }
{
    for row in m.functions.items() {
        add_row(alloc, lower, pool, row, out)?;
    }
    Ok(())
}

/// The formulas of a mapping, where they are typed.
fn formulas_of(alloc: Global, lower: &Spec, m: &Mapping) -> Result<Vec<Formula>, FormulaFault>
    requires { AreTypedFormulas lower.now (map_formulas lower.now m.now) }
    ensures ok { IfOk result (λ all. IsMapListed lower.now m.now all.items) }
    ensures refused { IfErr result (λ f. IsRefused lower.now 0 (map_formulas lower.now m.now) f) }
{
    let Ok(mut pool) = Pool::new(alloc) else {
        return Err(FormulaFault::Memory);
    };
    let mut out = Vec::new(alloc);
    add_rows(alloc, lower, &mut pool, m, &mut out)?;
    Ok(out)
}

/// The formulas of a mapping to a lower specification, row by row.
///
/// # Errors
/// The first limit that they exceed, with the number of the formula, or `Memory`.
pub fn map_formulas(alloc: Global, lower: &Spec, m: &Mapping) -> Result<Vec<Formula>, FormulaFault>
    requires mapping { IsMappingTo lower.now m.now }
    ensures ok { IfOk result (λ all. IsMapListed lower.now m.now all.items) }
    ensures refused { IfErr result (λ f. IsRefused lower.now 0 (map_formulas lower.now m.now) f) }
{
    tell_map_typed(lower, m);
    formulas_of(alloc, lower, m)
}
