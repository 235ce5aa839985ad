//! Whether the rows of a hierarchy stand in an order.

ghost use Rattle.std.specs.Prelude.{◌≡◌, [], OnOk};
ghost use Rattle.sp_frame.specs.Steps.{Demand, Does, StopsFor};
ghost use Rattle.sp_text.specs.declared.fault.Rule.TheVariants as rule;
ghost use Rattle.sp_hierarchy_rows.specs.Lowest as calls;
ghost use Rattle.sp_hierarchy_rows.specs.Lowest.{AreDifferent};
ghost use Rattle.sp_hierarchy_rows.specs.Rows.{IsAbove, IsUpper, RowJudged, RowsJudged, broken_row};

use sp_frame::{Stop, broken};
use sp_text::{Malformed, Name, Rule};
use sp_tree::{HierarchyTree, Ident};
use std::alloc::Global;

/// That no interface is the upper one of two rows, and none stands above itself, in the hierarchy of this file.
///
/// # Errors
/// `Refused` at the first row that breaks this, and `Memory`.
pub fn judge_rows(alloc: Global, file: &str, hierarchy: &HierarchyTree) -> Result<(), Stop>
    ensures { Does (RowsJudged file.now [] hierarchy.now.rows) result }
{
    judge_each(alloc, file, hierarchy.rows.items())
}

// Each row is judged in order.
fn judge_each(alloc: Global, file: &str, rows: &[(Ident, Ident, Ident)]) -> Result<(), Stop>
    ensures { Does (RowsJudged file.now [] rows.now) result }
{
    for (k, row) in rows.iter().enumerate() {
        judge_row(alloc, file, &rows[..k], row)?;
    }
    Ok(())
}

// The row behind these others is judged.
#[tactic(auto, using(sp_frame::proofs::Connective::does_refused))]
fn judge_row(
    alloc: Global,
    file: &str,
    before: &[(Ident, Ident, Ident)],
    row: &(Ident, Ident, Ident),
) -> Result<(), Stop>
    requires { AreDifferent before.now }
    ensures does { Does (RowJudged file.now before.now row.now) result }
    ensures single { OnOk result (¬ IsUpper before.now row.now.0.name) }
{
    demand_single(alloc, file, before, row)?;
    demand_order(alloc, file, before, row)
}

// That the upper interface of the row is none of those before.
fn demand_single(
    alloc: Global,
    file: &str,
    before: &[(Ident, Ident, Ident)],
    row: &(Ident, Ident, Ident),
) -> Result<(), Stop>
    ensures does { Does (Demand (¬ IsUpper before.now row.now.0.name) (broken_row file.now row.now rule.TwiceDeclared)) result }
    ensures single { OnOk result (¬ IsUpper before.now row.now.0.name) }
{
    if is_upper(before, &row.0.name) {
        return Err(broken_at(alloc, file, row, Rule::TwiceDeclared));
    }
    Ok(())
}

// That the lower interface of the row doesn't stand above the upper one.
fn demand_order(
    alloc: Global,
    file: &str,
    before: &[(Ident, Ident, Ident)],
    row: &(Ident, Ident, Ident),
) -> Result<(), Stop>
    requires different { AreDifferent before.now }
    requires single { ¬ IsUpper before.now row.now.0.name }
    ensures { Does (Demand (¬ IsAbove before.now row.now.1.name row.now.0.name) (broken_row file.now row.now rule.Cyclic)) result }
{
    if *lowest(before, &row.1.name) == row.0.name {
        return Err(broken_at(alloc, file, row, Rule::Cyclic));
    }
    Ok(())
}

// Why the work stops where the row breaks the rule.
fn broken_at(alloc: Global, file: &str, row: &(Ident, Ident, Ident), rule: Rule) -> Stop
    ensures { StopsFor (broken_row file.now row.now rule) result }
{
    let malformed = Malformed {
        span: row.0.span,
        rule,
    };
    broken(alloc, file.as_bytes(), malformed)
}

// Whether the interface is the upper one of a row.
fn is_upper(rows: &[(Ident, Ident, Ident)], name: &Name) -> bool
    ensures { result ≡ calls.is_upper rows.now name.now }
{
    if let [row, rest @ ..] = rows {
        if row.0.name == *name {
            return true;
        }
        return is_upper(rest, name);
    }
    false
}

// The interface to which the rows below this one lead last.
fn lowest<'a>(rows: &'a [(Ident, Ident, Ident)], name: &'a Name) -> &'a Name
    ensures { result.now ≡ calls.lowest rows.now name.now }
{
    if let [row, rest @ ..] = rows {
        let last = lowest(rest, name);
        if *last == row.0.name {
            return lowest(rest, &row.1.name);
        }
        return last;
    }
    name
}
