ghost use Rattle.std.specs.Prelude.{◌≡◌, [], ◌∷◌, IfOk};
ghost use Rattle.sp_examples.specs.Common.{AreOverLowHigh, low};
ghost use Rattle.sp_map_formulas_tests.specs.Worked.{number_function, number_mapping, one_number};

use crate::theorems::number_is_mapped;
use sp_core::{Expr, Formal, Function, Kind, MapRow, Mapping, Spec};
use sp_examples::{function, look_at, low_high, two_names};
use sp_formulas::FormulaFault;
use sp_map_formulas::map_formulas;
use sp_sequent::{Formula, FormulaKind};
use sp_text::{Memory, Name, Sequence};
use sp_values::{Ty, Value};
use std::alloc::Global;
use std::test::Fail;

fn low() -> Expr
    ensures { result ≡ low }
{
    Expr::Const(Value::Level(0))
}

fn no_formals(alloc: Global) -> Sequence<Formal>
    ensures { result ≡ [] }
{
    Sequence::new(Vec::new(alloc))
}

fn functions(alloc: Global) -> Result<Vec<Function>, Memory>
    ensures { IfOk result (λ all. all.items ≡ number_function ∷ []) }
{
    let kind = Kind::Primitive(Ty::Integer, Expr::Const(Value::Int(0)));
    let mut functions = Vec::new(alloc);
    functions.push(function(alloc, b"a", no_formals(alloc), kind, low())?)?;
    Ok(functions)
}

fn number(alloc: Global) -> Result<Spec, Memory>
    ensures { IfOk result (AreOverLowHigh one_number) }
{
    number_is_mapped();
    let name = Name::new(alloc, b"number")?;
    let lattice = low_high(alloc)?;
    let levels = two_names(alloc, b"LOW", b"HIGH")?;
    let types = Vec::new(alloc);
    let params = Vec::new(alloc);
    let assertions = Vec::new(alloc);
    let functions = functions(alloc)?;
    Ok(Spec::assemble(name, lattice, levels, types, params, assertions, functions))
}

fn mapping(alloc: Global) -> Result<Mapping, Memory>
    ensures { IfOk result (λ m. m ≡ number_mapping) }
{
    let name = Name::new(alloc, b"down")?;
    let mut rows = Vec::new(alloc);
    rows.push(MapRow {
        upper: 3,
        name: Name::new(alloc, b"data")?,
        formals: no_formals(alloc),
        value: look_at(alloc, 0),
        level: low(),
    })?;
    Ok(Mapping {
        name,
        types: Sequence::new(Vec::new(alloc)),
        functions: Sequence::new(rows),
    })
}

fn listed(alloc: Global, spec: &Spec, m: &Mapping) -> Result<Vec<Formula>, FormulaFault>
    requires spec { AreOverLowHigh one_number spec.now }
    requires mapping { m.now ≡ number_mapping }
{
    number_is_mapped();
    spec.lattice();
    map_formulas(alloc, spec, m)
}

fn are_the_row(list: &[Formula]) -> bool {
    let [formula] = list else {
        return false;
    };
    formula.fun == 3 && formula.kind == FormulaKind::MappingReference
}

#[test]
fn a_row_has_one_formula(rt: HostRuntime) -> Result<(), Fail> {
    let spec = number(rt.alloc())?;
    let mapping = mapping(rt.alloc())?;
    let list = listed(rt.alloc(), &spec, &mapping)?;
    assert!(rt; are_the_row(&list));
    Ok(())
}
