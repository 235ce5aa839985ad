ghost use Rattle.std.specs.Prelude.{◌≡◌, IsTrue};
ghost use Rattle.sp_core.specs.Instances.{IsInstanceOf, filling_of, sizes_of};
ghost use Rattle.sp_core.specs.Parts.{signature};
ghost use Rattle.sp_core.specs.Typing.{is_type};
ghost use Rattle.sp_core.specs.Values as meaning;
ghost use Rattle.sp_eval.specs.Settings as setting;
ghost use Rattle.sp_eval.specs.Settings.{proper_at};

use sp_core::{Instance, Spec};
use sp_values::{Ty, Value};

/// Whether it is TRUE.
pub fn is_true(value: Value) -> bool
    ensures { result ≡ meaning.is_true value }
{
    match value {
        Value::Truth(truth) => truth,
        _ => false,
    }
}

/// The number of a level.
pub fn level_number(value: Value) -> u16
    ensures { result ≡ meaning.level_number value }
{
    match value {
        Value::Level(level) => level,
        _ => 0,
    }
}

/// How many proper values a type has; those of INTEGER, over which no quantifier ranges, aren't counted.
pub fn population(spec: &Spec, inst: &Instance, ty: Ty) -> u16
    requires instance { IsInstanceOf spec.now inst.now }
    requires declared { IsTrue (is_type (signature spec.now) ty) }
    ensures { result ≡ setting.population (sizes_of spec.now (filling_of inst.now)) ty }
{
    match ty {
        Ty::Boolean => 2,
        Ty::Integer => 0,
        Ty::Level => spec.lattice().count(),
        Ty::Member(k) => inst.size(k),
    }
}

/// The proper value of this number, of a type other than INTEGER.
pub fn proper(ty: Ty, number: u16) -> Value
    ensures { result ≡ proper_at ty number }
{
    match ty {
        Ty::Boolean => Value::Truth(number != 0),
        Ty::Integer => Value::Unknown,
        Ty::Level => Value::Level(number),
        Ty::Member(k) => Value::Member(k, number),
    }
}
