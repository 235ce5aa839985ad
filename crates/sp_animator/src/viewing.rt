//! What a lower machine lets see of an upper one.

ghost use Rattle.std.specs.Prelude.{◌≡◌, ◌<◌, Some, length, map, slice_get};
ghost use Rattle.sp_core.specs.Instances.{filling_of, machine_of};
ghost use Rattle.sp_core.specs.States.{entry_of};
ghost use Rattle.sp_eval.specs.Conditions.{IsGiven};
ghost use Rattle.sp_animator.specs.Views as views;
ghost use Rattle.sp_core.specs.Mappings.{IsMappingTo};
ghost use Rattle.sp_animator.specs.Views.{IsMapped, IsView};

use sp_core::{Instance, Mapping, Spec, State};
use sp_eval::{Env, eval};
use sp_values::{Args, Place, Value};

// The value, where a member of an upper type is the member of the same number of the lower type.
fn translated(types: &[u16], value: Value) -> Value
    ensures { result ≡ views.translated types.now value }
{
    let Value::Member(k, number) = value else {
        return value;
    };
    match types.get(k as usize) {
        Some(lower) => Value::Member(*lower, number),
        None => Value::Unknown,
    }
}

fn value_at(values: &[Value], number: usize) -> Value
    requires { number < length values.now }
    ensures { slice_get values.now number ≡ Some result }
{
    values[number]
}

// The values with their types translated.
fn translate(types: &[u16], args: &Args) -> Args
    ensures { result ≡ map (views.translated types.now) args.now }
{
    let values = args.values();
    let mut all = Args::new(&[]);
    for index in 0..values.len() {
        all.push(translated(types, value_at(values, index)));
    }
    all
}

/// The value that a lower state gives an upper place: that of the place's row in the mapping. It takes no memory.
pub fn view(lower: &Spec, inst: &Instance, state: &State, m: &Mapping, p: &Place) -> Value
    requires given { IsGiven lower.now inst.now state.now.entries }
    requires mapping { IsMappingTo lower.now m.now }
    requires place { IsMapped lower.now inst.now m.now p.now }
    ensures { IsView (machine_of lower.now (filling_of inst.now)) (entry_of state.now.entries) m.now p.now result }
{
    let env = Env::new(&translate(m.types.items(), &p.args));
    for row in m.functions.items() {
        if row.upper == p.fun {
            return eval(lower, inst, state, &env, &row.value);
        }
    }
    unreachable!()
}
