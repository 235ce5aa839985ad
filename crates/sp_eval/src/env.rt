ghost use Rattle.std.specs.Prelude.{◌≡◌, ◌≤◌, ◌<◌, ◌++◌, ◌∷◌, [], length};

use sp_values::{Args, Value};
use std::marker::Model;

/// The most values of an environment: eight arguments and the variables bound around an expression.
const MOST: usize = 16;

/// The values of the variables around an expression, at most sixteen, which contracts see as their list: arguments, then
/// bound variables from the outermost.
#[derive(Drop)]
pub struct Env {
    count: usize,
    places: [Value; MOST],
}

impl Model for Env {
    ghost use Rattle.std.specs.Prelude.{List, ◌≤◌, take};
    ghost use Rattle.sp_values.specs.declared.value.Value.{Value as OneValue};

    ghost Value = { List OneValue };

    ghost view = { λ a. take a.count a.places };

    ghost invariant = { λ a. a.count ≤ 16 };
}

impl Env {
    /// The list of the arguments.
    pub fn new(args: &Args) -> Env
        ensures { result ≡ args.now }
    {
        let values = args.values();
        let mut places = [Value::Unknown; MOST];
        places[..values.len()].copy_from_slice(values);
        Env {
            count: values.len(),
            places,
        }
    }

    /// The list with `v` after its last value.
    pub fn with(&self, v: Value) -> Env
        requires { length self.now < 16 }
        ensures { result ≡ self.now ++ v ∷ [] }
    {
        let mut places = self.places;
        places[self.count] = v;
        Env {
            count: self.count + 1,
            places,
        }
    }

    /// The values in order.
    pub fn values(&self) -> &[Value]
        ensures value { result.now ≡ self.now }
        ensures few { length self.now ≤ 16 }
    {
        &self.places[..self.count]
    }
}
