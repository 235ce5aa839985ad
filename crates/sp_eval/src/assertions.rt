ghost use Rattle.std.specs.Prelude.{◌↔◌, IfErr, IsOk, IsTrue};
ghost use Rattle.sp_core.specs.Instances.{IsAdmissible, IsInstanceOf, filling_of};
ghost use Rattle.sp_core.specs.Machine.{types_of};
ghost use Rattle.sp_core.specs.Tree.{tree};
ghost use Rattle.sp_eval.specs.Admissible.{HoldsForAll, IsClaim, IsFirstFalse};
ghost use Rattle.sp_eval.specs.Settings as setting;

use crate::domains::{is_true, proper};
use crate::entries::InitialState;
use crate::env::Env;
use crate::evaluator::Evaluator;
use sp_core::{Expr, Formal, Instance, Spec};
use sp_values::Args;

/// The number of the first false assertion, from 1.
#[derive(Clone, Copy, Debug, PartialEq, Eq)]
pub struct AssertionFalse(pub u32);

// Whether the body is TRUE for all proper values of the variables, put after the values of the environment.
fn holds_for_all(
    evaluator: &Evaluator<InitialState, InitialState>,
    vars: &[Formal],
    env: &Env,
    body: &Expr,
) -> bool
    requires { IsClaim evaluator.now (types_of vars.now) env.now (tree body.now) }
    ensures { IsTrue result ↔ HoldsForAll (setting.world evaluator.now) (types_of vars.now) env.now (tree body.now) }
{
    let [first, rest @ ..] = vars else {
        return is_true(evaluator.value(0, env, body));
    };
    for number in 0..evaluator.population(first.ty) {
        let inner = env.with(proper(first.ty, number));
        if !holds_for_all(evaluator, rest, &inner, body) {
            return false;
        }
    }
    true
}

/// Whether each assertion is TRUE for all proper values of its variables.
///
/// # Errors
/// `AssertionFalse` with the number of the first assertion that isn't.
pub fn admissible<'a>(spec: &'a Spec, inst: &'a Instance) -> Result<(), AssertionFalse>
    requires { IsInstanceOf spec.now inst.now }
    ensures ok { IsOk result ↔ IsAdmissible spec.now (filling_of inst.now) }
    ensures first { IfErr result (λ fault. IsFirstFalse spec.now (filling_of inst.now) fault.0) }
{
    let assertions = spec.assertions();
    let evaluator = Evaluator::new(spec, inst, &InitialState, &InitialState);
    let none = Env::new(&Args::new(&[]));
    for (index, assertion) in assertions.iter().enumerate() {
        if !holds_for_all(&evaluator, assertion.vars.items(), &none, &assertion.body) {
            return Err(AssertionFalse(index as u32 + 1));
        }
    }
    Ok(())
}
