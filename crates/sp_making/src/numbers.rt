//! The numbers in texts.

ghost use Rattle.std.specs.List.{All};
ghost use Rattle.sp_functions.specs.Laws.{HaveNumbers};
ghost use Rattle.sp_specification.specs.Numbers as spec;

use sp_effect_laws::tell_effect_numbers;
use sp_scopes::Definition;
use sp_tree::{Body, Equation, ExprTree, FunDecl, Ident, Module};
use sp_typed::tell_numbers;

// Those in the conditions of exceptions.
#[tactic(auto, using(crate::proofs::Numbered::conditions_told))]
fn tell_exceptions(exceptions: &[(Ident, ExprTree)])
    ensures { HaveNumbers exceptions.now }
{
    for exception in exceptions {
        tell_numbers(&exception.1);
    }
}

fn tell_body(body: &Body)
    ensures { spec.IsBodyNumbered body.now }
{
    match body {
        Body::Initially(e) => tell_numbers(e),
        Body::Derivation(e) => tell_numbers(e),
        Body::Effects(ws) => tell_effect_numbers(ws.items()),
    }
}

fn tell_function(x: &FunDecl)
    ensures { spec.IsFunctionNumbered x.now }
{
    tell_exceptions(x.exceptions.items());
    tell_body(&x.body);
}

#[tactic(auto, using(crate::proofs::Numbered::functions_told))]
fn tell_functions(xs: &[FunDecl])
    ensures { All spec.IsFunctionNumbered xs.now }
{
    for x in xs {
        tell_function(x);
    }
}

#[tactic(auto, using(crate::proofs::Numbered::assertions_told))]
fn tell_assertions(es: &[ExprTree])
    ensures { All spec.IsNumbered es.now }
{
    for e in es {
        tell_numbers(e);
    }
}

fn tell_module(m: &Module)
    ensures { spec.IsModuleNumbered m.now }
{
    tell_assertions(m.assertions.items());
    tell_functions(m.functions.items());
}

fn tell_modules(modules: &[Module])
    ensures { All spec.IsModuleNumbered modules.now }
{
    for m in modules {
        tell_module(m);
    }
}

#[tactic(auto, using(crate::proofs::Numbered::definitions_told))]
fn tell_definitions(definitions: &[Definition])
    ensures { All spec.IsDefinitionNumbered definitions.now }
{
    for definition in definitions {
        tell_numbers(&definition.text);
    }
}

#[tactic(auto, using(crate::proofs::Numbered::equations_told))]
fn tell_equations(equations: &[Equation])
    ensures { All spec.IsEquationNumbered equations.now }
{
    for equation in equations {
        tell_numbers(&equation.value);
    }
}

/// The numbers of definitions, level equations and modules are in range, as those of every text are.
pub fn tell_numbers_of(definitions: &[Definition], equations: &[Equation], modules: &[Module])
    ensures { spec.AreAllNumbered definitions.now equations.now modules.now }
{
    tell_definitions(definitions);
    tell_equations(equations);
    tell_modules(modules);
}
