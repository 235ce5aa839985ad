//! Accepted specifications.

ghost use Rattle.std.specs.Prelude.{◌≡◌, All, map};
ghost use Rattle.sp_claims.specs.Laws.{HasNoOpenBranch};
ghost use Rattle.sp_formulas.specs.Formulas.{formula_as, formulas};
ghost use Rattle.sp_sequent.specs.Claims.{claim_of, question_of};
ghost use Rattle.sp_unwinding.specs.Accepting.{IsAccepted};

use sp_core::Spec;
use sp_sequent::Formula;
use std::marker::Model;

/// An accepted specification: it is secure, and each of its flow formulas holds. That is its invariant, which the call
/// that lends the specification tells.
#[derive(Drop)]
pub struct Accepted {
    spec: Spec,
}

impl Model for Accepted {
    ghost use Rattle.std.specs.Coded.{codes};
    ghost use Rattle.sp_core.specs.Parts.{Parts};
    ghost use Rattle.sp_core.specs.contracts.expr.Expr as expr;
    ghost use Rattle.sp_core.specs.contracts.function.Effect as effect;

    ghost Value = { Parts };

    ghost coded = { Prim.hlevel (codes, expr.the_row.coded, effect.the_row.coded) };

    ghost use Rattle.sp_unwinding.specs.Accepting.{IsAccepted};

    ghost view = { λ a. a.spec };

    ghost invariant = { λ a. IsAccepted a.spec };
}

impl Accepted {
    /// The specification.
    pub fn spec(&self) -> &Spec
        ensures value { result.now ≡ self.now }
        ensures accepted { IsAccepted self.now }
    {
        &self.spec
    }
}

/// Accepts a specification whose flow formulas are these and have no open branch.
pub fn accept(spec: Spec, fs: &[Formula]) -> Accepted
    requires listed { map formula_as fs.now ≡ formulas spec }
    requires closed { All (λ f. HasNoOpenBranch (question_of spec (claim_of f))) fs.now }
    ensures { result ≡ spec }
{
    spec.functions();
    Accepted { spec }
}
