ghost use Rattle.std.specs.Prelude.{◌≡◌, ◌<◌, slice_get, length, Some};
ghost use Rattle.sp_core.specs.WellFormed.{IsWellFormed};

use crate::function::{Assertion, Function, Param, TypeInfo};
use sp_lattice::Lattice;
use sp_text::Name;
use std::marker::Model;

/// A well-formed specification. What that asks is its invariant, which each call that lends a part tells.
#[derive(Drop)]
pub struct Spec {
    name: Name,
    lattice: Lattice,
    level_names: Vec<Name>,
    types: Vec<TypeInfo>,
    params: Vec<Param>,
    assertions: Vec<Assertion>,
    functions: Vec<Function>,
}

impl Model for Spec {
    ghost use Rattle.std.specs.Coded.{codes};
    ghost use Rattle.sp_core.specs.Parts.{Parts};
    ghost use Rattle.sp_core.specs.contracts.expr.Expr as expr;
    ghost use Rattle.sp_core.specs.contracts.function.Effect as effect;

    ghost Value = { Parts };

    ghost coded = { Prim.hlevel (codes, expr.the_row.coded, effect.the_row.coded) };

    ghost use Rattle.sp_core.specs.WellFormed.{IsWellFormed};

    ghost view = { λ s. record { name = s.name; lattice = s.lattice; level_names = s.level_names.items; types = s.types.items; params = s.params.items; assertions = s.assertions.items; functions = s.functions.items } };

    ghost invariant = { λ s. IsWellFormed (record { name = s.name; lattice = s.lattice; level_names = s.level_names.items; types = s.types.items; params = s.params.items; assertions = s.assertions.items; functions = s.functions.items }) };
}

impl Spec {
    /// The specification of these parts.
    pub fn assemble(
        name: Name,
        lattice: Lattice,
        level_names: Vec<Name>,
        types: Vec<TypeInfo>,
        params: Vec<Param>,
        assertions: Vec<Assertion>,
        functions: Vec<Function>,
    ) -> Spec
        requires { IsWellFormed (record { name = name; lattice = lattice; level_names = level_names.items; types = types.items; params = params.items; assertions = assertions.items; functions = functions.items }) }
        ensures { result ≡ record { name = name; lattice = lattice; level_names = level_names.items; types = types.items; params = params.items; assertions = assertions.items; functions = functions.items } }
    {
        Spec {
            name,
            lattice,
            level_names,
            types,
            params,
            assertions,
            functions,
        }
    }

    /// The interface's name.
    pub fn name(&self) -> &Name
        ensures value { result.now ≡ self.now.name }
        ensures well_formed { IsWellFormed self.now }
    {
        &self.name
    }

    /// The lattice of its levels.
    pub fn lattice(&self) -> &Lattice
        ensures value { result.now ≡ self.now.lattice }
        ensures well_formed { IsWellFormed self.now }
    {
        &self.lattice
    }

    /// The name of a level.
    pub fn level_name(&self, l: u16) -> &Name
        requires { l < self.now.lattice.count }
        ensures value { slice_get self.now.level_names l ≡ Some result.now }
        ensures well_formed { IsWellFormed self.now }
    {
        &self.level_names[l as usize]
    }

    /// The declared types in order.
    pub fn types(&self) -> &[TypeInfo]
        ensures value { result.now ≡ self.now.types }
        ensures well_formed { IsWellFormed self.now }
    {
        &self.types
    }

    /// The parameters in order.
    pub fn params(&self) -> &[Param]
        ensures value { result.now ≡ self.now.params }
        ensures well_formed { IsWellFormed self.now }
    {
        &self.params
    }

    /// The assertions in order.
    pub fn assertions(&self) -> &[Assertion]
        ensures value { result.now ≡ self.now.assertions }
        ensures well_formed { IsWellFormed self.now }
    {
        &self.assertions
    }

    /// The functions in order.
    pub fn functions(&self) -> &[Function]
        ensures value { result.now ≡ self.now.functions }
        ensures well_formed { IsWellFormed self.now }
    {
        &self.functions
    }
}
