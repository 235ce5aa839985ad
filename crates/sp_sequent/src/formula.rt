ghost use Rattle.std.specs.Prelude.{◌≤◌, length, map};
ghost use Rattle.sp_core.specs.Tree.{tree};
ghost use Rattle.sp_sequent.specs.Limits.{HasFewNodes, HasFewTerms};

use sp_core::{Expr, Formal};
use sp_text::{Name, Sequence};

/// Which flow a formula is about.
#[derive(Clone, Copy, Debug, PartialEq, Eq)]
pub enum FormulaKind {
    ExceptionReference,
    DerivationReference,
    Change,
    GuardReference,
    ValueReference,
    TargetReference,
    ResultGuardReference,
    ResultReference,
    Agreement,
    MappingReference,
}

/// A formula: where its hypotheses are TRUE, its goal is. Its nodes, terms and variables are few.
#[derive(Debug, Drop)]
pub struct Formula {
    pub kind: FormulaKind,
    /// The function that it is about, by its number.
    pub fun: u16,
    /// The name of that function.
    pub name: Name,
    pub vars: Sequence<Formal>,
    pub hyps: Sequence<Expr>,
    pub goal: Expr,
    pub ghost few_nodes: { HasFewNodes (map tree hyps) (tree goal) },
    pub ghost few_terms: { HasFewTerms (map tree hyps) (tree goal) },
    pub ghost few_variables: { length vars ≤ 65536 },
}
