//! The greatest value of each quantity, in one home.

ghost use Rattle.std.specs.Prelude.{◌≡◌};
ghost use Rattle.sp_text.specs.Limits.{greatest_of, quantity_name, quantity_number};

use crate::fault::Quantity;

/// Bytes of a text file.
pub const MOST_FILE_BYTES: u32 = 1_048_576;
/// Tokens of a text.
pub const MOST_TOKENS: u32 = 200_000;
/// Modules of an interface.
pub const MOST_MODULES: u32 = 32;
/// Interfaces of a hierarchy.
pub const MOST_INTERFACES: u32 = 16;
/// Types that an interface declares.
pub const MOST_TYPES: u32 = 64;
/// Members of an enumeration.
pub const MOST_MEMBERS: u32 = 64;
/// Names of a designator type's population.
pub const MOST_POPULATION: u32 = 64;
/// Parameters of an interface.
pub const MOST_PARAMETERS: u32 = 512;
/// Definitions of an interface.
pub const MOST_DEFINITIONS: u32 = 512;
/// Functions of an interface.
pub const MOST_FUNCTIONS: u32 = 512;
/// Assertions of an interface.
pub const MOST_ASSERTIONS: u32 = 64;
/// Arguments of a function, a parameter or a definition.
pub const MOST_ARGUMENTS: u32 = 8;
/// Exceptions of a function.
pub const MOST_EXCEPTIONS: u32 = 16;
/// Changes of a function.
pub const MOST_CHANGES: u32 = 64;
/// The height of an expression, of a text and after expansion.
pub const MOST_HEIGHT: u32 = 64;
/// IF and FORALL effects in one another.
pub const MOST_EFFECT_NESTING: u32 = 16;
/// Variables of the FORALL effects around one effect.
pub const MOST_BOUND_VARIABLES: u32 = 2;
/// Quantifiers in one another, after expansion.
pub const MOST_QUANTIFIERS: u32 = 3;
/// Derivations that read one another.
pub const MOST_DERIVATION_DEPTH: u32 = 16;
/// Nodes of an expression, after expansion.
pub const MOST_EXPRESSION_NODES: u32 = 1_024;
/// Nodes of the expressions of a function, its level included.
pub const MOST_FUNCTION_NODES: u32 = 8_192;
/// Levels of a lattice.
pub const MOST_LEVELS: u32 = 256;
/// Formulas of an interface or a mapping.
pub const MOST_FORMULAS: u32 = 4_096;
/// Instances of assertions in a formula.
pub const MOST_ASSERTION_INSTANCES: u32 = 64;
/// Nodes of a formula.
pub const MOST_FORMULA_NODES: u32 = 4_096;
/// Different terms of a formula.
pub const MOST_TERMS: u32 = 512;
/// Undetermined atoms of a formula.
pub const MOST_ATOMS: u32 = 20;
/// Invocations of a script.
pub const MOST_INVOCATIONS: u32 = 10_000;
/// Entries of a state.
pub const MOST_CHANGED_PLACES: u32 = 1_000_000;
/// Lines of a certificate that open a node, in one another.
pub const MOST_CERTIFICATE_DEPTH: u32 = 64;
/// Bytes of a certificate file, the longest text of all.
pub const MOST_CERTIFICATE_BYTES: u32 = 67_108_864;

impl Quantity {
    /// Its greatest value; of bytes, that of a text file.
    pub fn greatest(self) -> u32
        ensures { result ≡ greatest_of self }
    {
        match self {
            Quantity::FileBytes => MOST_FILE_BYTES,
            Quantity::Tokens => MOST_TOKENS,
            Quantity::Modules => MOST_MODULES,
            Quantity::Interfaces => MOST_INTERFACES,
            Quantity::Types => MOST_TYPES,
            Quantity::Members => MOST_MEMBERS,
            Quantity::Population => MOST_POPULATION,
            Quantity::Parameters => MOST_PARAMETERS,
            Quantity::Definitions => MOST_DEFINITIONS,
            Quantity::Functions => MOST_FUNCTIONS,
            Quantity::Assertions => MOST_ASSERTIONS,
            Quantity::Arguments => MOST_ARGUMENTS,
            Quantity::Exceptions => MOST_EXCEPTIONS,
            Quantity::Changes => MOST_CHANGES,
            Quantity::Height => MOST_HEIGHT,
            Quantity::EffectNesting => MOST_EFFECT_NESTING,
            Quantity::BoundVariables => MOST_BOUND_VARIABLES,
            Quantity::Quantifiers => MOST_QUANTIFIERS,
            Quantity::DerivationDepth => MOST_DERIVATION_DEPTH,
            Quantity::ExpressionNodes => MOST_EXPRESSION_NODES,
            Quantity::FunctionNodes => MOST_FUNCTION_NODES,
            Quantity::Levels => MOST_LEVELS,
            Quantity::Formulas => MOST_FORMULAS,
            Quantity::AssertionInstances => MOST_ASSERTION_INSTANCES,
            Quantity::FormulaNodes => MOST_FORMULA_NODES,
            Quantity::Terms => MOST_TERMS,
            Quantity::Atoms => MOST_ATOMS,
            Quantity::Invocations => MOST_INVOCATIONS,
            Quantity::ChangedPlaces => MOST_CHANGED_PLACES,
            Quantity::CertificateDepth => MOST_CERTIFICATE_DEPTH,
        }
    }

    /// Its name, as it is printed.
    pub fn name(self) -> &'static str
        ensures { result.now ≡ quantity_name self }
    {
        match self {
            Quantity::FileBytes => "file bytes",
            Quantity::Tokens => "tokens",
            Quantity::Modules => "modules",
            Quantity::Interfaces => "interfaces",
            Quantity::Types => "types",
            Quantity::Members => "members",
            Quantity::Population => "population",
            Quantity::Parameters => "parameters",
            Quantity::Definitions => "definitions",
            Quantity::Functions => "functions",
            Quantity::Assertions => "assertions",
            Quantity::Arguments => "arguments",
            Quantity::Exceptions => "exceptions",
            Quantity::Changes => "changes",
            Quantity::Height => "height",
            Quantity::EffectNesting => "effect nesting",
            Quantity::BoundVariables => "bound variables",
            Quantity::Quantifiers => "quantifiers",
            Quantity::DerivationDepth => "derivation depth",
            Quantity::ExpressionNodes => "expression nodes",
            Quantity::FunctionNodes => "function nodes",
            Quantity::Levels => "levels",
            Quantity::Formulas => "formulas",
            Quantity::AssertionInstances => "assertion instances",
            Quantity::FormulaNodes => "formula nodes",
            Quantity::Terms => "terms",
            Quantity::Atoms => "atoms",
            Quantity::Invocations => "invocations",
            Quantity::ChangedPlaces => "changed places",
            Quantity::CertificateDepth => "certificate depth",
        }
    }

    /// Its place in the order in which limits exceeded at one place count.
    pub fn number(self) -> u8
        ensures { result ≡ quantity_number self }
    {
        match self {
            Quantity::FileBytes => 0,
            Quantity::Tokens => 1,
            Quantity::Modules => 2,
            Quantity::Interfaces => 3,
            Quantity::Types => 4,
            Quantity::Members => 5,
            Quantity::Population => 6,
            Quantity::Parameters => 7,
            Quantity::Definitions => 8,
            Quantity::Functions => 9,
            Quantity::Assertions => 10,
            Quantity::Arguments => 11,
            Quantity::Exceptions => 12,
            Quantity::Changes => 13,
            Quantity::Height => 14,
            Quantity::EffectNesting => 15,
            Quantity::BoundVariables => 16,
            Quantity::Quantifiers => 17,
            Quantity::DerivationDepth => 18,
            Quantity::ExpressionNodes => 19,
            Quantity::FunctionNodes => 20,
            Quantity::Levels => 21,
            Quantity::Formulas => 22,
            Quantity::AssertionInstances => 23,
            Quantity::FormulaNodes => 24,
            Quantity::Terms => 25,
            Quantity::Atoms => 26,
            Quantity::Invocations => 27,
            Quantity::ChangedPlaces => 28,
            Quantity::CertificateDepth => 29,
        }
    }
}
