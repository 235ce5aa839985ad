//! What every layer of the verifier speaks of: places in texts, faults with their rules and limits, names, tokens, the
//! classes of bytes, and bytes appended to a printed text.
#![tactic(auto)]

mod classes;
mod fault;
mod limits;
mod name;
mod push;
mod rules;
mod sequence;
mod token;
mod violation;

pub use classes::{is_digit, is_letter, is_space};
pub use fault::{Limit, Malformed, Memory, Quantity, Rule, Span, SpecFault, TextFault};
pub use limits::{
    MOST_ARGUMENTS, MOST_ASSERTION_INSTANCES, MOST_ASSERTIONS, MOST_ATOMS, MOST_BOUND_VARIABLES,
    MOST_CERTIFICATE_BYTES, MOST_CERTIFICATE_DEPTH, MOST_CHANGED_PLACES, MOST_CHANGES,
    MOST_DEFINITIONS, MOST_DERIVATION_DEPTH, MOST_EFFECT_NESTING, MOST_EXCEPTIONS,
    MOST_EXPRESSION_NODES, MOST_FILE_BYTES, MOST_FORMULA_NODES, MOST_FORMULAS, MOST_FUNCTION_NODES,
    MOST_FUNCTIONS, MOST_HEIGHT, MOST_INTERFACES, MOST_INVOCATIONS, MOST_LEVELS, MOST_MEMBERS,
    MOST_MODULES, MOST_PARAMETERS, MOST_POPULATION, MOST_QUANTIFIERS, MOST_TERMS, MOST_TOKENS,
    MOST_TYPES,
};
pub use name::Name;
pub use push::{push_number, push_text};
pub use sequence::Sequence;
pub use token::{Keyword, Symbol, Token, TokenKind};
pub use violation::{
    FileViolation, Requirement, Violation, breaks, earlier, earlier_in_files, exceeds, in_file,
    otherwise, otherwise_in_files,
};
