//! The tokens that have one spelling, by name.

pub use sp_expression::tokens::{
    AND, ASTERISK, BOOLEAN, BOTTOM, COLON, COMMA, ELSE, END_EXISTS, END_FORALL, END_IF, EQUAL,
    EXISTS, FALSE, FORALL, FixedToken, GLB, GREATER, GREATER_OR_EQUAL, IF, IFF, IMPLIES, INTEGER,
    LEFT_PARENTHESIS, LESS, LESS_OR_EQUAL, LEVEL, LUB, MINUS, NOT, NOT_EQUAL, OR, PLUS, QUESTION,
    QUOTE, RIGHT_PARENTHESIS, THEN, TOP, TRUE,
};
use sp_text::{Keyword, Symbol};

pub const MODULE: FixedToken = FixedToken::Word(Keyword::Module);

pub const END_MODULE: FixedToken = FixedToken::Word(Keyword::EndModule);

pub const TYPES: FixedToken = FixedToken::Word(Keyword::Types);

pub const PARAMETERS: FixedToken = FixedToken::Word(Keyword::Parameters);

pub const DEFINITIONS: FixedToken = FixedToken::Word(Keyword::Definitions);

pub const EXTERNALREFS: FixedToken = FixedToken::Word(Keyword::ExternalRefs);

pub const ASSERTIONS: FixedToken = FixedToken::Word(Keyword::Assertions);

pub const FUNCTIONS: FixedToken = FixedToken::Word(Keyword::Functions);

pub const DESIGNATOR: FixedToken = FixedToken::Word(Keyword::Designator);

pub const FROM: FixedToken = FixedToken::Word(Keyword::From);

pub const IS: FixedToken = FixedToken::Word(Keyword::Is);

pub const VFUN: FixedToken = FixedToken::Word(Keyword::Vfun);

pub const OFUN: FixedToken = FixedToken::Word(Keyword::Ofun);

pub const OVFUN: FixedToken = FixedToken::Word(Keyword::Ovfun);

pub const HIDDEN: FixedToken = FixedToken::Word(Keyword::Hidden);

pub const EXCEPTIONS: FixedToken = FixedToken::Word(Keyword::Exceptions);

pub const INITIALLY: FixedToken = FixedToken::Word(Keyword::Initially);

pub const DERIVATION: FixedToken = FixedToken::Word(Keyword::Derivation);

pub const EFFECTS: FixedToken = FixedToken::Word(Keyword::Effects);

pub const INTERFACE: FixedToken = FixedToken::Word(Keyword::Interface);

pub const END_INTERFACE: FixedToken = FixedToken::Word(Keyword::EndInterface);

pub const MODULES: FixedToken = FixedToken::Word(Keyword::Modules);

pub const LATTICE: FixedToken = FixedToken::Word(Keyword::Lattice);

pub const ORDER: FixedToken = FixedToken::Word(Keyword::Order);

pub const CHAIN: FixedToken = FixedToken::Word(Keyword::Chain);

pub const CATEGORIES: FixedToken = FixedToken::Word(Keyword::Categories);

pub const SAMPLE: FixedToken = FixedToken::Word(Keyword::Sample);

pub const INSTANCE: FixedToken = FixedToken::Word(Keyword::Instance);

pub const END_INSTANCE: FixedToken = FixedToken::Word(Keyword::EndInstance);

pub const POPULATION: FixedToken = FixedToken::Word(Keyword::Population);

pub const PARAMETER: FixedToken = FixedToken::Word(Keyword::Parameter);

pub const OTHERWISE: FixedToken = FixedToken::Word(Keyword::Otherwise);

pub const HIERARCHY: FixedToken = FixedToken::Word(Keyword::Hierarchy);

pub const END_HIERARCHY: FixedToken = FixedToken::Word(Keyword::EndHierarchy);

pub const OVER: FixedToken = FixedToken::Word(Keyword::Over);

pub const BY: FixedToken = FixedToken::Word(Keyword::By);

pub const MAPPING: FixedToken = FixedToken::Word(Keyword::Mapping);

pub const END_MAPPING: FixedToken = FixedToken::Word(Keyword::EndMapping);

pub const TO: FixedToken = FixedToken::Word(Keyword::To);

pub const LEFT_BRACE: FixedToken = FixedToken::Symbol(Symbol::LeftBrace);

pub const RIGHT_BRACE: FixedToken = FixedToken::Symbol(Symbol::RightBrace);

pub const SEMICOLON: FixedToken = FixedToken::Symbol(Symbol::Semicolon);

pub const ARROW: FixedToken = FixedToken::Symbol(Symbol::Arrow);
