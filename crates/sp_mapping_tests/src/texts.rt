//! Mappings of texts, elaborated.

ghost use Rattle.std.specs.Prelude.{IfOk};
ghost use Rattle.sp_core.specs.Mappings.{IsMappingTo};
ghost use Rattle.sp_mapping_rules.specs.Lower.{AreNamesOf};

use sp_core::{Mapping, Spec};
use sp_interface::{parse_interface, parse_mapping};
use sp_lexer::lex;
use sp_mapping::elaborate_mapping;
use sp_parser::parse_module;
use sp_scopes::Scopes;
use sp_text::{Limit, Malformed, Memory, Quantity, Rule, Span, SpecFault, TextFault};
use sp_tree::{InterfaceTree, MappingTree, Module};
use sp_types::elaborate;
use std::alloc::Global;
use std::process::Abort;

/// An interface of one module, and that module.
#[derive(Clone, Copy)]
pub struct System<'a> {
    pub interface: &'a [u8],
    pub module: &'a [u8],
}

/// A text that breaks a rule from one place to the other.
pub type Broken = (&'static [u8], u32, u32, Rule);

/// How many types a mapping has, and how many rows of functions.
#[derive(Clone, Copy, Debug, PartialEq, Eq)]
pub struct Counts {
    pub types: usize,
    pub rows: usize,
}

/// What a mapping has, or what its text breaks, where the texts of its interfaces break nothing.
pub type Judged = Result<Result<Counts, TextFault>, SpecFault>;

/// An upper interface.
pub const UPPER: System<'static> = System {
    interface: b"INTERFACE u MODULES u; LATTICE LOW, HIGH; ORDER LOW < HIGH; LEVEL g(a) IS p(a);
LEVEL der() IS LOW; LEVEL op() IS LOW; SAMPLE s; END_INTERFACE",
    module: b"MODULE u TYPES t: DESIGNATOR; c: {red, blue}; PARAMETERS LEVEL p(t a);
DEFINITIONS INTEGER k() IS 0; FUNCTIONS VFUN g(t a) -> INTEGER; INITIALLY 0;
VFUN der() -> INTEGER; DERIVATION k(); OFUN op(); EFFECTS END_MODULE",
};

/// The module of a lower interface.
pub const LOWER_MODULE: &[u8] =
    b"MODULE l TYPES d: DESIGNATOR; e: {r, b}; three: {one, two, many}; PARAMETERS LEVEL q(d a);
DEFINITIONS LEVEL low(d a) IS IF h(a, 0) = 0 THEN LOW ELSE HIGH END_IF;
FUNCTIONS VFUN h(d a; INTEGER i) -> INTEGER; INITIALLY 0; OFUN put(); EFFECTS END_MODULE";

/// The lower interface.
pub const LOWER: System<'static> = System {
    interface: b"INTERFACE l MODULES l; LATTICE LOW, HIGH; ORDER LOW < HIGH; LEVEL h(a, i) IS q(a);
LEVEL put() IS LOW; SAMPLE s; END_INTERFACE",
    module: LOWER_MODULE,
};

/// Rows that break nothing.
pub const TYPES: &[u8] = b"t IS d; c IS e;";

pub const PARAMETERS: &[u8] = b"p(a) IS q(a);";

pub const FUNCTIONS: &[u8] = b"g(a) IS h(a, 0);";

/// Where the rows of types begin in a text; and those of parameters and of functions, behind rows that break nothing.
pub const TYPES_AT: u32 = 28;

pub const PARAMETERS_AT: u32 = 55;

pub const FUNCTIONS_AT: u32 = 79;

// The file of a fault in a text that doesn't read, so that no test takes it for a broken rule of a specification.
const NO_FILE: u16 = 65_535;

fn read_interface(alloc: Global, text: &[u8]) -> Result<InterfaceTree, TextFault> {
    if text.len() > 1_000_000 {
        return Err(TextFault::Memory);
    }
    let tokens = lex(alloc, text)?;
    parse_interface(alloc, tokens.as_slice(), text.len() as u32)
}

fn read_module(alloc: Global, text: &[u8]) -> Result<Module, TextFault> {
    if text.len() > 1_000_000 {
        return Err(TextFault::Memory);
    }
    let tokens = lex(alloc, text)?;
    parse_module(alloc, tokens.as_slice(), text.len() as u32)
}

fn read_mapping(alloc: Global, text: &[u8]) -> Result<MappingTree, TextFault> {
    if text.len() > 1_000_000 {
        return Err(TextFault::Memory);
    }
    let tokens = lex(alloc, text)?;
    parse_mapping(alloc, tokens.as_slice(), text.len() as u32)
}

// Here and below a function holds one value with a destructor: with several the proof that it is safe costs many times
// as much.
fn one_module(alloc: Global, module: Module) -> Result<Vec<Module>, TextFault> {
    let mut modules = Vec::new(alloc);
    modules.push(module)?;
    Ok(modules)
}

fn read_modules(alloc: Global, text: &[u8]) -> Result<Vec<Module>, TextFault> {
    match read_module(alloc, text) {
        Ok(module) => one_module(alloc, module),
        Err(fault) => Err(fault),
    }
}

fn unread(fault: TextFault) -> SpecFault {
    SpecFault {
        file: NO_FILE,
        fault,
    }
}

// The specification, with all its names.
#[tactic(auto, using(crate::proofs::Named::are_names))]
fn elaborate_trees(
    alloc: Global,
    interface: &InterfaceTree,
    modules: &[Module],
) -> Result<(Spec, Scopes), SpecFault>
    ensures { IfOk result (λ r. AreNamesOf r.0 r.1) }
{
    elaborate(alloc, interface, modules)
}

fn elaborate_module(
    alloc: Global,
    interface: &InterfaceTree,
    module: &[u8],
) -> Result<(Spec, Scopes), SpecFault>
    ensures { IfOk result (λ r. AreNamesOf r.0 r.1) }
{
    match read_modules(alloc, module) {
        Ok(modules) => elaborate_trees(alloc, interface, modules.as_slice()),
        Err(fault) => Err(unread(fault)),
    }
}

/// The specification of the texts, with all its names.
pub fn elaborate_system(alloc: Global, system: &System<'_>) -> Result<(Spec, Scopes), SpecFault>
    ensures { IfOk result (λ r. AreNamesOf r.0 r.1) }
{
    match read_interface(alloc, system.interface) {
        Ok(interface) => elaborate_module(alloc, &interface, system.module),
        Err(fault) => Err(unread(fault)),
    }
}

// Nothing here has to be dropped: the clauses of what is called are dear beside a destructor.
fn mapping_of(
    alloc: Global,
    upper: &Spec,
    lower: &Spec,
    scopes: &Scopes,
    tree: &MappingTree,
) -> Result<Mapping, TextFault>
    requires { AreNamesOf lower.now scopes.now }
    ensures { IfOk result (IsMappingTo lower.now) }
{
    elaborate_mapping(alloc, upper, lower, scopes, tree)
}

/// The mapping of the text.
pub fn elaborate_text(
    alloc: Global,
    upper: &Spec,
    lower: &Spec,
    scopes: &Scopes,
    text: &[u8],
) -> Result<Mapping, TextFault>
    requires { AreNamesOf lower.now scopes.now }
    ensures { IfOk result (IsMappingTo lower.now) }
{
    let tree = read_mapping(alloc, text)?;
    mapping_of(alloc, upper, lower, scopes, &tree)
}

fn counts_of(mapping: &Mapping) -> Counts {
    Counts {
        types: mapping.types.items().len(),
        rows: mapping.functions.items().len(),
    }
}

fn made_of(
    alloc: Global,
    upper: &(Spec, Scopes),
    lower: &(Spec, Scopes),
    text: &[u8],
) -> Result<Result<Mapping, TextFault>, SpecFault>
    requires { AreNamesOf lower.now.0 lower.now.1 }
{
    Ok(elaborate_text(alloc, &upper.0, &lower.0, &lower.1, text))
}

fn made_below(
    alloc: Global,
    upper: &(Spec, Scopes),
    lower: &System<'_>,
    text: &[u8],
) -> Result<Result<Mapping, TextFault>, SpecFault> {
    match elaborate_system(alloc, lower) {
        Ok(lower) => made_of(alloc, upper, &lower, text),
        Err(fault) => Err(fault),
    }
}

/// The mapping of a text from the upper system to the lower one, or what it breaks.
pub fn made(
    alloc: Global,
    upper: &System<'_>,
    lower: &System<'_>,
    text: &[u8],
) -> Result<Result<Mapping, TextFault>, SpecFault> {
    let upper = elaborate_system(alloc, upper)?;
    made_below(alloc, &upper, lower, text)
}

/// What the mapping of a text has, or what it breaks.
pub fn judged(alloc: Global, upper: &System<'_>, lower: &System<'_>, text: &[u8]) -> Judged {
    match made(alloc, upper, lower, text) {
        Ok(Ok(mapping)) => Ok(Ok(counts_of(&mapping))),
        Ok(Err(fault)) => Ok(Err(fault)),
        Err(fault) => Err(fault),
    }
}

/// The two are equal: the assertion is proved once, here.
pub fn shows(rt: &impl Abort, found: Judged, want: Judged) {
    assert_eq!(rt; found, want);
}

/// The text of a mapping `m` with these rows.
pub fn text_of(
    alloc: Global,
    types: &[u8],
    parameters: &[u8],
    functions: &[u8],
) -> Result<Vec<u8>, Memory> {
    let mut text = Vec::new(alloc);
    text.extend_from_slice(b"MAPPING m FROM u TO l TYPES ")?;
    text.extend_from_slice(types)?;
    text.extend_from_slice(b" PARAMETERS ")?;
    text.extend_from_slice(parameters)?;
    text.extend_from_slice(b" FUNCTIONS ")?;
    text.extend_from_slice(functions)?;
    text.extend_from_slice(b" END_MAPPING")?;
    Ok(text)
}

/// What the mapping with these rows has, or what it breaks.
pub fn with_rows(alloc: Global, types: &[u8], parameters: &[u8], functions: &[u8]) -> Judged {
    match text_of(alloc, types, parameters, functions) {
        Ok(text) => judged(alloc, &UPPER, &LOWER, &text),
        Err(_) => Ok(Err(TextFault::Memory)),
    }
}

/// The mapping has so many types and rows.
pub fn mapped(types: usize, rows: usize) -> Judged {
    Ok(Ok(Counts { types, rows }))
}

/// The rule is broken from one place to the other.
pub fn breaks(start: u32, end: u32, rule: Rule) -> Judged {
    let span = Span { start, end };
    Ok(Err(TextFault::Malformed(Malformed { span, rule })))
}

/// The same, counted from a place on.
pub fn breaks_behind(place: u32, start: u32, end: u32, rule: Rule) -> Judged {
    breaks(place.saturating_add(start), place.saturating_add(end), rule)
}

/// The limit is exceeded from one place to the other.
pub fn exceeds(start: u32, end: u32, quantity: Quantity) -> Judged {
    let span = Span { start, end };
    Ok(Err(TextFault::Limit(Limit { span, quantity })))
}
