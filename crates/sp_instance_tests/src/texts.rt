//! Instances and scripts of texts, made.

ghost use Rattle.std.specs.Prelude.{◌≤◌, IfOk, length};
ghost use Rattle.sp_core.specs.Instances.{IsInstanceOf};

use sp_core::{Instance, Spec};
use sp_instance::{make_instance, make_script};
use sp_instance_text::{parse_instance, parse_script};
use sp_interface::parse_interface;
use sp_lexer::lex;
use sp_parser::parse_module;
use sp_text::{Limit, Malformed, Quantity, Rule, Span, TextFault};
use sp_tree::{InstanceTree, InterfaceTree, Module, ScriptTree};
use sp_types::elaborate;
use sp_values::{Args, Invocation, Value};
use std::alloc::Global;

/// A text that breaks a rule from one place to the other.
pub type Broken = (&'static [u8], u32, u32, Rule);

/// The texts of an interface with one module, and of an instance.
pub struct System {
    pub interface: &'static [u8],
    pub module: &'static [u8],
    pub instance: &'static [u8],
}

// The interface of a module `m` without functions.
const TWO_LEVELS: &[u8] =
    b"INTERFACE i MODULES m; LATTICE LOW, HIGH; ORDER LOW < HIGH; SAMPLE s; END_INTERFACE";

fn read_interface(alloc: Global, text: &[u8]) -> Result<InterfaceTree, TextFault> {
    if text.len() > 1_000_000 {
        return Err(TextFault::Memory);
    }
    let tokens = lex(alloc, text)?;
    parse_interface(alloc, tokens.as_slice(), text.len() as u32)
}

fn read_module(alloc: Global, text: &[u8]) -> Result<Module, TextFault> {
    if text.len() > 1_000_000 {
        return Err(TextFault::Memory);
    }
    let tokens = lex(alloc, text)?;
    parse_module(alloc, tokens.as_slice(), text.len() as u32)
}

fn read_instance(alloc: Global, text: &[u8]) -> Result<InstanceTree, TextFault> {
    if text.len() > 1_000_000 {
        return Err(TextFault::Memory);
    }
    let tokens = lex(alloc, text)?;
    parse_instance(alloc, tokens.as_slice(), text.len() as u32)
}

fn read_script(alloc: Global, text: &[u8]) -> Result<ScriptTree, TextFault> {
    if text.len() > 1_000_000 {
        return Err(TextFault::Memory);
    }
    let tokens = lex(alloc, text)?;
    parse_script(alloc, tokens.as_slice(), text.len() as u32)
}

// The specification of an interface with one module; `Memory`, which no test expects, where it breaks something.
fn specified(alloc: Global, interface: &[u8], module: &[u8]) -> Result<Spec, TextFault> {
    let interface = read_interface(alloc, interface)?;
    let mut modules = Vec::new(alloc);
    modules.push(read_module(alloc, module)?)?;
    match elaborate(alloc, &interface, modules.as_slice()) {
        Ok((spec, _)) => Ok(spec),
        Err(_) => Err(TextFault::Memory),
    }
}

fn instance(alloc: Global, spec: &Spec, text: &[u8]) -> Result<Instance, TextFault>
    ensures { IfOk result (IsInstanceOf spec.now) }
{
    let tree = read_instance(alloc, text)?;
    make_instance(alloc, spec, &tree)
}

/// Whether the text is made an instance of the module `m`, or what it breaks.
pub fn made(alloc: Global, module: &[u8], text: &[u8]) -> Result<(), TextFault> {
    let spec = specified(alloc, TWO_LEVELS, module)?;
    let _ = instance(alloc, &spec, text)?;
    Ok(())
}

/// The value that it gives the module's first parameter at these arguments.
pub fn value_at(
    alloc: Global,
    module: &[u8],
    text: &[u8],
    args: &[Value],
) -> Result<Value, TextFault>
    requires { length args.now ≤ 8 }
{
    let spec = specified(alloc, TWO_LEVELS, module)?;
    let made = instance(alloc, &spec, text)?;
    if spec.params().len() == 0 {
        return Err(TextFault::Memory);
    }
    Ok(made.param(0, &Args::new(args)))
}

/// The invocations of a script, or what its text breaks.
pub fn invocations(
    alloc: Global,
    system: &System,
    text: &[u8],
) -> Result<Vec<Invocation>, TextFault> {
    let spec = specified(alloc, system.interface, system.module)?;
    let made = instance(alloc, &spec, system.instance)?;
    let script = read_script(alloc, text)?;
    make_script(alloc, &spec, &made, &script)
}

/// How many invocations they are.
pub fn count(alloc: Global, system: &System, text: &[u8]) -> Result<usize, TextFault> {
    Ok(invocations(alloc, system, text)?.len())
}

/// The rule is broken from one place to the other.
pub fn breaks(start: u32, end: u32, rule: Rule) -> TextFault {
    let span = Span { start, end };
    TextFault::Malformed(Malformed { span, rule })
}

/// The limit is exceeded from one place to the other.
pub fn exceeds(start: u32, end: u32, quantity: Quantity) -> TextFault {
    let span = Span { start, end };
    TextFault::Limit(Limit { span, quantity })
}
