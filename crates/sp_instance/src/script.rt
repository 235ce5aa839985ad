//! Scripts.

ghost use Rattle.std.specs.Prelude.{◌≡◌, ◌≤◌, IfOk, length, map, Some};
ghost use Rattle.std.specs.List.{All, flat_map};
ghost use Rattle.sp_text.specs.Violations.{first, Judges};
ghost use Rattle.sp_core.specs.Instances.{IsInstanceOf, filling_of, machine_of};
ghost use Rattle.sp_core.specs.Machine.{IsInvocation};
ghost use Rattle.sp_instance.specs.Scripts as scripts;
ghost use Rattle.sp_instance.specs.Scripts.{call_broken, calls_broken, function_broken, function_name, invocation_of, invocations_of, script_broken};

use crate::heads::{over, unfit};
use crate::members::members_of;
use crate::names::{NameList, list_names};
use crate::spec_names::all_names;
use crate::vocabulary::Vocabulary;
use sp_core::{Function, Instance, Spec};
use sp_text::{
    MOST_INVOCATIONS, Memory, Quantity, Rule, Sequence, TextFault, Violation, breaks, earlier,
};
use sp_tree::{Ident, ScriptTree, ValueTree};
use sp_values::{Args, Invocation};
use sqlite_items::at;
use std::alloc::Global;

/// A call of a text.
pub type Call = (Ident, Sequence<ValueTree>);

// What a call of a hidden function breaks.
fn hidden(f: &Function, c: &Call) -> Option<Violation>
    ensures { result ≡ first (scripts.hidden_broken c.now f.now) }
{
    if f.visible {
        None
    } else {
        breaks(c.0.span, Rule::NotVisible)
    }
}

// The values that a call of the function gives its formals, with the first of what it breaks.
fn of_function(words: &Vocabulary, f: &Function, c: &Call) -> (Args, Option<Violation>)
    requires { length f.now.formals ≤ 8 }
    ensures made { result.0 ≡ scripts.given words.now c.now (Some f.now) }
    ensures found { result.1 ≡ first (function_broken words.now c.now f.now) }
{
    let (args, broken) = words.arguments(true, c.0.span, f.formals.items(), c.1.items());
    (args, earlier(hidden(f, c), broken))
}

// The invocation that a call stands for, with the first of what it breaks.
fn call(
    words: &Vocabulary,
    functions: &[Function],
    all: &NameList,
    names: &NameList,
    c: &Call,
) -> (Invocation, Option<Violation>)
    requires few { All (λ f. length f.formals ≤ 8) functions.now }
    requires numbered { length functions.now ≤ 512 }
    requires names { names.now ≡ map function_name functions.now }
    ensures made { result.0 ≡ invocation_of functions.now words.now c.now }
    ensures found { result.1 ≡ first (call_broken functions.now all.now words.now c.now) }
{
    match names.place(c.0.name.bytes()) {
        None => {
            let none = Invocation {
                fun: 0,
                args: Args::new(&[]),
            };
            (none, unfit(all, &c.0))
        }
        Some(place) => {
            let made = of_function(words, &functions[place], c);
            (
                Invocation {
                    fun: place as u16,
                    args: made.0,
                },
                made.1,
            )
        }
    }
}

// What a script breaks that has too many calls.
fn too_many(texts: &[Call]) -> Option<Violation>
    ensures { result ≡ first (scripts.count_broken texts.now) }
{
    match at(texts, MOST_INVOCATIONS as usize) {
        None => None,
        Some(c) => over(Quantity::Invocations, Some(&c.0)),
    }
}

// The invocations that the calls stand for, with the first of what they break.
fn calls(
    alloc: Global,
    words: &Vocabulary,
    functions: &[Function],
    all: &NameList,
    texts: &[Call],
) -> Result<(Vec<Invocation>, Option<Violation>), Memory>
    requires few { All (λ f. length f.formals ≤ 8) functions.now }
    requires numbered { length functions.now ≤ 512 }
    ensures made { IfOk result (λ r. r.0.items ≡ map (invocation_of functions.now words.now) texts.now) }
    ensures found { IfOk result (λ r. r.1 ≡ first (calls_broken functions.now all.now words.now texts.now)) }
{
    let names = list_names(alloc, functions)?;
    let mut made = Vec::new(alloc);
    let mut found = None;
    for text in texts {
        let one = call(words, functions, all, &names, text);
        made.push(one.0)?;
        found = earlier(found, one.1);
    }
    Ok((made, earlier(found, too_many(texts))))
}

/// The invocations of the specification's functions that the tree stands for, with the members of an instance.
///
/// # Errors
/// The first rule or limit that the tree breaks; `Memory` where the invocations can't be stored.
pub fn make_script(
    alloc: Global,
    spec: &Spec,
    inst: &Instance,
    t: &ScriptTree,
) -> Result<Vec<Invocation>, TextFault>
    requires { IsInstanceOf spec.now inst.now }
    ensures judges { Judges (script_broken spec.now inst.now.members t.now) (λ is'. is'.items ≡ invocations_of spec.now inst.now.members t.now) result }
    ensures invocations { IfOk result (λ is'. All (IsInvocation (machine_of spec.now (filling_of inst.now))) is'.items) }
{
    let functions = spec.functions();
    let texts = t.calls.items();
    let members = members_of(alloc, spec, inst)?;
    let words = Vocabulary::new(alloc, spec, &members)?;
    let all = all_names(alloc, spec)?;
    let made = calls(alloc, &words, functions, &all, texts)?;
    match made.1 {
        Some(found) => Err(TextFault::from(found)),
        None => Ok(made.0),
    }
}
