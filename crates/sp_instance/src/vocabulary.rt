//! What texts of values stand for.

ghost use Rattle.std.specs.Prelude.{◌≡◌, ◌≤◌, [], IfOk, length, map, false, slice_get, slice_index_or};
ghost use Rattle.sp_text.specs.Violations.{first};
ghost use Rattle.sp_values.specs.Arithmetic.{number};
ghost use Rattle.sp_lattice.specs.Order.{bottom_level, top_level};
ghost use Rattle.sp_core.specs.Machine.{types_of};
ghost use Rattle.sp_instance.specs.Words.{AreFew, is_enumeration, words_of};
ghost use Rattle.sp_instance.specs.Meanings.{arguments_broken, arguments_in, asked, integer_meant, level_meant, meant, member_meant, place_in, proper_only, truth_meant, value_broken, value_in, values_broken, values_in};

use crate::names::{NameList, list_names};
use crate::spec_names::level_names;
use sp_core::{Formal, Spec, TypeInfo};
use sp_text::{Memory, Name, Rule, Span, Violation, breaks, earlier};
use sp_tree::{ValueNode, ValueTree};
use sp_values::{Args, Ty, Value};
use sqlite_items::at;
use std::alloc::Global;
use std::marker::Model;

/// The names that texts of values may use: of the levels, and of the members that each declared type has in an instance.
#[derive(Drop)]
pub struct Vocabulary {
    levels: NameList,
    least: u16,
    greatest: u16,
    enumerated: Vec<bool>,
    members: Vec<NameList>,
}

impl Model for Vocabulary {
    ghost use Rattle.sp_instance.specs.Words.{AreFew, Words};

    ghost Value = { Words };

    ghost view = { λ v. record { levels = v.levels; least = v.least; greatest = v.greatest; enumerated = v.enumerated.items; members = v.members.items } };

    ghost invariant = { λ v. AreFew (record { levels = v.levels; least = v.least; greatest = v.greatest; enumerated = v.enumerated.items; members = v.members.items }) };
}

// The lists of names, each with an index.
fn listed(alloc: Global, members: &[Vec<Name>]) -> Result<Vec<NameList>, Memory>
    ensures { IfOk result (λ lists. lists.items ≡ map (λ names. names.items) members.now) }
{
    let mut lists = Vec::new(alloc);
    for names in members {
        let list = list_names(alloc, names.as_slice())?;
        lists.push(list)?;
    }
    Ok(lists)
}

// Which of the types are enumerations.
fn enumerations(alloc: Global, types: &[TypeInfo]) -> Result<Vec<bool>, Memory>
    ensures { IfOk result (λ flags. flags.items ≡ map is_enumeration types.now) }
{
    let mut flags = Vec::new(alloc);
    for info in types {
        flags.push(info.members.is_some())?;
    }
    Ok(flags)
}

// Of each type of a specification, whether it is an enumeration.
fn enumerated(alloc: Global, spec: &Spec) -> Result<Vec<bool>, Memory>
    ensures { IfOk result (λ flags. flags.items ≡ map is_enumeration spec.now.types) }
{
    enumerations(alloc, spec.types())
}

fn least(spec: &Spec) -> u16
    ensures { result ≡ bottom_level spec.now.lattice }
{
    spec.lattice().bottom()
}

fn greatest(spec: &Spec) -> u16
    ensures { result ≡ top_level spec.now.lattice }
{
    spec.lattice().top()
}

// TRUE and FALSE.
fn truth(text: &ValueNode) -> Result<Value, Rule>
    ensures { result ≡ truth_meant text.now }
{
    match text {
        ValueNode::Truth(b) => Ok(Value::Truth(*b)),
        ValueNode::Unknown
        | ValueNode::Int(_)
        | ValueNode::Bottom
        | ValueNode::Top
        | ValueNode::Name(_) => Err(Rule::WrongType),
    }
}

fn whole(n: i64) -> Value
    ensures { result ≡ number n }
{
    Value::Int(n)
}

// Numbers and `?`.
fn integer(text: &ValueNode) -> Result<Value, Rule>
    ensures { result ≡ integer_meant text.now }
{
    match text {
        ValueNode::Int(n) => Ok(whole(*n)),
        ValueNode::Unknown => Ok(Value::Unknown),
        ValueNode::Truth(_) | ValueNode::Bottom | ValueNode::Top | ValueNode::Name(_) => {
            Err(Rule::WrongType)
        }
    }
}

// A proper value alone, where only these are asked.
fn strict(proper: bool, found: Result<Value, Rule>) -> Result<Value, Rule>
    ensures { result ≡ proper_only proper found }
{
    match found {
        Ok(Value::Unknown) => if proper {
            Err(Rule::NotProper)
        } else {
            Ok(Value::Unknown)
        },
        other => other,
    }
}

impl Vocabulary {
    /// The names of a specification whose types have these members.
    ///
    /// # Errors
    /// `Memory` where they can't be stored.
    pub fn new(alloc: Global, spec: &Spec, members: &[Vec<Name>]) -> Result<Vocabulary, Memory>
        requires { AreFew (words_of spec.now (map (λ names. names.items) members.now)) }
        ensures { IfOk result (λ words. words ≡ words_of spec.now (map (λ names. names.items) members.now)) }
    {
        let levels = level_names(alloc, spec)?;
        let enumerated = enumerated(alloc, spec)?;
        let members = listed(alloc, members)?;
        Ok(Vocabulary {
            levels,
            least: least(spec),
            greatest: greatest(spec),
            enumerated,
            members,
        })
    }

    // The level with a name.
    fn level_of(&self, name: &Name) -> Result<Value, Rule>
        ensures { result ≡ level_meant self.now (ValueNode.Name name.now) }
    {
        match self.levels.place(name.bytes()) {
            Some(level) => Ok(Value::Level(level as u16)),
            None => Err(Rule::UnknownName),
        }
    }

    // BOTTOM, TOP and the names of levels.
    fn level(&self, text: &ValueNode) -> Result<Value, Rule>
        ensures { result ≡ level_meant self.now text.now }
    {
        match text {
            ValueNode::Bottom => Ok(Value::Level(self.least)),
            ValueNode::Top => Ok(Value::Level(self.greatest)),
            ValueNode::Name(name) => self.level_of(name),
            ValueNode::Unknown | ValueNode::Int(_) | ValueNode::Truth(_) => Err(Rule::WrongType),
        }
    }

    // Whether a declared type is an enumeration.
    fn is_enumerated(&self, ty: u16) -> bool
        ensures { result ≡ slice_index_or self.now.enumerated ty false }
    {
        match at(self.enumerated.as_slice(), ty as usize) {
            Some(flag) => *flag,
            None => false,
        }
    }

    // The place of a member among those of its type.
    fn place(&self, ty: u16, name: &Name) -> Option<u16>
        ensures { result ≡ place_in (slice_get self.now.members ty) name.now }
    {
        match at(self.members.as_slice(), ty as usize) {
            None => None,
            Some(names) => match names.place(name.bytes()) {
                None => None,
                Some(place) => Some(place as u16),
            },
        }
    }

    // The member with a name.
    fn member_of(&self, ty: u16, name: &Name) -> Result<Value, Rule>
        ensures { result ≡ member_meant self.now ty (ValueNode.Name name.now) }
    {
        match self.place(ty, name) {
            Some(member) => Ok(Value::Member(ty, member)),
            None => if self.is_enumerated(ty) {
                Err(Rule::WrongType)
            } else {
                Err(Rule::NotInPopulation)
            },
        }
    }

    // `?` and the names of members.
    fn member(&self, ty: u16, text: &ValueNode) -> Result<Value, Rule>
        ensures { result ≡ member_meant self.now ty text.now }
    {
        match text {
            ValueNode::Unknown => Ok(Value::Unknown),
            ValueNode::Name(name) => self.member_of(ty, name),
            ValueNode::Int(_) | ValueNode::Truth(_) | ValueNode::Bottom | ValueNode::Top => {
                Err(Rule::WrongType)
            }
        }
    }

    /// What a text stands for where a value of the type is asked, or the rule that it breaks.
    pub fn meaning(&self, ty: Ty, text: &ValueNode) -> Result<Value, Rule>
        ensures { result ≡ meant self.now ty text.now }
    {
        match ty {
            Ty::Boolean => truth(text),
            Ty::Integer => integer(text),
            Ty::Level => self.level(text),
            Ty::Member(k) => self.member(k, text),
        }
    }

    /// The value that a text stands for, with what the text breaks; it is `?` where it breaks a rule.
    pub fn value(&self, proper: bool, ty: Ty, text: &ValueTree) -> (Value, Option<Violation>)
        ensures made { result.0 ≡ value_in self.now proper ty text.now }
        ensures found { result.1 ≡ first (value_broken self.now proper ty text.now) }
    {
        match strict(proper, self.meaning(ty, &text.node)) {
            Ok(value) => (value, None),
            Err(rule) => (Value::Unknown, breaks(text.span, rule)),
        }
    }

    fn values(
        &self,
        proper: bool,
        formals: &[Formal],
        texts: &[ValueTree],
    ) -> (Args, Option<Violation>)
        requires few { length formals.now ≤ 8 }
        requires same { length texts.now ≡ length formals.now }
        ensures made { result.0 ≡ values_in self.now proper (types_of formals.now) texts.now }
        ensures found { result.1 ≡ first (values_broken self.now proper (types_of formals.now) texts.now) }
    {
        let mut args = Args::new(&[]);
        let mut found = None;
        for (k, formal) in formals.iter().enumerate() {
            let made = self.value(proper, formal.ty, &texts[k]);
            args.push(made.0);
            found = earlier(found, made.1);
        }
        (args, found)
    }

    /// The arguments that texts stand for where values of the formals are asked, with the first of what they break. What they
    /// are arguments of is named at `name`.
    pub fn arguments(
        &self,
        proper: bool,
        name: Span,
        formals: &[Formal],
        texts: &[ValueTree],
    ) -> (Args, Option<Violation>)
        requires { length formals.now ≤ 8 }
        ensures made { result.0 ≡ arguments_in self.now proper (types_of formals.now) texts.now }
        ensures found { result.1 ≡ first (arguments_broken self.now proper name (types_of formals.now) texts.now) }
    {
        if texts.len() == formals.len() {
            self.values(proper, formals, texts)
        } else {
            (Args::new(&[]), breaks(name, Rule::WrongCount))
        }
    }
}
