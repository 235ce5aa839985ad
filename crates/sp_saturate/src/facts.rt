//! The closure of a formula's given facts, with assumptions that are made and taken back.
#![tactic(auto, using(crate::proofs::Trails::extends_then, crate::proofs::Trails::extends_none))]

ghost use Rattle.std.specs.Prelude.{◌≡◌, ℕ, ◌↔◌, ◌≤◌, ◌<◌, ◌++◌, ◌∷◌, ◌-◌, ◌*◌, ◌||◌, true, false, [], All, IfOk, IfSome, IsTrue, MatchOption, OnErr, length, take, slice_index, slice_index_or, vec_len, vec_capacity};
ghost use Rattle.sp_rules.specs.Terms.{count};
ghost use Rattle.sp_rules.specs.Table.{in_range};
ghost use Rattle.sp_rules.specs.Branches.{HasClash};
ghost use Rattle.sp_rules.specs.Clash.{IsFirstClash, is_clash};
ghost use Rattle.sp_rules.specs.Facts.{has_truth, is_one_of};
ghost use Rattle.sp_rules.specs.Laws.{AreIn, IsClosed};
ghost use Rattle.sp_rules.specs.Questions.{is_truth_below};
ghost use Rattle.sp_rules.specs.declared.fact.Fact.{Fact};
ghost use Rattle.sp_saturate.specs.Accepted.{AreAccepted, EndInClash};
ghost use Rattle.sp_saturate.specs.Looking.{HasClashOn, IsCalmOn};
ghost use Rattle.sp_saturate.specs.Situations.{Situation, FollowAsMany, IsFollowing, assuming, supposed};
ghost use Rattle.sp_saturate.specs.Steps.{on, given_on};
ghost use Rattle.sp_saturate.specs.Trail.{Extends};

use crate::behind::steps_behind;
use crate::clashes::first_clash;
use crate::follow::{follow, follow_to_clash, has_clash, start, try_all};
use crate::fronts::{ends_in_clash, front};
use crate::gaps::gap;
use crate::parents::Parents;
use crate::trail::Trail;
use sp_rules::{Fact, Root, Step, TermTable};
use sp_text::Memory;
use std::alloc::Global;
use std::marker::Model;

/// The most assumptions at a time.
pub const MOST_ASSUMPTIONS: usize = 20;

/// The facts that follow from the given ones of a formula and from assumptions on its atoms.
#[derive(Drop)]
pub struct Facts<'a> {
    trail: Trail<'a>,
    parents: Parents,
    given: &'a [Fact],
    atoms: &'a [u16],
    assumed: Vec<Fact>,
    /// How many steps there were before each assumption.
    starts: Vec<u32>,
}

impl<'a> Model for Facts<'a> {
    ghost use Rattle.std.specs.Prelude.{◌≤◌, vec_capacity};
    ghost use Rattle.sp_saturate.specs.Situations.{Situation, AreKept};

    ghost Value = { Situation };

    ghost view = { λ a. record { question = record { terms = a.trail.terms; given = a.given.now; atoms = a.atoms.now }; assumed = a.assumed.items } };

    ghost invariant = { λ a. AreKept (record { terms = a.trail.terms; given = a.given.now; atoms = a.atoms.now }) a.trail.steps a.assumed.items a.starts.items × (20 ≤ vec_capacity a.assumed) × (20 ≤ vec_capacity a.starts) };
}

/// Closes a trail, whose steps before the given one are followed up.
fn close(trail: &mut Trail, parents: &Parents, from: u32)
    ensures extends { Extends trail.old trail.new }
    ensures closed { IsClosed trail.new.terms (on trail.new.steps) }
{
    let mut next = from;
    'rounds: loop {
        follow(trail, parents, next);
        next = trail.count();
        let Some(step) = gap(trail) else {
            return;
        };
        let _ = trail.try_step(&step);
        trail.tell_few();
    }
}

/// The same, but only until there is a clash. Whether there is one.
fn close_to_clash(trail: &mut Trail, parents: &Parents, from: u32) -> bool
    ensures extends { Extends trail.old trail.new }
    ensures clash { IsTrue result → HasClashOn trail.new }
    ensures calm { result ≡ false → IsCalmOn trail.new }
    ensures closed { IsCalmOn trail.new → IsClosed trail.new.terms (on trail.new.steps) }
{
    let mut next = from;
    'rounds: loop {
        if follow_to_clash(trail, parents, next) {
            return true;
        }
        next = trail.count();
        let Some(step) = gap(trail) else {
            return has_clash(trail, 0);
        };
        let _ = trail.try_step(&step);
        trail.tell_few();
    }
}

/// Gives the facts of a list to a trail whose facts are all given.
fn give_all(trail: &mut Trail, facts: &[Fact])
    requires given { (f : Fact) → given_on trail.old.steps f ≡ on trail.old.steps f }
    requires within { (k : ℕ) → k < length facts.now → IsTrue (in_range (count trail.old.terms) (slice_index_or facts.now k (Fact.Eq 0 0))) }
    ensures terms { trail.new.terms ≡ trail.old.terms }
    ensures on { (f : Fact) → on trail.new.steps f ≡ (on trail.old.steps f || is_one_of facts.now f) }
    ensures given { (f : Fact) → given_on trail.new.steps f ≡ on trail.new.steps f }
{
    for fact in facts {
        trail.give(*fact);
    }
}

/// That a term has this truth value.
fn truth_fact(term: u16, truth: bool) -> Fact
    ensures { result ≡ has_truth term truth }
{
    if truth {
        Fact::Eq(term as u32, 0)
    } else {
        Fact::Eq(term as u32, 1)
    }
}

fn start_at(starts: &[u32], k: usize) -> u32
    requires { k < length starts.now }
    ensures { result ≡ slice_index starts.now k }
{
    starts[k]
}

fn atom_at(atoms: &[u16], k: u16) -> u16
    requires { k < length atoms.now }
    ensures { result ≡ slice_index atoms.now k }
{
    atoms[k as usize]
}

/// Puts a fact behind others, for which there is room.
fn push_fact(facts: &mut Vec<Fact>, fact: Fact)
    requires { vec_len facts.old < vec_capacity facts.old }
    ensures items { facts.new.items ≡ facts.old.items ++ fact ∷ [] }
    ensures capacity { vec_capacity facts.old ≤ vec_capacity facts.new }
{
    if facts.push(fact).is_err() {
        unreachable!();
    }
}

/// The same of a number.
fn push_start(starts: &mut Vec<u32>, start: u32)
    requires { vec_len starts.old < vec_capacity starts.old }
    ensures items { starts.new.items ≡ starts.old.items ++ start ∷ [] }
    ensures capacity { vec_capacity starts.old ≤ vec_capacity starts.new }
{
    if starts.push(start).is_err() {
        unreachable!();
    }
}

/// The steps of a list that lack nothing, over these facts and one after the other.
fn replayed(
    alloc: Global,
    terms: &TermTable,
    given: &[Fact],
    assumed: &[Fact],
    steps: &[Step],
) -> Result<Vec<Step>, Memory>
    requires given { (k : ℕ) → k < length given.now → IsTrue (in_range (count terms.now) (slice_index_or given.now k (Fact.Eq 0 0))) }
    requires assumed { (k : ℕ) → k < length assumed.now → IsTrue (in_range (count terms.now) (slice_index_or assumed.now k (Fact.Eq 0 0))) }
    ensures accepted { IfOk result (λ v. AreAccepted terms.now (is_one_of (given.now ++ assumed.now)) v.items) }
    ensures few { IfOk result (λ v. length v.items ≤ 2 * (count terms.now * count terms.now)) }
{
    let mut trail = Trail::new(alloc, terms)?;
    give_all(&mut trail, given);
    give_all(&mut trail, assumed);
    try_all(&mut trail, steps);
    trail.tell_few();
    front(alloc, &trail)
}

/// Steps of a trail that lack nothing, and end in a clash where it has one. Those that the clash doesn't rest on are left
/// out as far as a guess tells.
fn steps_to_clash(
    alloc: Global,
    trail: &Trail,
    given: &[Fact],
    assumed: &[Fact],
) -> Result<Vec<Step>, Memory>
    requires given { All (λ f. IsTrue (is_truth_below (count trail.now.terms) f)) given.now }
    requires assumed { All (λ f. IsTrue (is_truth_below (count trail.now.terms) f)) assumed.now }
    requires two { 2 ≤ count trail.now.terms }
    requires from { AreIn (given_on trail.now.steps) (is_one_of (given.now ++ assumed.now)) }
    ensures accepted { IfOk result (λ v. AreAccepted trail.now.terms (is_one_of (given.now ++ assumed.now)) v.items) }
    ensures few { IfOk result (λ v. length v.items ≤ 2 * (count trail.now.terms * count trail.now.terms)) }
    ensures ends { IfOk result (λ v. HasClashOn trail.now → EndInClash trail.now.terms v.items) }
{
    trail.tell_few();
    let terms = trail.terms();
    let whole = front(alloc, trail)?;
    let behind = steps_behind(alloc, terms, given, assumed, &whole)?;
    let pruned = replayed(alloc, terms, given, assumed, &behind)?;
    if ends_in_clash(terms, &pruned) {
        return Ok(pruned);
    }
    Ok(whole)
}

impl<'a> Facts<'a> {
    /// The facts that follow from the given ones. It takes all the room that assumptions want.
    ///
    /// # Errors
    /// `Memory` where the room is refused.
    pub fn open(alloc: Global, root: &'a Root) -> Result<Facts<'a>, Memory>
        ensures { IfOk result (λ a. a ≡ record { question = root.now; assumed = [] }) }
    {
        root.tell_question();
        let terms = root.terms();
        let given = root.given();
        let atoms = root.atoms();
        let parents = Parents::of(alloc, terms)?;
        let assumed = Vec::with_capacity(alloc, MOST_ASSUMPTIONS)?;
        let starts = Vec::with_capacity(alloc, MOST_ASSUMPTIONS)?;
        let mut trail = Trail::new(alloc, terms)?;
        give_all(&mut trail, given);
        start(&mut trail);
        close(&mut trail, &parents, 0);
        Ok(Facts {
            trail,
            parents,
            given,
            atoms,
            assumed,
            starts,
        })
    }

    /// The numbers of the atoms' terms.
    pub fn atoms(&self) -> &'a [u16]
        ensures { result.now ≡ self.now.question.atoms }
    {
        self.atoms
    }

    /// What is assumed, in order.
    pub fn assumed(&self) -> &[Fact]
        ensures { result.now ≡ self.now.assumed }
    {
        &self.assumed
    }

    /// Whether the fact follows from the given ones and the assumptions.
    pub fn holds(&self, fact: Fact) -> bool
        ensures { IsTrue result ↔ IsFollowing self.now fact }
    {
        self.trail.tell_found();
        self.trail.holds(fact)
    }

    /// Assumes besides that the atom of this index has this truth value. It takes no memory.
    pub fn assume(&mut self, atom: u16, truth: bool)
        requires atom { atom < length self.old.question.atoms }
        requires few { length self.old.assumed < 20 }
        ensures { self.new ≡ record self.old { assumed = self.old.assumed ++ has_truth (slice_index self.old.question.atoms atom) truth ∷ [] } }
    {
        let fact = truth_fact(atom_at(self.atoms, atom), truth);
        let start = self.trail.count();
        self.trail.give(fact);
        close(&mut self.trail, &self.parents, start);
        push_fact(&mut self.assumed, fact);
        push_start(&mut self.starts, start);
    }

    /// Assumes besides that the atom of this index has this truth value, if no clash follows then. Else it hands out steps
    /// to a clash, as `steps` does, and leaves the facts as they were: they are followed no further than to a clash.
    ///
    /// # Errors
    /// `Memory` where the steps can't be stored; the facts are as they were then.
    pub fn refute(
        &mut self,
        alloc: Global,
        atom: u16,
        truth: bool,
    ) -> Result<Option<Vec<Step>>, Memory>
        requires atom { atom < length self.old.question.atoms }
        requires few { length self.old.assumed < 20 }
        ensures clash { IfOk result (λ o. MatchOption o (HasClash self.old.question.terms (supposed (assuming self.old atom truth)) → ⊥) (λ steps. HasClash self.old.question.terms (supposed (assuming self.old atom truth)))) }
        ensures accepted { IfOk result (λ o. IfSome o (λ steps. AreAccepted self.old.question.terms (supposed (assuming self.old atom truth)) steps.items)) }
        ensures few { IfOk result (λ o. IfSome o (λ steps. length steps.items ≤ 2 * (count self.old.question.terms * count self.old.question.terms))) }
        ensures ends { IfOk result (λ o. IfSome o (λ steps. EndInClash self.old.question.terms steps.items)) }
        ensures assumed { IfOk result (λ o. MatchOption o (self.new ≡ assuming self.old atom truth) (λ steps. self.new ≡ self.old)) }
        ensures undone { OnErr result (self.new ≡ self.old) }
    {
        let fact = truth_fact(atom_at(self.atoms, atom), truth);
        let before = self.trail.count();
        self.trail.give(fact);
        let is_clashing = close_to_clash(&mut self.trail, &self.parents, before);
        push_fact(&mut self.assumed, fact);
        self.trail.tell_found();
        if !is_clashing {
            push_start(&mut self.starts, before);
            return Ok(None);
        }
        let steps = steps_to_clash(alloc, &self.trail, self.given, &self.assumed);
        self.trail.release(before);
        self.assumed.truncate(self.starts.len());
        Ok(Some(steps?))
    }

    /// Takes the last assumption back.
    pub fn back(&mut self)
        requires { 0 < length self.old.assumed }
        ensures { self.new ≡ record self.old { assumed = take (length self.old.assumed - 1) self.old.assumed } }
    {
        let last = self.starts.len() - 1;
        let start = start_at(&self.starts, last);
        self.trail.release(start);
        self.assumed.truncate(last);
        self.starts.truncate(last);
    }

    /// Steps that lack nothing over the given facts, the assumptions and those before them, and end in a clash where one
    /// follows. Those that the clash doesn't rest on are left out as far as a guess tells.
    ///
    /// # Errors
    /// `Memory` where the steps can't be stored.
    pub fn steps(&self, alloc: Global) -> Result<Vec<Step>, Memory>
        ensures accepted { IfOk result (λ v. AreAccepted self.now.question.terms (supposed self.now) v.items) }
        ensures few { IfOk result (λ v. length v.items ≤ 2 * (count self.now.question.terms * count self.now.question.terms)) }
        ensures ends { IfOk result (λ v. (f : Fact) → IsFollowing self.now f → is_clash self.now.question.terms f ≡ true → EndInClash self.now.question.terms v.items) }
    {
        steps_to_clash(alloc, &self.trail, self.given, &self.assumed)
    }

    /// The first clash among the facts that follow, equalities before the order, then by their numbers.
    pub fn clash(&self) -> Option<Fact>
        ensures { IsFirstClash self.now.question.terms (IsFollowing self.now) result }
    {
        self.trail.tell_found();
        first_clash(&self.trail)
    }

    /// How many facts follow.
    pub fn count(&self) -> u32
        ensures { FollowAsMany self.now result }
    {
        self.trail.tell_found();
        self.trail.count()
    }
}
