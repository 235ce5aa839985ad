//! Facts with the steps by which they were found.

ghost use Rattle.std.specs.Prelude.{◌≡◌, ℕ, ◌+◌, ◌-◌, ◌*◌, ◌<◌, ◌≤◌, ◌++◌, ◌∷◌, ◌&&◌, ◌⊎◌, not, [], IfOk, IsTrue, length, take, true, false, None};
ghost use Rattle.sp_rules.specs.Terms.{count};
ghost use Rattle.sp_rules.specs.Table.{are_terms, in_range, lack_of};
ghost use Rattle.sp_rules.specs.Facts.{holds_in};
ghost use Rattle.sp_saturate.specs.Steps.{on, given, step_at, step_of, AreFound};
ghost use Rattle.sp_saturate.specs.Marked.{IsMarked, IsUnmarked};
ghost use Rattle.sp_saturate.specs.Trail.{Extends, is_new, with_given};

use sp_bits::BitTable;
use sp_pool::Region;
use sp_rules::{Fact, Step, TermTable, holds, lack};
use sp_text::Memory;
use std::alloc::Global;
use std::marker::Model;

/// Facts about terms, each with the step by which it was found, in order; two tables find them.
#[derive(Drop)]
pub struct Trail<'a> {
    terms: &'a TermTable,
    eq: BitTable,
    le: BitTable,
    records: Region,
}

impl<'a> Model for Trail<'a> {
    ghost use Rattle.std.specs.Prelude.{map};
    ghost use Rattle.sp_saturate.specs.Steps.{step_of};
    ghost use Rattle.sp_saturate.specs.Trail.{Found, IsTrail};

    ghost Value = { Found };

    ghost view = { λ t. record { terms = t.terms.now; steps = map step_of t.records.records } };

    ghost invariant = { λ t. IsTrail t.terms.now t.eq t.le t.records };
}

/// The four words of a step.
fn spelled(step: &Step) -> [u32; 4]
    requires fact { IsTrue (in_range 512 step.now.fact) }
    requires p { step.now.p < 512 }
    requires q { step.now.q < 512 }
    ensures back { step_of result ≡ step.now }
    ensures four { length result ≡ 4 }
{
    let last = step.p * 512 + step.q;
    match step.fact {
        Fact::Eq(i, j) => [step.rule as u32 * 2, i, j, last],
        Fact::Le(i, j) => [step.rule as u32 * 2 + 1, i, j, last],
    }
}

/// Puts a fact that isn't there into its table.
fn mark(eq: &mut BitTable, le: &mut BitTable, fact: Fact)
    requires fact { IsTrue (in_range eq.old.count fact) }
    requires few { eq.old.count ≤ 512 }
    requires same { le.old.count ≡ eq.old.count }
    requires absent { holds_in eq.old le.old fact ≡ false }
    ensures { IsMarked fact eq.old le.old eq.new le.new }
{
    match fact {
        Fact::Eq(i, j) => {
            let _ = eq.set(i as u16, j as u16);
        }
        Fact::Le(i, j) => {
            let _ = le.set(i as u16, j as u16);
        }
    }
}

/// Takes a fact that is there out of its table.
fn unmark(eq: &mut BitTable, le: &mut BitTable, fact: Fact)
    requires fact { IsTrue (in_range eq.old.count fact) }
    requires few { eq.old.count ≤ 512 }
    requires same { le.old.count ≡ eq.old.count }
    requires there { holds_in eq.old le.old fact ≡ true }
    ensures { IsUnmarked fact eq.old le.old eq.new le.new }
{
    match fact {
        Fact::Eq(i, j) => eq.clear(i as u16, j as u16),
        Fact::Le(i, j) => le.clear(i as u16, j as u16),
    }
}

/// The fact that four words spell.
fn fact_of(words: &[u32]) -> Fact
    requires { length words.now ≡ 4 }
    ensures { result ≡ (step_of words.now).fact }
{
    if words[0] % 2 == 0 {
        Fact::Eq(words[1], words[2])
    } else {
        Fact::Le(words[1], words[2])
    }
}

/// The step that four words spell.
fn step_of(words: &[u32]) -> Step
    requires { length words.now ≡ 4 }
    ensures { result ≡ step_of words.now }
{
    Step {
        fact: fact_of(words),
        rule: (words[0] / 2 % 256) as u8,
        p: words[3] / 512,
        q: words[3] % 512,
    }
}

impl<'a> Trail<'a> {
    /// A trail without steps. It takes all its room.
    ///
    /// # Errors
    /// `Memory` where the room is refused.
    pub fn new(alloc: Global, terms: &'a TermTable) -> Result<Trail<'a>, Memory>
        ensures { IfOk result (λ t. t ≡ record { terms = terms.now; steps = [] }) }
    {
        let n = terms.count();
        let eq = BitTable::new(alloc, n as u16)?;
        let le = BitTable::new(alloc, n as u16)?;
        let records = Region::new(alloc, 8 * (n * n), 2 * (n * n))?;
        Ok(Trail {
            terms,
            eq,
            le,
            records,
        })
    }

    /// The terms that it speaks of.
    pub fn terms(&self) -> &'a TermTable
        ensures { result.now ≡ self.now.terms }
    {
        self.terms
    }

    /// Whether the fact is there.
    pub fn holds(&self, fact: Fact) -> bool
        ensures { result ≡ on self.now.steps fact }
    {
        holds(&self.eq, &self.le, fact)
    }

    /// A word of the terms that are equal to term i.
    pub fn equals(&self, i: u32, k: u32) -> u64 {
        self.eq.word(i, k)
    }

    /// A word of the terms above term i.
    pub fn uppers(&self, i: u32, k: u32) -> u64 {
        self.le.word(i, k)
    }

    /// Whether each term that is equal to p is one that is equal to i.
    pub fn is_equal_within(&self, p: u32, i: u32) -> bool
        requires p { p < count self.now.terms }
        requires i { i < count self.now.terms }
        ensures within { IsTrue result → (j : ℕ) → on self.now.steps (Fact.Eq p j) ≡ true → on self.now.steps (Fact.Eq i j) ≡ true }
        ensures all { ((j : ℕ) → on self.now.steps (Fact.Eq p j) ≡ true → on self.now.steps (Fact.Eq i j) ≡ true) → IsTrue result }
    {
        self.eq.is_row_within(p as u16, i as u16)
    }

    /// Whether each term above p is one above i.
    pub fn is_upper_within(&self, p: u32, i: u32) -> bool
        requires p { p < count self.now.terms }
        requires i { i < count self.now.terms }
        ensures within { IsTrue result → (j : ℕ) → on self.now.steps (Fact.Le p j) ≡ true → on self.now.steps (Fact.Le i j) ≡ true }
        ensures all { ((j : ℕ) → on self.now.steps (Fact.Le p j) ≡ true → on self.now.steps (Fact.Le i j) ≡ true) → IsTrue result }
    {
        self.le.is_row_within(p as u16, i as u16)
    }

    /// How many steps there are.
    pub fn count(&self) -> u32
        ensures { result ≡ length self.now.steps }
    {
        self.records.count()
    }

    /// How many terms there are.
    pub fn size(&self) -> u32
        ensures size { result ≡ count self.now.terms }
        ensures few { count self.now.terms ≤ 512 }
    {
        self.terms.count()
    }

    /// Tells that each step is given or lacks nothing over those before it. It does nothing.
    pub fn tell_found(&self)
        ensures { AreFound self.now.terms self.now.steps }
    {
        let _ = &self.records;
    }

    /// Tells that there are at most two facts of each pair of terms. It does nothing.
    pub fn tell_few(&self)
        ensures { length self.now.steps ≤ 2 * (count self.now.terms * count self.now.terms) }
    {
        self.eq.tell_within();
        self.le.tell_within();
    }

    /// The fact of the k-th step.
    pub fn fact(&self, k: u32) -> Fact
        requires { k < length self.now.steps }
        ensures fact { result ≡ (step_at self.now.steps k).fact }
    {
        fact_of(self.records.record(k))
    }

    /// The k-th step.
    pub fn step(&self, k: u32) -> Step
        requires { k < length self.now.steps }
        ensures { result ≡ step_at self.now.steps k }
    {
        step_of(self.records.record(k))
    }

    /// Whether a step lacks nothing and gives a fact that isn't there.
    #[inline(always)]
    pub fn is_new(&self, step: &Step) -> bool
        ensures { result ≡ is_new self.now step.now }
    {
        !self.holds(step.fact) && lack(&self.eq, &self.le, self.terms, step).is_none()
    }

    /// Puts in the fact of a step that isn't there.
    fn put(&mut self, step: &Step)
        requires terms { are_terms self.old.terms step.now ≡ true }
        requires new { on self.old.steps step.now.fact ≡ false }
        requires reason { (step.now.rule ≡ 0) ⊎ (lack_of self.old.terms (on self.old.steps) step.now ≡ None) }
        ensures { self.new ≡ record self.old { steps = self.old.steps ++ step.now ∷ [] } }
    {
        mark(&mut self.eq, &mut self.le, step.fact);
        self.eq.tell_within();
        self.le.tell_within();
        let words = spelled(step);
        let Ok(_) = self.records.place(&words) else {
            unreachable!();
        };
    }

    /// Puts in a given fact, if it isn't there.
    pub fn give(&mut self, fact: Fact)
        requires { IsTrue (in_range (count self.old.terms) fact) }
        ensures { self.new ≡ record self.old { steps = with_given self.old.steps fact } }
    {
        if !self.holds(fact) {
            self.put(&Step {
                fact,
                rule: 0,
                p: 0,
                q: 0,
            });
        }
    }

    /// Puts in the fact of a step that lacks nothing, if it isn't there.
    pub fn try_step(&mut self, step: &Step) -> bool
        ensures added { IsTrue result → self.new ≡ record self.old { steps = self.old.steps ++ step.now ∷ [] } }
        ensures same { result ≡ false → self.new ≡ self.old }
        ensures new { result ≡ is_new self.old step.now }
        ensures extends { Extends self.old self.new }
    {
        if self.is_new(step) {
            self.put(step);
            true
        } else {
            false
        }
    }

    /// Takes the last step away.
    fn drop_last(&mut self)
        requires { 0 < length self.old.steps }
        ensures { self.new ≡ record self.old { steps = take (length self.old.steps - 1) self.old.steps } }
    {
        self.eq.tell_within();
        self.le.tell_within();
        let last = self.records.count() - 1;
        let fact = fact_of(self.records.record(last));
        unmark(&mut self.eq, &mut self.le, fact);
        self.records.release(last);
    }

    /// Keeps the first k steps and no other.
    pub fn release(&mut self, k: u32)
        requires { k ≤ length self.old.steps }
        ensures { self.new ≡ record self.old { steps = take k self.old.steps } }
    {
        while self.count() > k {
            self.drop_last();
        }
    }
}
