//! The steps that a list's last one rests on. Nothing is proved of them: whoever takes them tests each anew.

use sp_bits::BitTable;
use sp_rules::{Fact, Needs, Step, TermTable, needs};
use sp_text::Memory;
use std::alloc::Global;

/// A set of facts about terms.
#[derive(Drop)]
struct FactSet {
    equalities: BitTable,
    order: BitTable,
}

fn put(table: &mut BitTable, i: u32, j: u32) {
    let count = table.count() as u32;
    if i < count && j < count {
        let _ = table.set(i as u16, j as u16);
    }
}

fn take_out(table: &mut BitTable, i: u32, j: u32) {
    let count = table.count() as u32;
    if i < count && j < count {
        table.clear(i as u16, j as u16);
    }
}

impl FactSet {
    fn new(alloc: Global, terms: &TermTable) -> Result<FactSet, Memory> {
        let count = terms.count() as u16;
        let equalities = BitTable::new(alloc, count)?;
        let order = BitTable::new(alloc, count)?;
        Ok(FactSet { equalities, order })
    }

    fn has(&self, fact: Fact) -> bool {
        match fact {
            Fact::Eq(i, j) => self.equalities.contains(i, j),
            Fact::Le(i, j) => self.order.contains(i, j),
        }
    }

    fn put(&mut self, fact: Fact) {
        match fact {
            Fact::Eq(i, j) => put(&mut self.equalities, i, j),
            Fact::Le(i, j) => put(&mut self.order, i, j),
        }
    }

    fn take_out(&mut self, fact: Fact) {
        match fact {
            Fact::Eq(i, j) => take_out(&mut self.equalities, i, j),
            Fact::Le(i, j) => take_out(&mut self.order, i, j),
        }
    }

    fn put_all(&mut self, facts: &[Fact]) {
        for fact in facts {
            self.put(*fact);
        }
    }

    fn put_steps(&mut self, steps: &[Step]) {
        for step in steps {
            self.put(step.fact);
        }
    }
}

fn put_arguments(needed: &mut FactSet, terms: &TermTable, i: u32, j: u32) {
    for k in 0..terms.argument_count(i) {
        needed.put(Fact::Eq(terms.argument(i, k), terms.argument(j, k)));
    }
}

/// Puts in what a step needs; of two facts one of which is enough, one that is there before it.
fn put_needs(needed: &mut FactSet, before: &FactSet, terms: &TermTable, step: &Step) {
    match needs(terms, step) {
        Needs::Nothing => {}
        Needs::One(f) => needed.put(f),
        Needs::Both(f, g) => {
            needed.put(f);
            needed.put(g);
        }
        Needs::Either(f, g) => needed.put(if before.has(f) { f } else { g }),
        Needs::Arguments(i, j) => put_arguments(needed, terms, i, j),
    }
}

/// The steps that the last of these rests on, besides the given and the assumed facts, in order.
///
/// # Errors
/// `Memory` where they can't be stored.
pub fn steps_behind(
    alloc: Global,
    terms: &TermTable,
    given: &[Fact],
    assumed: &[Fact],
    steps: &[Step],
) -> Result<Vec<Step>, Memory> {
    let mut before = FactSet::new(alloc, terms)?;
    before.put_all(given);
    before.put_all(assumed);
    before.put_steps(steps);
    let mut needed = FactSet::new(alloc, terms)?;
    if let Some(last) = steps.last() {
        needed.put(last.fact);
    }
    let mut kept = Vec::new(alloc);
    for step in steps.iter().rev() {
        before.take_out(step.fact);
        if needed.has(step.fact) {
            put_needs(&mut needed, &before, terms, step);
            kept.push(*step)?;
        }
    }
    kept.reverse();
    Ok(kept)
}
