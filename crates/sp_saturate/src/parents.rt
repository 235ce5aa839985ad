//! Where a term stands in others.

use sp_pool::Head;
use sp_rules::TermTable;
use sp_text::Memory;
use sp_values::Value;
use std::alloc::Global;

/// For each term the terms of which it is an argument, and the integer constants. Nothing is proved of them: they only
/// say where to look.
#[derive(Drop)]
pub struct Parents {
    terms: Vec<u32>,
    bounds: Vec<usize>,
    integers: Vec<u32>,
}

/// Puts in the terms of which i is an argument.
fn put_parents(table: &TermTable, i: u32, n: u32, terms: &mut Vec<u32>) -> Result<(), Memory> {
    for t in i..n {
        if (0..8).any(|k| k < table.argument_count(t) && table.argument(t, k) == i) {
            terms.push(t)?;
        }
    }
    Ok(())
}

impl Parents {
    /// The parents of the terms of a table.
    ///
    /// # Errors
    /// `Memory` where they can't be stored.
    pub fn of(alloc: Global, table: &TermTable) -> Result<Parents, Memory> {
        let n = table.count();
        let mut terms = Vec::new(alloc);
        let mut bounds = Vec::new(alloc);
        let mut integers = Vec::new(alloc);
        for i in 0..n {
            bounds.push(terms.len())?;
            put_parents(table, i, n, &mut terms)?;
            if matches!(table.head(i), Head::Const(Value::Int(_) | Value::Unknown)) {
                integers.push(i)?;
            }
        }
        bounds.push(terms.len())?;
        Ok(Parents {
            terms,
            bounds,
            integers,
        })
    }

    /// The terms of which i is an argument.
    pub fn at(&self, i: u32) -> &[u32] {
        let bounds = self.bounds.as_slice();
        let i = i as usize;
        let from = if i < bounds.len() { bounds[i] } else { 0 };
        let to = if i + 1 < bounds.len() {
            bounds[i + 1]
        } else {
            0
        };
        if from <= to && to <= self.terms.len() {
            &self.terms[from..to]
        } else {
            &[]
        }
    }

    /// The integer constants.
    pub fn integers(&self) -> &[u32] {
        &self.integers
    }
}
