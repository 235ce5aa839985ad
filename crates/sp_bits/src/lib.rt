//! A table of bits: n times n, in rows of whole words. Contracts see its count n and the list of its pairs in order.
#![tactic(auto)]

ghost use Rattle.std.specs.Prelude.{◌≡◌, ◌==◌, ℕ, ◌<◌, ◌+◌, ◌*◌, ◌||◌, ◌&&◌, not, Bool, IfOk, length, IsTrue, slice_index, ◌≤◌, true, false};
ghost use Rattle.sp_bits.specs.Table.{Bits, IsTable, empty_table, with_pair, without_pair, has, is_pair, bit_in, has_bit, AreWithin};

use sp_text::Memory;
use std::alloc::Global;
use std::marker::Model;

/// Pairs of numbers below a count, as rows of bits, each of which begins a word.
#[derive(Drop)]
pub struct BitTable {
    count: u16,
    /// How many words a row has.
    width: usize,
    words: Vec<u64>,
}

impl Model for BitTable {
    ghost use Rattle.std.specs.Prelude.{ℕ, ◌*◌, ◌≤◌, vec_len};
    ghost use Rattle.sp_bits.specs.Table.{Bits, HaveNoneAfter, bits_code, table, bit_of};

    ghost Value = { Bits };

    ghost coded = { bits_code };

    ghost view = { λ t. table t.count (bit_of t.words.items (64 * t.width)) };

    ghost invariant = { λ t. (t.count ≤ 64 * t.width) × (t.width ≤ 1024) × (t.count * t.width ≤ vec_len t.words) × HaveNoneAfter t.words.items t.count (64 * t.width) };
}

/// The place of the j-th bit of row i.
fn place(count: u16, width: usize, i: u16, j: u16) -> usize
    requires i { i < count }
    requires j { j < 64 * width }
    requires few { width ≤ 1024 }
    ensures place { result ≡ i * (64 * width) + j }
    ensures within { result < 64 * (count * width) }
{
    i as usize * (64 * width) + j as usize
}

fn read(words: &[u64], k: usize) -> bool
    requires { k < 64 * length words.now }
    ensures { result ≡ bit_in words.now k }
{
    (words[k / 64] >> (k % 64)) & 1 == 1
}

fn word_at(words: &[u64], k: usize) -> u64
    requires { k < length words.now }
    ensures { result ≡ slice_index words.now k }
{
    words[k]
}

fn raise(words: &mut [u64], k: usize)
    requires { k < 64 * length words.old }
    ensures { (m : ℕ) → bit_in words.new m ≡ (m == k || bit_in words.old m) }
{
    words[k / 64] = words[k / 64] | (1 << (k % 64));
}

fn lower(words: &mut [u64], k: usize)
    requires { k < 64 * length words.old }
    ensures { (m : ℕ) → bit_in words.new m ≡ (not (m == k) && bit_in words.old m) }
{
    words[k / 64] = words[k / 64] & !(1 << (k % 64));
}

/// Whether each bit of the words from a on is one of those from b on.
fn is_within(words: &[u64], a: usize, b: usize, width: usize) -> bool
    requires a { a + width ≤ length words.now }
    requires b { b + width ≤ length words.now }
    ensures within { IsTrue result → AreWithin words.now a b (64 * width) }
    ensures all { AreWithin words.now a b (64 * width) → IsTrue result }
{
    for k in 0..width {
        if words[a + k] & !words[b + k] != 0 {
            return false;
        }
    }
    true
}

impl BitTable {
    /// A table without pairs, of numbers below the count.
    ///
    /// # Errors
    /// `Memory` where the words can't be stored.
    pub fn new(alloc: Global, count: u16) -> Result<BitTable, Memory>
        ensures { IfOk result (λ t. t ≡ empty_table count) }
    {
        let width = (count as usize).div_ceil(64);
        let words = vec![in alloc; 0u64; count as usize * width]?;
        Ok(BitTable {
            count,
            width,
            words,
        })
    }

    pub fn count(&self) -> u16
        ensures { result ≡ self.now.count }
    {
        self.count
    }

    /// Tells that each pair of a table is below its count, and that its pairs stand in order. It does nothing.
    pub fn tell_within(&self)
        ensures within { (a b : ℕ) → has self.now a b ≡ true → (a < self.now.count) × (b < self.now.count) }
        ensures few { length self.now.pairs ≤ self.now.count * self.now.count }
        ensures table { IsTable self.now }
    {
        let _ = &self.words;
    }

    /// Whether the pair is in.
    pub fn get(&self, i: u16, j: u16) -> bool
        requires i { i < self.now.count }
        requires j { j < self.now.count }
        ensures { result ≡ has self.now i j }
    {
        read(&self.words, place(self.count, self.width, i, j))
    }

    /// Whether the pair is in, for any two numbers.
    pub fn contains(&self, i: u32, j: u32) -> bool
        ensures { result ≡ has self.now i j }
    {
        let count = self.count as u32;
        if i >= count {
            return false;
        }
        if j >= count {
            return false;
        }
        self.get(i as u16, j as u16)
    }

    /// Whether each pair (p, j) has its pair (i, j).
    pub fn is_row_within(&self, p: u16, i: u16) -> bool
        requires p { p < self.now.count }
        requires i { i < self.now.count }
        ensures within { IsTrue result → (j : ℕ) → has self.now p j ≡ true → has self.now i j ≡ true }
        ensures all { ((j : ℕ) → has self.now p j ≡ true → has self.now i j ≡ true) → IsTrue result }
    {
        is_within(
            &self.words,
            p as usize * self.width,
            i as usize * self.width,
            self.width,
        )
    }

    /// The k-th word of a row, whose bit r is the pair (i, 64 k + r); bits past the count promise nothing.
    pub fn word(&self, i: u32, k: u32) -> u64
        ensures { (r : ℕ) → r < 64 → i < self.now.count → 64 * k + r < self.now.count → has_bit result r ≡ has self.now i (64 * k + r) }
    {
        if i >= self.count as u32 {
            return 0;
        }
        if k as usize >= self.width {
            return 0;
        }
        word_at(&self.words, i as usize * self.width + k as usize)
    }

    /// Puts a pair in. True where it wasn't there before.
    pub fn set(&mut self, i: u16, j: u16) -> bool
        requires i { i < self.old.count }
        requires j { j < self.old.count }
        ensures table { self.new ≡ with_pair self.old i j }
        ensures count { self.new.count ≡ self.old.count }
        ensures has { (a b : ℕ) → has self.new a b ≡ (is_pair i j a b || has self.old a b) }
        ensures was { result ≡ not (has self.old i j) }
        ensures same { result ≡ false → self.new ≡ self.old }
        ensures one_more { IsTrue result → length self.new.pairs ≡ length self.old.pairs + 1 }
    {
        let k = place(self.count, self.width, i, j);
        let was = read(&self.words, k);
        raise(&mut self.words, k);
        !was
    }

    /// Takes a pair out, if it is in.
    pub fn clear(&mut self, i: u16, j: u16)
        requires i { i < self.old.count }
        requires j { j < self.old.count }
        ensures table { self.new ≡ without_pair self.old i j }
        ensures count { self.new.count ≡ self.old.count }
        ensures has { (a b : ℕ) → has self.new a b ≡ (not (is_pair i j a b) && has self.old a b) }
        ensures one_less { has self.old i j ≡ true → length self.old.pairs ≡ length self.new.pairs + 1 }
    {
        let k = place(self.count, self.width, i, j);
        lower(&mut self.words, k);
    }
}
