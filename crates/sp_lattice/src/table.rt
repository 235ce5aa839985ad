//! Tables with a row and a column for each level: relations as a list of tests, bounds as a list of levels.

ghost use Rattle.std.specs.Prelude.{◌≡◌, ◌==◌, ℕ, ◌+◌, ◌*◌, ◌<◌, ◌≤◌, ◌&&◌, ◌||◌, ◌↔◌, ◌⊎◌, Some, true, false, IfOk, IfErr, IfSome, IsNone, IsTrue, MatchOption, MatchResult, length};
ghost use Rattle.std.specs.List.{Contains};
ghost use Rattle.std.specs.Option.{ForSome};
ghost use Rattle.sp_text.specs.declared.limits.TheConstants.{MOST_LEVELS};
ghost use Rattle.sp_lattice.specs.Bounds.{IsPartialOrder, IsLeastUpper};
ghost use Rattle.sp_lattice.specs.Closure.{AreLevels, IsOrdered, Path};
ghost use Rattle.sp_lattice.specs.Refusal.{IsFirstPair, IsCycle, HasNoLub};
ghost use Rattle.sp_lattice.specs.Table.{entry, IsRelated, AreLubs, IsGreatest, IsMissing, is_lower_upper};

use sp_text::Memory;
use std::alloc::Global;

/// Why a table of bounds isn't filled: two levels have no bound, or memory was refused.
#[derive(Clone, Copy)]
pub enum BoundFault {
    Missing(u16, u16),
    Memory,
}

/// The place of row `x` and column `y`.
pub fn place(count: u16, x: u16, y: u16) -> usize
    requires x { x < count }
    requires y { y < count }
    ensures place { result ≡ x * count + y }
    ensures within { result < count * count }
{
    x as usize * count as usize + y as usize
}

/// The reflexive and transitive closure of the pairs.
pub fn closure(alloc: Global, count: u16, pairs: &[(u32, u32)]) -> Result<Vec<bool>, Memory>
    requires few { count ≤ MOST_LEVELS }
    requires levels { AreLevels count pairs.now }
    ensures square { IfOk result (λ table. length table.items ≡ count * count) }
    ensures order { IfOk result (λ table. (x y : ℕ) → x < count → y < count
        → (IsRelated count table.items x y ↔ IsOrdered pairs.now x y)) }
{
    let size = count as usize * count as usize;
    let mut table = vec![in alloc; false; size].map_err(|_| Memory)?;
    fill(&mut table, count, pairs);
    Ok(table)
}

/// Relates in an empty table what the closure of the pairs does.
fn fill(table: &mut [bool], count: u16, pairs: &[(u32, u32)])
    requires square { length table.old ≡ count * count }
    requires empty { (a b : ℕ) → entry count table.old a b ≡ false }
    requires levels { AreLevels count pairs.now }
    ensures { (x y : ℕ) → x < count → y < count
        → (IsRelated count table.new x y ↔ IsOrdered pairs.now x y) }
{
    relate_same(table, count);
    relate_pairs(table, count, pairs);
    close(table, count);
}

/// Relates two levels.
fn relate(table: &mut [bool], count: u16, x: u16, y: u16)
    requires square { length table.old ≡ count * count }
    requires x { x < count }
    requires y { y < count }
    ensures { (a b : ℕ) → a < count → b < count
        → entry count table.new a b ≡ (((a == x) && (b == y)) || entry count table.old a b) }
{
    table[place(count, x, y)] = true;
}

/// Relates each level to itself.
fn relate_same(table: &mut [bool], count: u16)
    requires { length table.old ≡ count * count }
    ensures { (a b : ℕ) → a < count → b < count
        → entry count table.new a b ≡ ((a == b) || entry count table.old a b) }
{
    for x in 0..count {
        relate(table, count, x, x);
    }
}

/// Relates the levels of each pair.
fn relate_pairs(table: &mut [bool], count: u16, pairs: &[(u32, u32)])
    requires square { length table.old ≡ count * count }
    requires levels { AreLevels count pairs.now }
    ensures kept { (a b : ℕ) → IsRelated count table.old a b → IsRelated count table.new a b }
    ensures whole { (a b : ℕ) → Contains pairs.now (a, b) → IsRelated count table.new a b }
    ensures only { (a b : ℕ) → IsRelated count table.new a b
        → IsRelated count table.old a b ⊎ Contains pairs.now (a, b) }
{
    for pair in pairs {
        relate(table, count, pair.0 as u16, pair.1 as u16);
    }
}

/// Relates levels between which there is a path.
fn close(table: &mut [bool], count: u16)
    requires { length table.old ≡ count * count }
    ensures kept { (a b : ℕ) → IsRelated count table.old a b → IsRelated count table.new a b }
    ensures only { (a b : ℕ) → IsRelated count table.new a b → Path (IsRelated count table.old) a b }
    ensures transitive { (a b c : ℕ) → IsRelated count table.new a b → IsRelated count table.new b c
        → IsRelated count table.new a c }
{
    for middle in 0..count {
        relate_through(table, count, middle);
    }
}

/// Relates levels that are related by way of this one.
fn relate_through(table: &mut [bool], count: u16, middle: u16)
    requires square { length table.old ≡ count * count }
    requires middle { middle < count }
    ensures { (a b : ℕ) → a < count → b < count
        → entry count table.new a b
        ≡ (entry count table.old a b || (entry count table.old a middle && entry count table.old middle b)) }
{
    for x in 0..count {
        if table[place(count, x, middle)] {
            add_row(table, count, x, middle);
        }
    }
}

/// Relates a level to all that another is related to.
fn add_row(table: &mut [bool], count: u16, x: u16, other: u16)
    requires square { length table.old ≡ count * count }
    requires x { x < count }
    requires other { other < count }
    ensures { (a b : ℕ) → a < count → b < count
        → entry count table.new a b ≡ (entry count table.old a b || ((a == x) && entry count table.old other b)) }
{
    for y in 0..count {
        if table[place(count, other, y)] {
            relate(table, count, x, y);
        }
    }
}

/// The relation read the other way.
pub fn flipped(alloc: Global, table: &[bool], count: u16) -> Result<Vec<bool>, Memory>
    requires { length table.now ≡ count * count }
    ensures square { IfOk result (λ other. length other.items ≡ count * count) }
    ensures entries { IfOk result (λ other. (a b : ℕ) → a < count → b < count
        → entry count other.items a b ≡ entry count table.now b a) }
{
    let width = count as usize;
    let mut other = Vec::new(alloc);
    for place in 0..width * width {
        other
            .push(table[place % width * width + place / width])
            .map_err(|_| Memory)?;
    }
    Ok(other)
}

/// The first two levels, the lesser number first, that are related both ways.
pub fn first_cycle(table: &[bool], count: u16) -> Option<(u16, u16)>
    requires { length table.now ≡ count * count }
    ensures none { IsNone result → (x y : ℕ) → x < y → ¬ IsCycle (IsRelated count table.now) x y }
    ensures some { IfSome result (λ pair. IsFirstPair count (IsCycle (IsRelated count table.now)) pair.0 pair.1) }
{
    let width = count as usize;
    for place in 0..width * width {
        let (x, y) = (place / width, place % width);
        if x < y && table[place] && table[y * width + x] {
            return Some((x as u16, y as u16));
        }
    }
    None
}

/// The least upper bound of each two levels, in an order.
pub fn least_uppers(alloc: Global, table: &[bool], count: u16) -> Result<Vec<u16>, BoundFault>
    requires square { length table.now ≡ count * count }
    requires few { count ≤ MOST_LEVELS }
    requires partial { IsPartialOrder count (IsRelated count table.now) }
    ensures ok { IfOk result (λ bounds. AreLubs count table.now bounds.items) }
    ensures missing { IfErr result (IsMissing count table.now) }
{
    let width = count as usize;
    let mut bounds = Vec::new(alloc);
    for place in 0..width * width {
        let (x, y) = ((place / width) as u16, (place % width) as u16);
        let Some(bound) = least_upper(table, count, x, y) else {
            return Err(BoundFault::Missing(x, y));
        };
        bounds.push(bound).map_err(|_| BoundFault::Memory)?;
    }
    Ok(bounds)
}

/// The least upper bound of two levels, if they have one.
fn least_upper(table: &[bool], count: u16, x: u16, y: u16) -> Option<u16>
    requires square { length table.now ≡ count * count }
    requires x { x < count }
    requires y { y < count }
    requires partial { IsPartialOrder count (IsRelated count table.now) }
    ensures { MatchOption result (HasNoLub count (IsRelated count table.now) x y)
        (IsLeastUpper count (IsRelated count table.now) x y) }
{
    let bound = lowest_upper(table, count, x, y)?;
    is_below_uppers(table, count, x, y, bound).then_some(bound)
}

/// The only level that can be the least upper bound of two, if some level is above both.
fn lowest_upper(table: &[bool], count: u16, x: u16, y: u16) -> Option<u16>
    requires square { length table.now ≡ count * count }
    requires x { x < count }
    requires y { y < count }
    requires partial { IsPartialOrder count (IsRelated count table.now) }
    ensures upper { IfSome result (λ z. IsRelated count table.now x z × IsRelated count table.now y z) }
    ensures only { (z : ℕ) → IsLeastUpper count (IsRelated count table.now) x y z → result ≡ Some z }
{
    let mut lowest = None;
    for z in 0..count {
        if is_lower_upper(table, count, x, y, z, lowest) {
            lowest = Some(z);
        }
    }
    lowest
}

/// Whether a level is above both of two, and below the lowest such level so far.
fn is_lower_upper(table: &[bool], count: u16, x: u16, y: u16, z: u16, lowest: Option<u16>) -> bool
    requires square { length table.now ≡ count * count }
    requires x { x < count }
    requires y { y < count }
    requires z { z < count }
    requires lowest { ForSome lowest (λ bound. bound < count) }
    ensures { result ≡ is_lower_upper count table.now x y z lowest }
{
    let is_below = match lowest {
        Some(bound) => table[place(count, z, bound)],
        None => true,
    };
    table[place(count, x, z)] && table[place(count, y, z)] && is_below
}

/// Whether a level is below each that is above both of two.
fn is_below_uppers(table: &[bool], count: u16, x: u16, y: u16, z: u16) -> bool
    requires square { length table.now ≡ count * count }
    requires x { x < count }
    requires y { y < count }
    requires z { z < count }
    ensures { IsTrue result ↔ ((w : ℕ) → IsRelated count table.now x w → IsRelated count table.now y w
        → IsRelated count table.now z w) }
{
    for w in 0..count {
        if table[place(count, x, w)] && table[place(count, y, w)] && !table[place(count, z, w)] {
            return false;
        }
    }
    true
}

/// The level above each other, which there is.
pub fn greatest(table: &[bool], count: u16) -> u16
    requires square { length table.now ≡ count * count }
    requires some { 0 < count }
    requires partial { IsPartialOrder count (IsRelated count table.now) }
    requires there { (z : ℕ) × IsGreatest count table.now z }
    ensures { IsGreatest count table.now result }
{
    let mut greatest = 0;
    for z in 1..count {
        if table[place(count, greatest, z)] {
            greatest = z;
        }
    }
    greatest
}
