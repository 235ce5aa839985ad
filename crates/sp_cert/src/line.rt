//! What stands in one line.

ghost use Rattle.std.specs.Prelude.{◌≡◌, codes};
ghost use Rattle.sp_cert.specs.Fields as spec;
ghost use Rattle.sp_cert.specs.Views.{with_rest, pair_with_rest, rest_now};

use sp_rules::{Fact, Step};
use sp_text::is_digit;

/// A line that begins a node.
#[derive(Clone, Copy, Debug, PartialEq, Eq)]
pub enum NodeLine {
    /// An atom by its index.
    Split(u32),
    /// How many steps follow.
    Leaf(u32),
    /// How many steps follow, and then a node.
    Steps(u32),
}

/// The greatest number of a certificate.
const MOST: u64 = 4294967295;

/// What stands behind the bytes.
fn behind_mark<'a>(line: &'a [u8], mark: &[u8]) -> Option<&'a [u8]>
    ensures { rest_now result ≡ spec.behind_mark mark.now line.entry.now }
{
    line.strip_prefix(mark)
}

/// The digits at the front, and what stands behind them.
fn digits(line: &[u8]) -> Option<(u32, &[u8])>
    ensures { with_rest result ≡ spec.digits_after 0 line.entry.now }
{
    let mut value: u64 = 0;
    let mut len = 0;
    while len < line.len() && is_digit(line[len]) {
        value = 10 * value + u64::from(line[len] - b'0');
        if value > MOST {
            return None;
        }
        len += 1;
    }
    Some((value as u32, &line[len..]))
}

fn begins_digit(line: &[u8]) -> bool
    ensures { result ≡ spec.begins_digit line.now }
{
    match line {
        [byte, ..] => is_digit(*byte),
        [] => false,
    }
}

/// The number at the front, and what stands behind it.
#[tactic(auto, unfolding(crate::specs::Fields::number))]
fn number(line: &[u8]) -> Option<(u32, &[u8])>
    ensures { with_rest result ≡ spec.number line.entry.now }
{
    match line {
        [b'0', rest @ ..] => {
            if begins_digit(rest) {
                None
            } else {
                Some((0, rest))
            }
        }
        [byte, ..] if is_digit(*byte) => digits(line),
        _ => None,
    }
}

/// The number behind the bytes.
#[tactic(auto, unfolding(crate::specs::Fields::field))]
fn field<'a>(line: &'a [u8], mark: &[u8]) -> Option<(u32, &'a [u8])>
    ensures { with_rest result ≡ spec.field mark.now line.entry.now }
{
    number(behind_mark(line, mark)?)
}

/// The number behind the bytes, with nothing behind it.
#[tactic(auto, unfolding(crate::specs::Fields::last_field))]
fn last_field(line: &[u8], mark: &[u8]) -> Option<u32>
    ensures { result ≡ spec.last_field mark.now line.now }
{
    let (number, rest) = field(line, mark)?;
    if rest.is_empty() { Some(number) } else { None }
}

/// Two numbers, the first behind the bytes.
#[tactic(auto, unfolding(crate::specs::Fields::pair))]
fn pair<'a>(line: &'a [u8], mark: &[u8]) -> Option<(u32, u32, &'a [u8])>
    ensures { pair_with_rest result ≡ spec.pair mark.now line.entry.now }
{
    let (i, rest) = field(line, mark)?;
    let (j, rest) = field(rest, b" ")?;
    Some((i, j, rest))
}

#[tactic(auto, unfolding(crate::specs::Fields::fact_of))]
fn fact_of(line: &[u8]) -> Option<(Fact, &[u8])>
    ensures { with_rest result ≡ spec.fact_of line.entry.now }
{
    match pair(line, b"EQ ") {
        Some((i, j, rest)) => Some((Fact::Eq(i, j), rest)),
        None => {
            let (i, j, rest) = pair(line, b"LE ")?;
            Some((Fact::Le(i, j), rest))
        }
    }
}

/// The step of a line.
#[tactic(auto, unfolding(crate::specs::Fields::step_of))]
pub fn step_of(line: &[u8]) -> Option<Step>
    ensures { result ≡ spec.step_of line.now }
{
    let (fact, rest) = fact_of(line)?;
    let (rule, rest) = field(rest, b" K")?;
    let (p, rest) = field(rest, b" ")?;
    let q = last_field(rest, b" ")?;
    if 1 <= rule && rule <= 23 {
        Some(Step {
            fact,
            rule: rule as u8,
            p,
            q,
        })
    } else {
        None
    }
}

/// The node that a line begins in this format.
#[tactic(auto, unfolding(crate::specs::Fields::node_of))]
pub fn node_of(line: &[u8], format: u8) -> Option<NodeLine>
    ensures { result ≡ spec.node_of format line.now }
{
    match last_field(line, b"SPLIT ") {
        Some(atom) => Some(NodeLine::Split(atom)),
        None => match last_field(line, b"LEAF ") {
            Some(count) => Some(NodeLine::Leaf(count)),
            None => {
                let count = last_field(line, b"STEPS ")?;
                if format == 2 {
                    Some(NodeLine::Steps(count))
                } else {
                    None
                }
            }
        },
    }
}

/// Whether it is the n-th formula's line.
#[tactic(auto, unfolding(crate::specs::Fields::formula_of, crate::specs::Fields::is_formula))]
pub fn is_formula(line: &[u8], n: usize) -> bool
    ensures { result ≡ spec.is_formula n line.now }
{
    match last_field(line, b"FORMULA ") {
        Some(number) => n == number as usize,
        None => false,
    }
}

/// The format that the first line of a text names.
#[tactic(auto, unfolding(crate::specs::Fields::format_of))]
pub fn format_of(line: &[u8]) -> Option<u8>
    ensures { result ≡ spec.format_of line.now }
{
    let format = last_field(line, b"CERT ")?;
    if format == 1 || format == 2 {
        Some(format as u8)
    } else {
        None
    }
}
