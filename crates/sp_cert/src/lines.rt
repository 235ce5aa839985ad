//! A cursor over the lines of a text.

ghost use Rattle.std.specs.Prelude.{◌≡◌, ◌+◌, ◌<◌, ◌≤◌, ℕ, length, take, drop, IfOk, IfErr, IfSome, None, Some, nat_eq};
ghost use Rattle.sp_cert.specs.Input.{bad_line, behind, line, line_span, one, too_deep, Reads};
ghost use Rattle.sp_cert.specs.Fields.{format_of, node_of, step_of};
ghost use Rattle.sp_cert.specs.Reader.{formula_is};
ghost use Rattle.sp_cert.specs.Views.{same, unit, is_empty};

use crate::line::{NodeLine, format_of, is_formula, node_of, step_of};
use memchr::memchr;
use sp_rules::Step;
use sp_text::{Limit, Malformed, Quantity, Rule, Span, TextFault};
use std::marker::Model;

/// The lines of a text that are left.
#[derive(Drop)]
pub struct Lines<'a> {
    text: &'a [u8],
    at: usize,
}

impl<'a> Model for Lines<'a> {
    ghost use Rattle.std.specs.Prelude.{◌≤◌, length, drop};
    ghost use Rattle.sp_cert.specs.Input.{Input};

    ghost Value = { Input };

    ghost view = { λ t. record { rest = drop t.at t.text.now; at = t.at } };

    ghost invariant = { λ t. (t.at ≤ length t.text.now) × (length t.text.now ≤ 67108864) };
}

/// The place of the first line feed, or the text's end.
fn feed(text: &[u8]) -> Option<usize>
    ensures within { IfSome result (λ n. n < length text.now) }
    ensures found { IfSome result (λ n. (length (line text.now) ≡ n) × (take n text.now ≡ line text.now) × (behind text.now ≡ Some (drop (n + 1) text.now))) }
    ensures missing { result ≡ None → (line text.now ≡ text.now) × (behind text.now ≡ None) }
{
    memchr(b'\n', text)
}

/// How many bytes stand before the first line feed.
#[tactic(auto, using(crate::proofs::Feeds::line_within))]
fn line_len(text: &[u8]) -> usize
    ensures len { result ≡ length (line text.now) }
    ensures within { result ≤ length text.now }
{
    match feed(text) {
        Some(len) => len,
        None => text.len(),
    }
}

impl<'a> Lines<'a> {
    /// The lines of the text.
    pub fn new(text: &'a [u8]) -> Lines<'a>
        requires { length text.now ≤ 67108864 }
        ensures { result ≡ record { rest = text.now; at = 0 } }
    {
        Lines { text, at: 0 }
    }

    /// What is left.
    #[tactic(auto, using(crate::proofs::Feeds::take_rest))]
    fn rest(&self) -> &'a [u8]
        ensures rest { result.now ≡ self.now.rest }
        ensures within { self.now.at + length result.now ≤ 67108864 }
    {
        &self.text[self.at..]
    }

    /// How many bytes are left.
    pub fn left(&self) -> usize
        ensures { result ≡ length self.now.rest }
    {
        self.text.len() - self.at
    }

    /// Whether nothing is left.
    #[tactic(auto, using(crate::proofs::Feeds::empty_tells))]
    pub fn is_done(&self) -> bool
        ensures { result ≡ is_empty self.now.rest }
    {
        self.left() == 0
    }

    /// The bytes of the next line.
    #[tactic(auto, using(crate::proofs::Feeds::line_within), unfolding(crate::specs::Input::line_span))]
    pub fn span(&self) -> Span
        ensures { result ≡ line_span self.now }
    {
        let len = line_len(self.rest());
        Span {
            start: self.at as u32,
            end: (self.at + len) as u32,
        }
    }

    /// The next line is the first that doesn't fit.
    #[tactic(auto, unfolding(crate::specs::Input::bad_line))]
    fn bad_line(&self) -> TextFault
        ensures { result ≡ bad_line self.now }
    {
        TextFault::Malformed(Malformed {
            span: self.span(),
            rule: Rule::BadLine,
        })
    }

    /// The next line, without its line feed.
    fn line(&self) -> Result<&'a [u8], TextFault>
        ensures ok { IfOk result (λ l. (l.now ≡ line self.now.rest) × (behind self.now.rest ≡ Some (drop (length l.now + 1) self.now.rest))) }
        ensures within { IfOk result (λ l. length l.now < length self.now.rest) }
        ensures err { IfErr result (λ e. (behind self.now.rest ≡ None) × (e ≡ bad_line self.now)) }
    {
        let rest = self.rest();
        match feed(rest) {
            Some(len) => Ok(&rest[..len]),
            None => Err(self.bad_line()),
        }
    }

    /// Goes behind the next line, which has so many bytes.
    fn skip(&mut self, len: usize)
        requires { len < length self.old.rest }
        ensures { self.new ≡ record { rest = drop (len + 1) self.old.rest; at = self.old.at + len + 1 } }
    {
        self.at = self.at + len + 1;
    }

    /// Takes a step's line.
    #[tactic(auto, using(crate::proofs::Feeds::one_none, crate::proofs::Feeds::one_misfit, crate::proofs::Feeds::one_taken))]
    pub fn step(&mut self) -> Result<Step, TextFault>
        ensures { Reads same (one step_of self.old) result self.new }
    {
        let line = self.line()?;
        match step_of(line) {
            Some(step) => {
                self.skip(line.len());
                Ok(step)
            }
            None => Err(self.bad_line()),
        }
    }

    /// Takes a node's line of this format.
    #[tactic(auto, using(crate::proofs::Feeds::one_none, crate::proofs::Feeds::one_misfit, crate::proofs::Feeds::one_taken))]
    pub fn node(&mut self, format: u8) -> Result<NodeLine, TextFault>
        ensures { Reads same (one (node_of format) self.old) result self.new }
    {
        let line = self.line()?;
        match node_of(line, format) {
            Some(node) => {
                self.skip(line.len());
                Ok(node)
            }
            None => Err(self.bad_line()),
        }
    }

    /// Takes the n-th formula's line.
    #[tactic(auto, using(crate::proofs::Feeds::one_none, crate::proofs::Feeds::one_misfit, crate::proofs::Feeds::one_taken), unfolding(crate::specs::Fields::is_formula))]
    pub fn formula(&mut self, n: usize) -> Result<(), TextFault>
        ensures { Reads unit (one (formula_is n) self.old) result self.new }
    {
        let line = self.line()?;
        if is_formula(line, n) {
            self.skip(line.len());
            Ok(())
        } else {
            Err(self.bad_line())
        }
    }

    /// Takes the first line of a text, which names its format.
    #[tactic(auto, using(crate::proofs::Feeds::one_none, crate::proofs::Feeds::one_misfit, crate::proofs::Feeds::one_taken))]
    pub fn first(&mut self) -> Result<u8, TextFault>
        ensures { Reads same (one format_of self.old) result self.new }
    {
        let line = self.line()?;
        match format_of(line) {
            Some(format) => {
                self.skip(line.len());
                Ok(format)
            }
            None => Err(self.bad_line()),
        }
    }
}
