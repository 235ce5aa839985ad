ghost use Rattle.std.specs.Prelude.{◌≡◌, ◌≤ℤ◌, pos, suc, eqb, All, IfOk, IsTrue, IsFalse, Ok};
ghost use Rattle.sp_lexer.specs.Tokens.{IsUnsigned};
ghost use Rattle.sp_grammar.specs.Codes.{name_code, number_code, span_of};
ghost use Rattle.sp_grammar.specs.Texts.{most};
ghost use Rattle.sp_grammar.specs.Lang.{has};
ghost use Rattle.sp_expression.specs.Contract.{expression_first};
ghost use Rattle.sp_expression.specs.Marks.{mark_code};
ghost use Rattle.sp_forms.specs.Cursors.{too_deep};
ghost use Rattle.sp_forms.specs.Cursors as spec;
ghost use Rattle.sp_forms.specs.Cursors.{Reads};
ghost use Rattle.sp_forms.specs.Grammars.{keyword};
ghost use Rattle.sp_forms.specs.Readers.{read_digits, read_end, read_expr, read_line, read_name, read_token};

use sp_expression::read_expr;
use sp_expression::tokens::{
    FixedToken, begins_expr, is, name_at, number_at, place_at, unexpected,
};
use sp_text::{Limit, MOST_HEIGHT, Name, Quantity, Span, TextFault, Token};
use sp_tree::{ExprTree, Ident};
use sqlite_items::at;
use std::alloc::Global;
use std::marker::Model;

/// The tokens of a text, and the place of the next one.
#[derive(Drop)]
pub struct Tokens<'a> {
    tokens: &'a [Token],
    end: u32,
    place: usize,
}

impl<'a> Model for Tokens<'a> {
    ghost use Rattle.std.specs.Prelude.{◌≤◌, length, All};
    ghost use Rattle.sp_lexer.specs.Tokens.{IsUnsigned};
    ghost use Rattle.sp_forms.specs.Cursors.{Cursor};

    ghost Value = { Cursor };

    ghost view = { λ t. record { tokens = t.tokens.now; end = t.end; place = t.place } };

    ghost invariant = { λ t. (t.place ≤ length t.tokens.now) × All (λ x. IsUnsigned x.kind) t.tokens.now };
}

impl<'a> Tokens<'a> {
    /// The tokens of a text of `end` bytes, from the first on.
    pub fn new(tokens: &'a [Token], end: u32) -> Tokens<'a>
        requires { All (λ t. IsUnsigned t.kind) tokens.now }
        ensures { result ≡ record { tokens = tokens.now; end = end; place = 0 } }
    {
        Tokens {
            tokens,
            end,
            place: 0,
        }
    }

    /// The place of the next token.
    pub fn place(&self) -> usize
        ensures { result ≡ self.now.place }
    {
        self.place
    }

    /// How many tokens there are from the next one on.
    #[tactic(auto, unfolding(sp_forms::specs::Cursors::left))]
    pub fn left(&self) -> usize
        ensures { result ≡ spec.left self.now }
    {
        self.tokens.len().saturating_sub(self.place)
    }

    /// From the token at `start` up to the last one that was taken.
    #[tactic(auto, unfolding(sp_grammar::specs::Codes::span_of))]
    pub fn since(&self, start: usize) -> Span
        ensures { result ≡ span_of self.now.tokens start self.now.place }
    {
        let start = match at(self.tokens, start) {
            Some(token) => token.span.start,
            None => 0,
        };
        let end = match at(self.tokens, self.place.saturating_sub(1)) {
            Some(token) => token.span.end,
            None => 0,
        };
        Span { start, end }
    }

    /// Where this one token stands.
    #[tactic(auto, unfolding(sp_grammar::specs::Codes::span_of))]
    pub fn span_at(&self, place: usize) -> Span
        ensures { result ≡ span_of self.now.tokens place (suc place) }
    {
        match at(self.tokens, place) {
            Some(token) => token.span,
            None => Span { start: 0, end: 0 },
        }
    }

    /// Whether an expression can begin with the next token.
    #[tactic(auto, unfolding(sp_forms::specs::Cursors::lookahead))]
    pub fn begins_expression(&self) -> bool
        ensures { result ≡ has expression_first (spec.lookahead self.now) }
    {
        begins_expr(self.tokens, self.place)
    }

    /// The next token is the first that doesn't go on.
    #[tactic(auto, unfolding(sp_forms::specs::Cursors::unexpected))]
    pub fn unexpected(&self) -> TextFault
        ensures { result ≡ spec.unexpected self.now }
    {
        unexpected(self.tokens, self.end, self.place)
    }

    /// The next token is the first that exceeds the nesting.
    #[tactic(auto, unfolding(sp_forms::specs::Cursors::too_deep))]
    pub fn too_deep(&self) -> TextFault
        ensures { result ≡ too_deep self.now }
    {
        TextFault::Limit(Limit {
            span: place_at(self.tokens, self.end, self.place),
            quantity: Quantity::EffectNesting,
        })
    }

    /// Whether this token is next.
    #[tactic(auto, unfolding(sp_forms::specs::Cursors::lookahead))]
    pub fn is(&self, mark: FixedToken) -> bool
        ensures { result ≡ eqb (mark_code mark) (spec.lookahead self.now) }
    {
        is(self.tokens, self.place, mark)
    }

    /// Takes this token, if it is next.
    #[tactic(auto, unfolding(sp_forms::specs::Readers::read_token, sp_forms::specs::Cursors::lookahead, sp_forms::specs::Cursors::next))]
    pub fn eat(&mut self, mark: FixedToken) -> bool
        ensures found { result ≡ eqb (mark_code mark) (spec.lookahead self.old) }
        ensures taken { IsTrue result → read_token (mark_code mark) self.old ≡ Ok (tt, self.new) }
        ensures kept { IsFalse result → self.new ≡ self.old }
    {
        let found = is(self.tokens, self.place, mark);
        if found {
            self.place += 1;
        }
        found
    }

    /// Takes this token, which has to be next.
    #[tactic(auto, unfolding(sp_forms::specs::Readers::read_token))]
    pub fn expect(&mut self, mark: FixedToken) -> Result<(), TextFault>
        ensures { Reads (read_token (mark_code mark) self.old) result self.new }
    {
        if self.eat(mark) {
            Ok(())
        } else {
            Err(self.unexpected())
        }
    }

    /// Takes this token, which has to be next, for its span.
    pub fn keyword(&mut self, mark: FixedToken) -> Result<Span, TextFault>
        ensures { Reads (read_line (keyword (mark_code mark)) self.old) result self.new }
    {
        let start = self.place();
        self.expect(mark)?;
        Ok(self.since(start))
    }

    /// Nothing is left.
    #[tactic(auto, unfolding(sp_forms::specs::Readers::read_end, sp_forms::specs::Cursors::left))]
    pub fn finish(&self) -> Result<(), TextFault>
        ensures { Reads (read_end self.now) result self.now }
    {
        if self.place < self.tokens.len() {
            Err(self.unexpected())
        } else {
            Ok(())
        }
    }

    /// Whether a name is next.
    #[tactic(auto, using(crate::proofs::Missing::code_of_name, crate::proofs::Missing::other_code), unfolding(sp_forms::specs::Cursors::lookahead))]
    pub fn is_name(&self) -> bool
        ensures { result ≡ eqb name_code (spec.lookahead self.now) }
    {
        match name_at(self.tokens, self.place) {
            Some(_) => true,
            None => false,
        }
    }

    /// Whether a number is next.
    #[tactic(auto, using(crate::proofs::Missing::code_of_number, crate::proofs::Missing::other_code), unfolding(sp_forms::specs::Cursors::lookahead))]
    pub fn is_number(&self) -> bool
        ensures { result ≡ eqb number_code (spec.lookahead self.now) }
    {
        match number_at(self.tokens, self.place) {
            Some(_) => true,
            None => false,
        }
    }

    /// Takes a name, which has to be next.
    #[tactic(auto, using(crate::proofs::Missing::reads_no_name), unfolding(sp_forms::specs::Readers::read_name, sp_forms::specs::Cursors::next))]
    pub fn name(&mut self, alloc: Global) -> Result<Ident, TextFault>
        ensures { Reads (read_name self.old) result self.new }
    {
        match name_at(self.tokens, self.place) {
            Some((name, span)) => {
                let name = Name::new(alloc, name.bytes())?;
                self.place += 1;
                Ok(Ident { name, span })
            }
            None => Err(self.unexpected()),
        }
    }

    /// Takes a number without a sign, which has to be next.
    #[tactic(auto, using(crate::proofs::Missing::reads_no_digits), unfolding(sp_forms::specs::Readers::read_digits, sp_forms::specs::Cursors::next))]
    pub fn digits(&mut self) -> Result<i64, TextFault>
        ensures reads { Reads (read_digits self.old) result self.new }
        ensures unsigned { IfOk result (λ n. pos 0 ≤ℤ n) }
    {
        match number_at(self.tokens, self.place) {
            Some((number, _)) => {
                self.place += 1;
                Ok(number)
            }
            None => Err(self.unexpected()),
        }
    }

    /// An expression within the limit of height.
    pub fn expression(&mut self, alloc: Global) -> Result<ExprTree, TextFault>
        ensures { Reads (read_expr most.height self.old) result self.new }
    {
        let found = read_expr(alloc, self.tokens, self.place, self.end, MOST_HEIGHT)?;
        self.place = found.next;
        Ok(found.tree)
    }
}
