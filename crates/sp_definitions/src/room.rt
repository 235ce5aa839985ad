//! Whether the variables of an expression can be numbered.

ghost use Rattle.std.specs.Prelude.{◌≡◌, ◌+◌, ◌<◌, ◌≤◌, IsTrue, length, map, nat_le};
ghost use Rattle.std.specs.List.{All};
ghost use Rattle.sp_plain.specs.Text.{text, texts_of};
ghost use Rattle.sp_judge.specs.Translation.{binders, binders_in};
ghost use Rattle.sp_definitions.specs.Definitions.{HasRoom};

use sp_scopes::{Definition, Local, Scopes};
use sp_tree::{ExprNode, ExprTree};

// More quantifiers than any text of limited height nests.
const MANY: u32 = 1_000_000;

/// Whether at most so many quantifiers of a text stand in one another.
#[cycle(room)]
#[tactic(auto, using(sp_judge::proofs::Weights::weight_some, crate::proofs::Greatest::at_most_max, crate::proofs::Greatest::at_most_three, crate::proofs::Greatest::at_most_zero))]
pub fn has_binders(most: u32, e: &ExprTree) -> bool
    ensures { result ≡ nat_le (binders (text e.now)) most }
{
    match &e.node {
        ExprNode::Name(_) => true,
        ExprNode::Number(_) => true,
        ExprNode::Truth(_) => true,
        ExprNode::Unknown => true,
        ExprNode::Bottom => true,
        ExprNode::Top => true,
        ExprNode::Call(_, args) => have_binders(most, args.as_slice()),
        ExprNode::New(_, args) => have_binders(most, args.as_slice()),
        ExprNode::Paren(a) => has_binders(most, a.get()),
        ExprNode::Not(a) => has_binders(most, a.get()),
        ExprNode::Binary(_, a, b) => has_binders(most, a.get()) && has_binders(most, b.get()),
        ExprNode::Join(_, a, b) => has_binders(most, a.get()) && has_binders(most, b.get()),
        ExprNode::If(c, a, b) => {
            has_binders(most, c.get()) && (has_binders(most, a.get()) && has_binders(most, b.get()))
        }
        ExprNode::Quant(_, _, b) => most > 0 && has_binders(most - 1, b.get()),
    }
}

#[cycle(room)]
#[tactic(auto, using(sp_judge::proofs::Weights::weight_some, crate::proofs::Greatest::at_most_max, crate::proofs::Greatest::at_most_zero))]
fn have_binders(most: u32, args: &[ExprTree]) -> bool
    ensures { result ≡ nat_le (binders_in (texts_of (map text args.now))) most }
{
    if let [first, rest @ ..] = args {
        return has_binders(most, first) && have_binders(most, rest);
    }
    true
}

/// Whether the variables of an expression, with those around it, can be numbered. A text of limited height has so few.
#[tactic(auto, using(crate::proofs::Greatest::few))]
pub fn has_room(locals: &[Local], e: &ExprTree) -> bool
    ensures { IsTrue result → length locals.now + binders (text e.now) < 4294967288 }
{
    locals.len() <= 1_000_000 && has_binders(MANY, e)
}

// The same of a definition.
fn has_definition_room(definition: &Definition) -> bool
    ensures { IsTrue result → HasRoom definition.now }
{
    has_room(definition.head.formals.items(), &definition.text)
}

/// The same of all definitions.
#[tactic(auto, using(crate::proofs::Cores::rooms_next))]
pub fn have_room(names: &Scopes) -> bool
    ensures { IsTrue result → All HasRoom names.now.definitions }
{
    for definition in names.definitions() {
        if !has_definition_room(definition) {
            return false;
        }
    }
    true
}
