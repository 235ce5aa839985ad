//! Expressions of texts that break no rule are well typed.
#![tactic(auto)]

ghost use Rattle.std.specs.Prelude.{◌≡◌, IsTrue, map, length};
ghost use Rattle.sp_plain.specs.Text.{text, texts_of};
ghost use Rattle.sp_typed.specs.Fits.{AreNumbers, AreNumbersIn};
ghost use Rattle.sp_typed.specs.Laws.{DefinedLaw, ElaboratedLaw, NewValuesLaw, OldValuesLaw, TypedLaw};
ghost use Rattle.sp_values.specs.Arithmetic.{in_range};

use sp_tree::{ExprNode, ExprTree};

/// What breaks no rule is translated to a well-typed expression.
pub fn typed_law()
    ensures { TypedLaw }
{}

/// An expression that is elaborated has the type that is told.
pub fn elaborated_law()
    ensures { ElaboratedLaw }
{}

/// What breaks no rule reads the new values alone that may be quoted where it stands.
pub fn new_values_law()
    ensures { NewValuesLaw }
{}

/// Outside effects, and in the condition of an IF effect, no new value is read.
pub fn old_values_law()
    ensures { OldValuesLaw }
{}

/// A definition whose text breaks nothing keeps, with its expression, the scope that of the signature.
pub fn defined_law()
    ensures { DefinedLaw }
{}

fn tell_number(n: i64)
    ensures { IsTrue (in_range n) }
{
    let _number = n;
}

/// The numbers of an expression are in range, as those of every text are.
#[cycle(tell)]
#[tactic(auto, using(sp_judge::proofs::Weights::weight_some))]
pub fn tell_numbers(e: &ExprTree)
    ensures { AreNumbers (text e.now) }
{
    match &e.node {
        ExprNode::Name(_) => {}
        ExprNode::Number(n) => tell_number(*n),
        ExprNode::Truth(_) => {}
        ExprNode::Unknown => {}
        ExprNode::Bottom => {}
        ExprNode::Top => {}
        ExprNode::Call(_, args) => tell_all(args.as_slice()),
        ExprNode::New(_, args) => tell_all(args.as_slice()),
        ExprNode::Paren(a) => tell_numbers(a.get()),
        ExprNode::Not(a) => tell_numbers(a.get()),
        ExprNode::Binary(_, a, b) => {
            tell_numbers(a.get());
            tell_numbers(b.get());
        }
        ExprNode::Join(_, a, b) => {
            tell_numbers(a.get());
            tell_numbers(b.get());
        }
        ExprNode::If(c, a, b) => {
            tell_numbers(c.get());
            tell_numbers(a.get());
            tell_numbers(b.get());
        }
        ExprNode::Quant(_, _, b) => tell_numbers(b.get()),
    }
}

#[cycle(tell)]
#[tactic(auto, using(sp_judge::proofs::Weights::weight_some))]
fn tell_all(args: &[ExprTree])
    ensures { AreNumbersIn (texts_of (map text args.now)) }
{
    if let [first, rest @ ..] = args {
        tell_numbers(first);
        tell_all(rest);
    }
}
