//! The types that expressions have of their own.

ghost use Rattle.std.specs.Prelude.{◌≡◌, ◌<◌, ◌^◌, length};
ghost use Rattle.std.specs.Option.{option_copied};
ghost use Rattle.sp_plain.specs.Text.{text};
ghost use Rattle.sp_judge.specs.Names.{sort_type, type_of_head};
ghost use Rattle.sp_judge.specs.Translation as spec_translation;

use crate::names::find;
use crate::scope::{Meaning, Scope};
use sp_naming::Entity;
use sp_scopes::{Head, Local, Sort};
use sp_tree::{BinOp, ExprNode, ExprTree};
use sp_values::Ty;

fn name_type(meaning: Meaning) -> Option<Ty>
    ensures { result ≡ spec_translation.name_type meaning }
{
    match meaning {
        Meaning::Variable(_, t) => Some(t),
        Meaning::Shared(Entity::Member(t, _)) => Some(Ty::Member(t)),
        Meaning::Shared(Entity::Level(_)) => Some(Ty::Level),
        _ => None,
    }
}

pub(crate) fn binary_type(op: BinOp) -> Ty
    ensures { result ≡ spec_translation.binary_type op }
{
    match op {
        BinOp::Add => Ty::Integer,
        BinOp::Sub => Ty::Integer,
        BinOp::Mul => Ty::Integer,
        _ => Ty::Boolean,
    }
}

pub(crate) fn either_type(t: Option<Ty>, u: Option<Ty>) -> Option<Ty>
    ensures { result ≡ spec_translation.either_type t u }
{
    match t {
        Some(t) => Some(t),
        None => u,
    }
}

fn sort_type(sort: Sort) -> Option<Ty>
    ensures { result ≡ sort_type sort }
{
    match sort {
        Sort::Plain(t) => Some(t),
        Sort::Primitive(t) => Some(t),
        Sort::Derived(t) => Some(t),
        _ => None,
    }
}

pub(crate) fn type_of_head(head: Option<&Head>) -> Option<Ty>
    ensures { result ≡ type_of_head (option_copied head.entry) }
{
    match head {
        Some(head) => sort_type(head.sort),
        None => None,
    }
}

/// The type that an expression has of its own.
pub(crate) fn own(scope: &Scope, locals: &[Local], e: &ExprTree) -> Option<Ty>
    requires { length locals.now < 2 ^ 32 }
    ensures { result ≡ spec_translation.own scope.now locals.now (text e.now) }
{
    match &e.node {
        ExprNode::Name(x) => name_type(find(scope, locals, x)),
        ExprNode::Number(_) => Some(Ty::Integer),
        ExprNode::Truth(_) => Some(Ty::Boolean),
        ExprNode::Unknown => None,
        ExprNode::Bottom => Some(Ty::Level),
        ExprNode::Top => Some(Ty::Level),
        ExprNode::Call(f, _) => type_of_head(scope.head_of(find(scope, locals, &f.name))),
        ExprNode::New(f, _) => type_of_head(scope.head_of(find(scope, locals, &f.name))),
        ExprNode::Paren(a) => own(scope, locals, a.get()),
        ExprNode::Not(_) => Some(Ty::Boolean),
        ExprNode::Binary(op, _, _) => Some(binary_type(*op)),
        ExprNode::Join(_, _, _) => Some(Ty::Level),
        ExprNode::If(_, a, b) => either_type(
            own(scope, locals, a.get()),
            own(scope, locals, b.get()),
        ),
        ExprNode::Quant(_, _, _) => Some(Ty::Boolean),
    }
}
