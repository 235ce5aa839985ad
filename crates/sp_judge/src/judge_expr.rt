//! The first rule that an expression breaks.

ghost use Rattle.std.specs.Prelude.{◌≡◌, ◌+◌, ◌<◌, ◌++◌, ◌^◌, [], List, is_some, length, map, IfOk};
ghost use Rattle.std.specs.Option.{option_copied};
ghost use Rattle.sp_plain.specs.Text.{text, texts_of, span};
ghost use Rattle.sp_text.specs.Violations.{first};
ghost use Rattle.sp_judge.specs.Translation.{binders, binders_in};
ghost use Rattle.sp_judge.specs.Broken as spec_broken;
ghost use Rattle.sp_text.specs.declared.violation.Violation.{Violation as ViolationValue};

use crate::names::{extend, find, has_local};
use crate::scope::{Meaning, Scope, Site};
use crate::types::{binary_type, own, type_of_head};
use sp_naming::Entity;
use sp_plain::span_of;
use sp_scopes::{Head, Local, Sort};
use sp_text::{Memory, Rule, Span, Violation, breaks, earlier, otherwise};
use sp_tree::{BinOp, ExprNode, ExprTree, FormalTree, Ident, TypeTree};
use sp_values::Ty;
use std::alloc::Global;

fn same_type(t: Ty, u: Ty) -> bool
    ensures { result ≡ spec_broken.same_type t u }
{
    match (t, u) {
        (Ty::Boolean, Ty::Boolean) => true,
        (Ty::Integer, Ty::Integer) => true,
        (Ty::Level, Ty::Level) => true,
        (Ty::Member(a), Ty::Member(b)) => a == b,
        _ => false,
    }
}

fn asks(asked: Option<Ty>, place: Span, ty: Ty) -> Option<Violation>
    ensures { result ≡ first (spec_broken.asks asked place ty) }
{
    match asked {
        None => None,
        Some(q) => if same_type(q, ty) {
            None
        } else {
            breaks(place, Rule::WrongType)
        },
    }
}

fn takes(place: Span, ty: Ty) -> Option<Violation>
    ensures { result ≡ first (spec_broken.takes place ty) }
{
    match ty {
        Ty::Integer => None,
        Ty::Member(_) => None,
        _ => breaks(place, Rule::WrongType),
    }
}

fn asks_unknown(asked: Option<Ty>, place: Span) -> Option<Violation>
    ensures { result ≡ first (spec_broken.asks_unknown asked place) }
{
    match asked {
        None => None,
        Some(q) => takes(place, q),
    }
}

fn one_type(a: Span, b: Span, right: Span, t: Option<Ty>, u: Option<Ty>) -> Option<Violation>
    ensures { result ≡ first (spec_broken.one_type a b right t u) }
{
    match (t, u) {
        (Some(t), Some(u)) => if same_type(t, u) {
            None
        } else {
            breaks(right, Rule::WrongType)
        },
        (Some(t), None) => takes(b, t),
        (None, Some(u)) => takes(a, u),
        (None, None) => None,
    }
}

fn no_type(place: Span, t: Option<Ty>, u: Option<Ty>) -> Option<Violation>
    ensures { result ≡ first (spec_broken.no_type place t u) }
{
    match (t, u) {
        (None, None) => breaks(place, Rule::WrongType),
        _ => None,
    }
}

fn name_rules(asked: Option<Ty>, place: Span, meaning: Meaning) -> Option<Violation>
    ensures { result ≡ first (spec_broken.name_rules asked place meaning) }
{
    match meaning {
        Meaning::Nothing => breaks(place, Rule::UnknownName),
        Meaning::Variable(_, t) => asks(asked, place, t),
        Meaning::Shared(Entity::Member(t, _)) => asks(asked, place, Ty::Member(t)),
        Meaning::Shared(Entity::Level(_)) => asks(asked, place, Ty::Level),
        Meaning::Shared(_) => breaks(place, Rule::WrongKind),
    }
}

fn typed_rule(place: Span, ty: Option<Ty>) -> Option<Violation>
    ensures { result ≡ first (spec_broken.typed_rule place ty) }
{
    match ty {
        None => breaks(place, Rule::WrongKind),
        Some(_) => None,
    }
}

fn called_rules(scope: &Scope, name: Span, place: Span, meaning: Meaning) -> Option<Violation>
    ensures { result ≡ first (spec_broken.called_rules scope.now name place meaning) }
{
    match meaning {
        Meaning::Nothing => breaks(name, Rule::UnknownName),
        Meaning::Shared(Entity::Definition(d)) => {
            if (d as usize) < scope.core_count() {
                typed_rule(name, type_of_head(scope.head_of(meaning)))
            } else {
                breaks(place, Rule::Cyclic)
            }
        }
        _ => typed_rule(name, type_of_head(scope.head_of(meaning))),
    }
}

fn quoted_rules(scope: &Scope, place: Span, meaning: Meaning) -> Option<Violation>
    ensures { result ≡ first (spec_broken.quoted_rules scope.now place meaning) }
{
    match meaning {
        Meaning::Nothing => breaks(place, Rule::UnknownName),
        Meaning::Shared(Entity::Function(_)) => {
            typed_rule(place, type_of_head(scope.head_of(meaning)))
        }
        _ => breaks(place, Rule::WrongKind),
    }
}

fn is_primitive(head: Option<&Head>) -> bool
    ensures { result ≡ is_some (spec_broken.primitive_of (option_copied head.entry)) }
{
    match head {
        None => false,
        Some(head) => match head.sort {
            Sort::Primitive(_) => true,
            _ => false,
        },
    }
}

fn quote_rules(site: Site, place: Span, head: Option<&Head>) -> Option<Violation>
    ensures { result ≡ first (spec_broken.quote_rules site place (option_copied head.entry)) }
{
    match site {
        Site::Outside => breaks(place, Rule::NewValueMisplaced),
        Site::Guard => breaks(place, Rule::NewValueInGuard),
        Site::Right => {
            if is_primitive(head) {
                None
            } else {
                breaks(place, Rule::NewValueOnRight)
            }
        }
        Site::Loose => None,
    }
}

pub fn asked_of(head: Option<&Head>, count: usize) -> &[Local]
    ensures { result.now ≡ spec_broken.asked_of (option_copied head.entry) count }
{
    match head {
        None => &[],
        Some(head) => {
            let formals = head.formals.items();
            if formals.len() == count { formals } else { &[] }
        }
    }
}

pub fn next_type(formals: &[Local]) -> Option<Ty>
    ensures { result ≡ spec_broken.next_type formals.now }
{
    if let [formal, ..] = formals {
        return Some(formal.ty);
    }
    None
}

pub fn rest(formals: &[Local]) -> &[Local]
    ensures { result.now ≡ spec_broken.rest formals.now }
{
    if let [_, rest @ ..] = formals {
        return rest;
    }
    &[]
}

pub fn count_rule(place: Span, head: Option<&Head>, count: usize) -> Option<Violation>
    ensures { result ≡ first (spec_broken.count_rule place (option_copied head.entry) count) }
{
    match head {
        None => None,
        Some(head) => if head.formals.items().len() == count {
            None
        } else {
            breaks(place, Rule::WrongCount)
        },
    }
}

fn result_rule(asked: Option<Ty>, place: Span, ty: Option<Ty>) -> Option<Violation>
    ensures { result ≡ first (spec_broken.result_rule asked place ty) }
{
    match ty {
        None => None,
        Some(ty) => asks(asked, place, ty),
    }
}

fn type_name_rules(place: Span, meaning: Meaning) -> Option<Violation>
    ensures { result ≡ first (spec_broken.type_name_rules place meaning) }
{
    match meaning {
        Meaning::Nothing => breaks(place, Rule::UnknownName),
        Meaning::Shared(Entity::Declared(_)) => None,
        _ => breaks(place, Rule::WrongKind),
    }
}

fn type_rules(scope: &Scope, ty: &TypeTree) -> Option<Violation>
    ensures { result ≡ first (spec_broken.type_rules scope.now ty.now) }
{
    match ty {
        TypeTree::Boolean(_) => None,
        TypeTree::Integer(place) => breaks(*place, Rule::NotFinite),
        TypeTree::Level(_) => None,
        TypeTree::Named(x) => type_name_rules(x.span, scope.find_shared(&x.name)),
    }
}

fn twice_rule(locals: &[Local], formal: &FormalTree) -> Option<Violation>
    ensures { result ≡ first (spec_broken.twice_rule locals.now formal.now) }
{
    if has_local(locals, &formal.name.name) {
        breaks(formal.name.span, Rule::TwiceDeclared)
    } else {
        None
    }
}

pub fn formal_rules(scope: &Scope, locals: &[Local], formal: &FormalTree) -> Option<Violation>
    ensures { result ≡ first (spec_broken.formal_rules scope.now locals.now formal.now) }
{
    earlier(type_rules(scope, &formal.ty), twice_rule(locals, formal))
}

fn sides_asked(op: BinOp) -> Option<Ty>
    ensures { result ≡ spec_broken.sides_asked op }
{
    match op {
        BinOp::Eq => None,
        BinOp::Ne => None,
        BinOp::Le => None,
        BinOp::Lt => Some(Ty::Integer),
        BinOp::Gt => Some(Ty::Integer),
        BinOp::Ge => Some(Ty::Integer),
        BinOp::Add => Some(Ty::Integer),
        BinOp::Sub => Some(Ty::Integer),
        BinOp::Mul => Some(Ty::Integer),
        _ => Some(Ty::Boolean),
    }
}

fn hole(e: &ExprTree) -> Span
    ensures { result ≡ spec_broken.hole (text e.now) }
{
    match &e.node {
        ExprNode::Paren(a) => hole(a.get()),
        ExprNode::If(_, a, _) => hole(a.get()),
        _ => e.span,
    }
}

fn free_sides(
    place: Span,
    a: &ExprTree,
    b: &ExprTree,
    t: Option<Ty>,
    u: Option<Ty>,
) -> Option<Violation>
    ensures { result ≡ first (spec_broken.one_type (spec_broken.hole (text a.now)) (spec_broken.hole (text b.now)) (span (text b.now)) t u ++ spec_broken.no_type place t u) }
{
    earlier(
        one_type(hole(a), hole(b), span_of(b), t, u),
        no_type(place, t, u),
    )
}

fn typed_part(scope: &Scope, locals: &[Local], e: &ExprTree) -> Span
    requires { length locals.now < 2 ^ 32 }
    ensures { result ≡ spec_broken.typed_part scope.now locals.now (text e.now) }
{
    match &e.node {
        ExprNode::Paren(a) => typed_part(scope, locals, a.get()),
        ExprNode::If(_, a, b) => match own(scope, locals, a.get()) {
            None => typed_part(scope, locals, b.get()),
            Some(_) => typed_part(scope, locals, a.get()),
        },
        _ => e.span,
    }
}

fn ordered(place: Span, t: Option<Ty>) -> Option<Violation>
    ensures { result ≡ first (spec_broken.ordered place t) }
{
    match t {
        Some(Ty::Boolean) => breaks(place, Rule::WrongType),
        Some(Ty::Member(_)) => breaks(place, Rule::WrongType),
        _ => None,
    }
}

fn sides_rules(
    scope: &Scope,
    locals: &[Local],
    op: BinOp,
    place: Span,
    a: &ExprTree,
    b: &ExprTree,
    t: Option<Ty>,
    u: Option<Ty>,
) -> Option<Violation>
    requires { length locals.now < 2 ^ 32 }
    ensures { result ≡ first (spec_broken.sides_rules scope.now locals.now op place (text a.now) (text b.now) t u) }
{
    match op {
        BinOp::Eq => free_sides(place, a, b, t, u),
        BinOp::Ne => free_sides(place, a, b, t, u),
        BinOp::Le => earlier(
            earlier(
                ordered(typed_part(scope, locals, a), t),
                ordered(typed_part(scope, locals, b), u),
            ),
            free_sides(place, a, b, t, u),
        ),
        _ => None,
    }
}

fn branch_rules(
    asked: Option<Ty>,
    a: &ExprTree,
    b: &ExprTree,
    t: Option<Ty>,
    u: Option<Ty>,
) -> Option<Violation>
    ensures { result ≡ first (spec_broken.branch_rules asked (text a.now) (text b.now) t u) }
{
    match asked {
        None => one_type(hole(a), hole(b), span_of(b), t, u),
        Some(_) => None,
    }
}

/// The first rule that an expression breaks where this type is asked, if any.
#[cycle(judge)]
#[tactic(auto, using(crate::proofs::Weights::weight_some))]
pub fn judge(
    alloc: Global,
    scope: &Scope,
    site: Site,
    locals: &[Local],
    asked: Option<Ty>,
    e: &ExprTree,
) -> Result<Option<Violation>, Memory>
    requires { length locals.now + binders (text e.now) < 2 ^ 32 }
    ensures { IfOk result (λ r. r ≡ first (spec_broken.broken scope.now site locals.now asked (text e.now))) }
{
    match &e.node {
        ExprNode::Name(x) => Ok(name_rules(asked, e.span, find(scope, locals, x))),
        ExprNode::Number(_) => Ok(asks(asked, e.span, Ty::Integer)),
        ExprNode::Truth(_) => Ok(asks(asked, e.span, Ty::Boolean)),
        ExprNode::Unknown => Ok(asks_unknown(asked, e.span)),
        ExprNode::Bottom => Ok(asks(asked, e.span, Ty::Level)),
        ExprNode::Top => Ok(asks(asked, e.span, Ty::Level)),
        ExprNode::Call(f, args) => {
            let meaning = find(scope, locals, &f.name);
            let named = called_rules(scope, f.span, e.span, meaning);
            let inner = judge_call(alloc, scope, site, locals, named, f, args.as_slice())?;
            let ty = type_of_head(scope.head_of(meaning));
            Ok(otherwise(inner, result_rule(asked, e.span, ty)))
        }
        ExprNode::New(f, args) => {
            let meaning = find(scope, locals, &f.name);
            let named = quoted_rules(scope, f.span, meaning);
            let inner = judge_call(alloc, scope, site, locals, named, f, args.as_slice())?;
            let head = scope.head_of(meaning);
            let ty = result_rule(asked, e.span, type_of_head(head));
            Ok(otherwise(inner, earlier(ty, quote_rules(site, e.span, head))))
        }
        ExprNode::Paren(a) => judge(alloc, scope, site, locals, asked, a.get()),
        ExprNode::Not(a) => {
            let inner = judge(alloc, scope, site, locals, Some(Ty::Boolean), a.get())?;
            Ok(otherwise(inner, asks(asked, e.span, Ty::Boolean)))
        }
        ExprNode::Binary(op, a, b) => {
            let left = judge(alloc, scope, site, locals, sides_asked(*op), a.get())?;
            let right = judge(alloc, scope, site, locals, sides_asked(*op), b.get())?;
            let (t, u) = (own(scope, locals, a.get()), own(scope, locals, b.get()));
            let sides = sides_rules(scope, locals, *op, e.span, a.get(), b.get(), t, u);
            let inner = otherwise(earlier(left, right), sides);
            Ok(otherwise(inner, asks(asked, e.span, binary_type(*op))))
        }
        ExprNode::Join(_, a, b) => {
            let left = judge(alloc, scope, site, locals, Some(Ty::Level), a.get())?;
            let right = judge(alloc, scope, site, locals, Some(Ty::Level), b.get())?;
            Ok(otherwise(earlier(left, right), asks(asked, e.span, Ty::Level)))
        }
        ExprNode::If(c, a, b) => {
            let condition = judge(alloc, scope, site, locals, Some(Ty::Boolean), c.get())?;
            let left = judge(alloc, scope, site, locals, asked, a.get())?;
            let right = judge(alloc, scope, site, locals, asked, b.get())?;
            let (t, u) = (own(scope, locals, a.get()), own(scope, locals, b.get()));
            let branches = branch_rules(asked, a.get(), b.get(), t, u);
            Ok(otherwise(earlier(condition, earlier(left, right)), branches))
        }
        ExprNode::Quant(_, formal, b) => {
            let around = extend(alloc, scope, locals, formal)?;
            let body = judge(alloc, scope, site, &around, Some(Ty::Boolean), b.get())?;
            let inner = otherwise(formal_rules(scope, locals, formal), body);
            Ok(otherwise(inner, asks(asked, e.span, Ty::Boolean)))
        }
    }
}

// The first rule that a call's name, of which that is given, its arguments and their number break.
#[cycle(judge)]
#[tactic(auto, using(crate::proofs::Weights::weight_some))]
fn judge_call(
    alloc: Global,
    scope: &Scope,
    site: Site,
    locals: &[Local],
    named: Option<Violation>,
    f: &Ident,
    args: &[ExprTree],
) -> Result<Option<Violation>, Memory>
    requires { length locals.now + binders_in (texts_of (map text args.now)) < 2 ^ 32 }
    ensures { (xs : List ViolationValue) → named ≡ first xs → IfOk result (λ r. r ≡ first (spec_broken.call_broken scope.now site locals.now xs f.now (texts_of (map text args.now)))) }
{
    let meaning = find(scope, locals, &f.name);
    let head = scope.head_of(meaning);
    let inner = judge_args(alloc, scope, site, locals, asked_of(head, args.len()), args)?;
    Ok(otherwise(earlier(named, inner), count_rule(f.span, head, args.len())))
}

// The first rule that arguments break, of which these types are asked.
#[cycle(judge)]
#[tactic(auto, using(crate::proofs::Weights::weight_some))]
fn judge_args(
    alloc: Global,
    scope: &Scope,
    site: Site,
    locals: &[Local],
    formals: &[Local],
    args: &[ExprTree],
) -> Result<Option<Violation>, Memory>
    requires { length locals.now + binders_in (texts_of (map text args.now)) < 2 ^ 32 }
    ensures { IfOk result (λ r. r ≡ first (spec_broken.all_broken scope.now site locals.now formals.now (texts_of (map text args.now)))) }
{
    if let [arg, args @ ..] = args {
        let left = judge(alloc, scope, site, locals, next_type(formals), arg)?;
        let right = judge_args(alloc, scope, site, locals, rest(formals), args)?;
        return Ok(earlier(left, right));
    }
    Ok(None)
}
