//! Expressions of texts, translated, with their definitions expanded.

ghost use Rattle.std.specs.Prelude.{◌≡◌, ◌+◌, ◌<◌, ◌≤◌, length, map, slice_get, IfOk};
ghost use Rattle.sp_core.specs.Measures.{quantifiers};
ghost use Rattle.sp_core.specs.Tree as core;
ghost use Rattle.sp_core.specs.Tree.{Tree, Trees, tree};
ghost use Rattle.sp_expand.specs.Expansion.{put};
ghost use Rattle.sp_expand.specs.Parts.{AreParts, IsPart, IsPartList};
ghost use Rattle.sp_plain.specs.Text.{text, texts_of};
ghost use Rattle.sp_judge.specs.Names.{meaning, type_of, with_formal};
ghost use Rattle.sp_judge.specs.Translation as spec_translation;
ghost use Rattle.sp_judge.specs.Translation.{AreFine, binders, binders_in, translation, translations};

use crate::names::{extend, find, type_named};
use crate::scope::{Meaning, Scope};
use crate::types::{either_type, own};
use sp_expand::{
    Called, Part, PartList, call, choice, constant, every, join, no_parts, not, put_within, two,
    variable,
};
use sp_naming::Entity;
use sp_scopes::Local;
use sp_text::Memory;
use sp_tree::{BinOp, ExprNode, ExprTree, FormalTree, Ident};
use sp_values::{Op, Ty, Value};
use std::alloc::Global;

fn name_part(alloc: Global, meaning: Meaning) -> Result<Part, Memory>
    ensures { IfOk result (IsPart (spec_translation.name_core meaning)) }
{
    match meaning {
        Meaning::Variable(k, _) => variable(alloc, k),
        Meaning::Shared(Entity::Member(t, m)) => constant(alloc, Value::Member(t, m)),
        Meaning::Shared(Entity::Level(k)) => constant(alloc, Value::Level(k)),
        _ => constant(alloc, Value::Unknown),
    }
}

fn le_op(t: Option<Ty>) -> Op
    ensures { result ≡ spec_translation.le_op t }
{
    match t {
        Some(Ty::Level) => Op::LevelLe,
        _ => Op::IntLe,
    }
}

fn binary(
    alloc: Global,
    op: BinOp,
    t: Option<Ty>,
    a: Result<Part, Memory>,
    b: Result<Part, Memory>,
) -> Result<Part, Memory>
    ensures { (x : Tree) (y : Tree) → IfOk a (IsPart x) → IfOk b (IsPart y) → IfOk result (IsPart (spec_translation.binary_core op t x y)) }
{
    match op {
        BinOp::Iff => two(alloc, Op::Same, a, b),
        BinOp::Implies => two(alloc, Op::Or, not(alloc, a), b),
        BinOp::Or => two(alloc, Op::Or, a, b),
        BinOp::And => two(alloc, Op::And, a, b),
        BinOp::Eq => two(alloc, Op::Same, a, b),
        BinOp::Ne => not(alloc, two(alloc, Op::Same, a, b)),
        BinOp::Lt => two(alloc, Op::IntLt, a, b),
        BinOp::Le => two(alloc, le_op(t), a, b),
        BinOp::Gt => two(alloc, Op::IntLt, b, a),
        BinOp::Ge => two(alloc, Op::IntLe, b, a),
        BinOp::Add => two(alloc, Op::Add, a, b),
        BinOp::Sub => two(alloc, Op::Sub, a, b),
        BinOp::Mul => two(alloc, Op::Mul, a, b),
    }
}

fn join_op(least_upper: bool) -> Op
    ensures { result ≡ spec_translation.join_op least_upper }
{
    if least_upper { Op::Lub } else { Op::Glb }
}

fn quantified(
    alloc: Global,
    all: bool,
    k: u32,
    ty: Ty,
    body: Result<Part, Memory>,
) -> Result<Part, Memory>
    ensures { (t : Tree) → IfOk body (IsPart t) → IfOk result (IsPart (spec_translation.quant_core all k ty t)) }
{
    if all {
        every(alloc, k, ty, body)
    } else {
        not(alloc, every(alloc, k, ty, not(alloc, body)))
    }
}

/// What is made of an expression.
#[cycle(translate)]
#[tactic(auto, using(crate::proofs::Weights::weight_some))]
pub fn translate(
    alloc: Global,
    scope: &Scope,
    locals: &[Local],
    e: &ExprTree,
) -> Result<Part, Memory>
    requires fine { AreFine scope.now.cores }
    requires room { length locals.now + binders (text e.now) < 4294967288 }
    ensures { IfOk result (IsPart (translation scope.now locals.now (text e.now))) }
{
    match &e.node {
        ExprNode::Name(x) => name_part(alloc, find(scope, locals, x)),
        ExprNode::Number(n) => constant(alloc, Value::Int(*n)),
        ExprNode::Truth(b) => constant(alloc, Value::Truth(*b)),
        ExprNode::Unknown => constant(alloc, Value::Unknown),
        ExprNode::Bottom => constant(alloc, Value::Level(scope.bottom())),
        ExprNode::Top => constant(alloc, Value::Level(scope.top())),
        ExprNode::Call(f, args) => translate_call(alloc, scope, locals, f, args.as_slice()),
        ExprNode::New(f, args) => translate_new(alloc, scope, locals, f, args.as_slice()),
        ExprNode::Paren(a) => translate(alloc, scope, locals, a.get()),
        ExprNode::Not(a) => not(alloc, translate(alloc, scope, locals, a.get())),
        ExprNode::Binary(op, a, b) => binary(
            alloc,
            *op,
            either_type(own(scope, locals, a.get()), own(scope, locals, b.get())),
            translate(alloc, scope, locals, a.get()),
            translate(alloc, scope, locals, b.get()),
        ),
        ExprNode::Join(least_upper, a, b) => two(
            alloc,
            join_op(*least_upper),
            translate(alloc, scope, locals, a.get()),
            translate(alloc, scope, locals, b.get()),
        ),
        ExprNode::If(c, a, b) => choice(
            alloc,
            translate(alloc, scope, locals, c.get()),
            translate(alloc, scope, locals, a.get()),
            translate(alloc, scope, locals, b.get()),
        ),
        ExprNode::Quant(all, formal, b) => quantified(
            alloc,
            *all,
            locals.len() as u32,
            type_named(scope, &formal.ty),
            translate_below(alloc, scope, locals, formal, b.get()),
        ),
    }
}

// What is made of a quantifier's body.
#[cycle(translate)]
fn translate_below(
    alloc: Global,
    scope: &Scope,
    locals: &[Local],
    formal: &FormalTree,
    body: &ExprTree,
) -> Result<Part, Memory>
    requires fine { AreFine scope.now.cores }
    requires room { length locals.now + 1 + binders (text body.now) < 4294967288 }
    ensures { IfOk result (IsPart (translation scope.now (with_formal scope.now locals.now formal.now) (text body.now))) }
{
    let around = extend(alloc, scope, locals, formal)?;
    translate(alloc, scope, &around, body)
}

// What is made of a call.
#[cycle(translate)]
fn translate_call(
    alloc: Global,
    scope: &Scope,
    locals: &[Local],
    f: &Ident,
    args: &[ExprTree],
) -> Result<Part, Memory>
    requires fine { AreFine scope.now.cores }
    requires room { length locals.now + binders_in (texts_of (map text args.now)) < 4294967288 }
    ensures { IfOk result (IsPart (spec_translation.call_core scope.now (length locals.now) (meaning scope.now locals.now f.now.name) (translations scope.now locals.now (texts_of (map text args.now))))) }
{
    match find(scope, locals, &f.name) {
        Meaning::Shared(Entity::Param(p)) => {
            call(
                alloc,
                Called::Param(p),
                translate_list(alloc, scope, locals, args),
            )
        }
        Meaning::Shared(Entity::Function(g)) => {
            call(
                alloc,
                Called::Look(g),
                translate_list(alloc, scope, locals, args),
            )
        }
        Meaning::Shared(Entity::Definition(d)) => translate_expanded(alloc, scope, locals, d, args),
        _ => constant(alloc, Value::Unknown),
    }
}

#[cycle(translate)]
fn translate_new(
    alloc: Global,
    scope: &Scope,
    locals: &[Local],
    f: &Ident,
    args: &[ExprTree],
) -> Result<Part, Memory>
    requires fine { AreFine scope.now.cores }
    requires room { length locals.now + binders_in (texts_of (map text args.now)) < 4294967288 }
    ensures { IfOk result (IsPart (spec_translation.new_core (meaning scope.now locals.now f.now.name) (translations scope.now locals.now (texts_of (map text args.now))))) }
{
    match find(scope, locals, &f.name) {
        Meaning::Shared(Entity::Function(g)) => {
            call(
                alloc,
                Called::New(g),
                translate_list(alloc, scope, locals, args),
            )
        }
        _ => constant(alloc, Value::Unknown),
    }
}

// What is made of a definition at arguments.
#[cycle(translate)]
fn translate_expanded(
    alloc: Global,
    scope: &Scope,
    locals: &[Local],
    d: u16,
    args: &[ExprTree],
) -> Result<Part, Memory>
    requires fine { AreFine scope.now.cores }
    requires room { length locals.now + binders_in (texts_of (map text args.now)) < 4294967288 }
    ensures { IfOk result (IsPart (spec_translation.expanded (length locals.now) (translations scope.now locals.now (texts_of (map text args.now))) (slice_get scope.now.cores d))) }
{
    match scope.core_of(d) {
        None => constant(alloc, Value::Unknown),
        Some(core) => {
            let parts = translate_parts(alloc, scope, locals, args)?;
            put_within(alloc, locals.len() as u32, &parts, core)
        }
    }
}

#[cycle(translate)]
fn translate_parts(
    alloc: Global,
    scope: &Scope,
    locals: &[Local],
    args: &[ExprTree],
) -> Result<Vec<Part>, Memory>
    requires fine { AreFine scope.now.cores }
    requires room { length locals.now + binders_in (texts_of (map text args.now)) < 4294967288 }
    ensures { IfOk result (λ all. AreParts (translations scope.now locals.now (texts_of (map text args.now))) all.items) }
{
    let mut all = Vec::new(alloc);
    for arg in args {
        all.push(translate(alloc, scope, locals, arg)?)?;
    }
    Ok(all)
}

#[cycle(translate)]
fn translate_list(
    alloc: Global,
    scope: &Scope,
    locals: &[Local],
    args: &[ExprTree],
) -> Result<PartList, Memory>
    requires fine { AreFine scope.now.cores }
    requires room { length locals.now + binders_in (texts_of (map text args.now)) < 4294967288 }
    ensures { IfOk result (IsPartList (translations scope.now locals.now (texts_of (map text args.now)))) }
{
    let mut list = no_parts(alloc);
    for arg in args {
        list = join(list, translate(alloc, scope, locals, arg)?)?;
    }
    Ok(list)
}
