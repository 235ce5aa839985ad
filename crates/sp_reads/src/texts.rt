//! What an expression of a text reads.

ghost use Rattle.std.specs.Prelude.{◌≡◌, ◌+◌, ◌<◌, ◌^◌, IfOk, length, map};
ghost use Rattle.sp_text.specs.Violations.{first};
ghost use Rattle.sp_plain.specs.Text.{text, texts_of};
ghost use Rattle.sp_judge.specs.Names.{meaning, with_formal};
ghost use Rattle.sp_judge.specs.Translation.{binders, binders_in};
ghost use Rattle.sp_reads.specs.ReadTexts as spec_reads;
ghost use Rattle.sp_reads.specs.ReadTexts.{read_lists, reads, together};

use crate::expressions::{first_read, read};
use sp_judge::{Meaning, Scope, extend, find};
use sp_naming::Entity;
use sp_scopes::Local;
use sp_text::{Memory, Rule, Span, Violation, earlier};
use sp_tree::{ExprNode, ExprTree, FormalTree, Ident};
use std::alloc::Global;

/// The first place where an expression reads a V-function whose flag is true, as one where this rule is broken. What the text of a
/// definition reads stands at its call.
///
/// # Errors
/// `Memory` where what is around can't be stored.
#[cycle(judge_reads)]
#[tactic(auto, using(sp_judge::proofs::Weights::weight_some))]
pub fn judge_reads(
    alloc: Global,
    scope: &Scope,
    flags: &[bool],
    rule: Rule,
    locals: &[Local],
    e: &ExprTree,
) -> Result<Option<Violation>, Memory>
    requires { length locals.now + binders (text e.now) < 2 ^ 32 }
    ensures { IfOk result (λ r. r ≡ first (reads scope.now flags.now rule locals.now (text e.now))) }
{
    match &e.node {
        ExprNode::Name(_) => Ok(None),
        ExprNode::Number(_) => Ok(None),
        ExprNode::Truth(_) => Ok(None),
        ExprNode::Unknown => Ok(None),
        ExprNode::Bottom => Ok(None),
        ExprNode::Top => Ok(None),
        ExprNode::Call(f, args) => {
            judge_call(
                alloc,
                scope,
                flags,
                e.span,
                rule,
                locals,
                f,
                args.as_slice(),
            )
        }
        ExprNode::New(f, args) => {
            judge_quote(
                alloc,
                scope,
                flags,
                e.span,
                rule,
                locals,
                f,
                args.as_slice(),
            )
        }
        ExprNode::Paren(a) => judge_reads(alloc, scope, flags, rule, locals, a.get()),
        ExprNode::Not(a) => judge_reads(alloc, scope, flags, rule, locals, a.get()),
        ExprNode::Binary(_, a, b) => {
            let left = judge_reads(alloc, scope, flags, rule, locals, a.get())?;
            let right = judge_reads(alloc, scope, flags, rule, locals, b.get())?;
            Ok(earlier(left, right))
        }
        ExprNode::Join(_, a, b) => {
            let left = judge_reads(alloc, scope, flags, rule, locals, a.get())?;
            let right = judge_reads(alloc, scope, flags, rule, locals, b.get())?;
            Ok(earlier(left, right))
        }
        ExprNode::If(c, a, b) => {
            let condition = judge_reads(alloc, scope, flags, rule, locals, c.get())?;
            let left = judge_reads(alloc, scope, flags, rule, locals, a.get())?;
            let right = judge_reads(alloc, scope, flags, rule, locals, b.get())?;
            Ok(earlier(condition, earlier(left, right)))
        }
        ExprNode::Quant(_, formal, b) => {
            judge_below(alloc, scope, flags, rule, locals, formal, b.get())
        }
    }
}

#[cycle(judge_reads)]
fn judge_below(
    alloc: Global,
    scope: &Scope,
    flags: &[bool],
    rule: Rule,
    locals: &[Local],
    formal: &FormalTree,
    body: &ExprTree,
) -> Result<Option<Violation>, Memory>
    requires { length locals.now + 1 + binders (text body.now) < 2 ^ 32 }
    ensures { IfOk result (λ r. r ≡ first (reads scope.now flags.now rule (with_formal scope.now locals.now formal.now) (text body.now))) }
{
    let around = extend(alloc, scope, locals, formal)?;
    judge_reads(alloc, scope, flags, rule, &around, body)
}

// What a call reads: of a definition at the call, or what its arguments read.
#[cycle(judge_reads)]
#[tactic(auto, using(crate::proofs::Lists::firsts_are))]
fn judge_call(
    alloc: Global,
    scope: &Scope,
    flags: &[bool],
    place: Span,
    rule: Rule,
    locals: &[Local],
    f: &Ident,
    args: &[ExprTree],
) -> Result<Option<Violation>, Memory>
    requires { length locals.now + binders_in (texts_of (map text args.now)) < 2 ^ 32 }
    ensures { IfOk result (λ r. r ≡ first (spec_reads.call_reads scope.now flags.now place rule (read_lists scope.now flags.now rule locals.now (texts_of (map text args.now))) (meaning scope.now locals.now f.now.name))) }
{
    match find(scope, locals, &f.name) {
        Meaning::Shared(Entity::Param(_)) => judge_args(alloc, scope, flags, rule, locals, args),
        Meaning::Shared(Entity::Function(g)) => {
            let inner = judge_args(alloc, scope, flags, rule, locals, args)?;
            Ok(earlier(read(flags, place, rule, g), inner))
        }
        Meaning::Shared(Entity::Definition(d)) => match scope.core_of(d) {
            None => Ok(None),
            Some(core) => {
                let firsts = firsts_of(alloc, scope, flags, rule, locals, args)?;
                Ok(first_read(flags, place, rule, &firsts, core))
            }
        },
        _ => Ok(None),
    }
}

#[cycle(judge_reads)]
fn judge_quote(
    alloc: Global,
    scope: &Scope,
    flags: &[bool],
    place: Span,
    rule: Rule,
    locals: &[Local],
    f: &Ident,
    args: &[ExprTree],
) -> Result<Option<Violation>, Memory>
    requires { length locals.now + binders_in (texts_of (map text args.now)) < 2 ^ 32 }
    ensures { IfOk result (λ r. r ≡ first (spec_reads.quote_reads flags.now place rule (read_lists scope.now flags.now rule locals.now (texts_of (map text args.now))) (meaning scope.now locals.now f.now.name))) }
{
    match find(scope, locals, &f.name) {
        Meaning::Shared(Entity::Function(g)) => {
            let inner = judge_args(alloc, scope, flags, rule, locals, args)?;
            Ok(earlier(read(flags, place, rule, g), inner))
        }
        _ => Ok(None),
    }
}

// What arguments read, together.
#[cycle(judge_reads)]
#[tactic(auto, using(sp_judge::proofs::Weights::weight_some))]
fn judge_args(
    alloc: Global,
    scope: &Scope,
    flags: &[bool],
    rule: Rule,
    locals: &[Local],
    args: &[ExprTree],
) -> Result<Option<Violation>, Memory>
    requires { length locals.now + binders_in (texts_of (map text args.now)) < 2 ^ 32 }
    ensures { IfOk result (λ r. r ≡ first (together (read_lists scope.now flags.now rule locals.now (texts_of (map text args.now))))) }
{
    if let [arg, args @ ..] = args {
        let left = judge_reads(alloc, scope, flags, rule, locals, arg)?;
        let right = judge_args(alloc, scope, flags, rule, locals, args)?;
        return Ok(earlier(left, right));
    }
    Ok(None)
}

// What arguments read, each by itself.
#[cycle(judge_reads)]
fn firsts_of(
    alloc: Global,
    scope: &Scope,
    flags: &[bool],
    rule: Rule,
    locals: &[Local],
    args: &[ExprTree],
) -> Result<Vec<Option<Violation>>, Memory>
    requires { length locals.now + binders_in (texts_of (map text args.now)) < 2 ^ 32 }
    ensures { IfOk result (λ all. all.items ≡ map first (read_lists scope.now flags.now rule locals.now (texts_of (map text args.now)))) }
{
    let mut all = Vec::new(alloc);
    for arg in args {
        all.push(judge_reads(alloc, scope, flags, rule, locals, arg)?)?;
    }
    Ok(all)
}
