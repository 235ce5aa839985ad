//! Expressions over the lower specification.

ghost use Rattle.std.specs.Prelude.{◌≡◌, IfOk, Some};
ghost use Rattle.sp_text.specs.Violations.{first};
ghost use Rattle.sp_core.specs.Tree.{Tree};
ghost use Rattle.sp_definitions.specs.Definitions as spec_definitions;
ghost use Rattle.sp_elaborate.specs.Expressions.{expression_of};
ghost use Rattle.sp_expand.specs.Parts.{IsPart};
ghost use Rattle.sp_functions.specs.Judged.{made};
ghost use Rattle.sp_judge.specs.Broken.{whole_broken};
ghost use Rattle.sp_judge.specs.declared.scope.Site.TheVariants as site;
ghost use Rattle.sp_judge.specs.Translation.{AreFine};
ghost use Rattle.sp_plain.specs.Text.{text};

use sp_core::Expr;
use sp_definitions::has_room;
use sp_expand::Part;
use sp_functions::make_expression;
use sp_judge::{Scope, Site, judge, limit_of, translate};
use sp_plain::span_of;
use sp_scopes::Local;
use sp_text::{Memory, Violation, otherwise};
use sp_tree::ExprTree;
use sp_values::{Ty, Value};
use std::alloc::Global;

/// What is made of an expression over these variables: its translation, or `?` where that exceeds a limit.
///
/// # Errors
/// `Memory` where it can't be stored, or where the variables can't be numbered, as those of a text of limited height can.
#[tactic(auto, using(sp_elaborate::proofs::Expressions::one_expression))]
pub fn make(alloc: Global, scope: &Scope, locals: &[Local], e: &ExprTree) -> Result<Expr, Memory>
    requires { AreFine scope.now.cores }
    ensures { IfOk result (λ x. x ≡ expression_of (made scope.now locals.now (text e.now))) }
{
    if !has_room(locals, e) {
        return Err(Memory);
    }
    let made = make_expression(alloc, scope, locals, e)?;
    Ok(made)
}

/// The first of what an expression of this type breaks that stands outside effects.
///
/// # Errors
/// `Memory` where what is around can't be stored, or where the variables can't be numbered.
pub fn judge_alone(
    alloc: Global,
    scope: &Scope,
    locals: &[Local],
    ty: Ty,
    e: &ExprTree,
) -> Result<Option<Violation>, Memory>
    requires { AreFine scope.now.cores }
    ensures { IfOk result (λ found. found ≡ first (whole_broken scope.now site.Outside locals.now (Some ty) (text e.now))) }
{
    if !has_room(locals, e) {
        return Err(Memory);
    }
    let inner = judge(alloc, scope, Site::Outside, locals, Some(ty), e)?;
    let part = translate(alloc, scope, locals, e)?;
    Ok(otherwise(inner, limit_of(span_of(e), &part)))
}

/// The expression of a part within the limits, else `?`.
#[tactic(auto, using(crate::proofs::Kept::kept_some, crate::proofs::Kept::kept_none))]
pub fn kept(part: Part) -> Expr
    ensures { (t : Tree) → IsPart t part → result ≡ expression_of (spec_definitions.kept t) }
{
    match part.core {
        Some(core) => core.into_inner(),
        None => Expr::Const(Value::Unknown),
    }
}
