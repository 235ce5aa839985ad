//! Expressions that stand by themselves.

ghost use Rattle.std.specs.Prelude.{◌≡◌, ◌+◌, ◌<◌, length};
ghost use Rattle.sp_core.specs.Tree.{Tree, tree};
ghost use Rattle.sp_expand.specs.Parts.{IsPart};
ghost use Rattle.sp_plain.specs.Text.{text};
ghost use Rattle.sp_judge.specs.Broken as spec_broken;
ghost use Rattle.sp_judge.specs.Broken.{limit_rules, typed_broken, whole_broken};
ghost use Rattle.sp_text.specs.Violations.{Judges, first};
ghost use Rattle.sp_judge.specs.Translation.{AreFine, IsElaborated, binders, translation};

use crate::judge_expr::judge;
use crate::scope::{Scope, Site};
use crate::translate_expr::translate;
use crate::types::{either_type, own};
use sp_core::Expr;
use sp_expand::{Part, Size};
use sp_plain::span_of;
use sp_scopes::Local;
use sp_text::{
    Limit, MOST_HEIGHT, MOST_QUANTIFIERS, Malformed, Quantity, Rule, Span, TextFault, Violation,
    exceeds,
};
use sp_tree::ExprTree;
use sp_values::Ty;
use sqlite_items::Boxed;
use std::alloc::Global;

// The first quantity that a size exceeds, where it exceeds one.
fn limit_quantity(size: Size) -> Quantity
    ensures { result ≡ spec_broken.limit_quantity size }
{
    if size.height > MOST_HEIGHT {
        Quantity::Height
    } else if size.quantifiers > MOST_QUANTIFIERS {
        Quantity::Quantifiers
    } else {
        Quantity::ExpressionNodes
    }
}

/// The first limit that a part exceeds, if any.
pub fn limit_of(place: Span, part: &Part) -> Option<Violation>
    ensures { (t : Tree) → IsPart t part.now → result ≡ first (limit_rules place t) }
{
    match &part.core {
        Some(_) => None,
        None => exceeds(place, limit_quantity(part.size)),
    }
}

// The expression of a part within the limits, else the first limit that it exceeds.
fn within_limits(place: Span, part: Part) -> Result<Boxed<Expr>, TextFault>
    ensures { (t : Tree) → IsPart t part → Judges (limit_rules place t) (λ x. tree x ≡ t) result }
{
    match part.core {
        Some(core) => Ok(core),
        None => Err(TextFault::Limit(Limit {
            span: place,
            quantity: limit_quantity(part.size),
        })),
    }
}

/// The translation of an expression that breaks no rule and no limit where this type is asked, if any.
///
/// # Errors
/// The first rule or limit that it breaks; `Memory` where it can't be stored.
pub fn elaborate(
    alloc: Global,
    scope: &Scope,
    site: Site,
    locals: &[Local],
    asked: Option<Ty>,
    e: &ExprTree,
) -> Result<Boxed<Expr>, TextFault>
    requires fine { AreFine scope.now.cores }
    requires room { length locals.now + binders (text e.now) < 4294967288 }
    ensures { Judges (whole_broken scope.now site locals.now asked (text e.now)) (λ x. tree x ≡ translation scope.now locals.now (text e.now)) result }
{
    match judge(alloc, scope, site, locals, asked, e)? {
        Some(found) => Err(TextFault::from(found)),
        None => within_limits(span_of(e), translate(alloc, scope, locals, e)?),
    }
}

/// The translation of an expression outside effects with its type, which is the asked one, else its own, where it breaks no rule and
/// no limit.
///
/// # Errors
/// The first rule or limit that it breaks; `Memory` where it can't be stored.
pub fn elaborate_expr(
    alloc: Global,
    scope: &Scope,
    locals: &[Local],
    asked: Option<Ty>,
    e: &ExprTree,
) -> Result<(Expr, Ty), TextFault>
    requires fine { AreFine scope.now.cores }
    requires room { length locals.now + binders (text e.now) < 4294967288 }
    ensures { Judges (typed_broken scope.now locals.now asked (text e.now)) (IsElaborated scope.now locals.now asked (text e.now)) result }
{
    match judge(alloc, scope, Site::Outside, locals, asked, e)? {
        Some(found) => Err(TextFault::from(found)),
        None => match either_type(asked, own(scope, locals, e)) {
            Some(ty) => {
                let core = within_limits(span_of(e), translate(alloc, scope, locals, e)?)?;
                Ok((core.into_inner(), ty))
            }
            None => Err(TextFault::Malformed(Malformed {
                span: span_of(e),
                rule: Rule::WrongType,
            })),
        },
    }
}
