//! One expression.

ghost use Rattle.std.specs.Prelude.{◌≡◌, IfOk};
ghost use Rattle.sp_core.specs.Tree.{tree};
ghost use Rattle.sp_plain.specs.Text.{text};
ghost use Rattle.sp_judge.specs.Translation.{AreFine};
ghost use Rattle.sp_functions.specs.Judged.{made};

use sp_core::Expr;
use sp_definitions::has_room;
use sp_functions::make_expression;
use sp_judge::Scope;
use sp_scopes::Local;
use sp_text::Memory;
use sp_tree::ExprTree;
use std::alloc::Global;

/// What is made of an expression: its translation, or `?` where that exceeds a limit.
///
/// # Errors
/// `Memory` where it can't be stored.
pub fn make(alloc: Global, scope: &Scope, locals: &[Local], e: &ExprTree) -> Result<Expr, Memory>
    requires { AreFine scope.now.cores }
    ensures { IfOk result (λ x. tree x ≡ made scope.now locals.now (text e.now)) }
{
    if !has_room(locals, e) {
        return Err(Memory);
    }
    make_expression(alloc, scope, locals, e)
}
