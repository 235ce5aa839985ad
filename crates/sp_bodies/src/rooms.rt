//! Whether the variables of exceptions can be numbered.

ghost use Rattle.std.specs.Prelude.{IsTrue, length};
ghost use Rattle.sp_functions.specs.Exceptions.{HasRoom, HaveRoom};

use sp_definitions::has_room;
use sp_scopes::Local;
use sp_tree::{ExprTree, Ident};

fn has_condition_room(formals: &[Local], exception: &(Ident, ExprTree)) -> bool
    ensures { IsTrue result → HasRoom (length formals.now) exception.now }
{
    has_room(formals, &exception.1)
}

/// Whether the variables of all conditions, with the formals, can be numbered. Those of a text of limited height can.
#[tactic(auto, using(crate::proofs::Conditions::rooms_next))]
pub fn have_exception_room(formals: &[Local], exceptions: &[(Ident, ExprTree)]) -> bool
    ensures { IsTrue result → HaveRoom (length formals.now) exceptions.now }
{
    for exception in exceptions {
        if !has_condition_room(formals, exception) {
            return false;
        }
    }
    true
}
