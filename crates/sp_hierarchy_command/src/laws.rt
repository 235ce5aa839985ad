//! What holds of the work of `hierarchy`, whatever the files.

ghost use Rattle.std.specs.Prelude.{ℕ, List};
ghost use Rattle.sp_outside.specs.Files.{Files};
ghost use Rattle.sp_frame.specs.Laws.{IsLawful};
ghost use Rattle.sp_hierarchy_command.specs.Hierarchy.{HierarchyDone};
ghost use Rattle.sp_hierarchy_command.specs.Secure.{AcceptedHierarchiesAreSecure, AcceptedMappingsHide, AcceptedMembersAreSecure, AnswersCome};

use sp_check_command::proved_law;
use sp_map_laws::laws::closed_views_law;

/// The work comes to one outcome at most, and its refusals hold of the files. It does nothing: its clause is the law.
pub fn hierarchy_law()
    ensures { (files : Files) (file : List ℕ) → IsLawful files (HierarchyDone file files) }
{}

/// Each answer comes by answers of the interfaces and of the mappings. It does nothing: its clause is the law.
pub fn came_law()
    ensures { AnswersCome }
{}

/// An interface whose part of the answer accepts is secure. It does nothing: its clause is the law.
pub fn secure_law()
    ensures { AcceptedMembersAreSecure }
{
    proved_law();
}

/// What is seen through a mapping whose part of the answer accepts, as that of its lower interface does, hides all that is
/// above. It does nothing: its clause is the law.
pub fn hides_law()
    ensures { AcceptedMappingsHide }
{
    proved_law();
    closed_views_law();
}

/// Where the answer accepts, each interface is secure, and each mapping hides. It does nothing: its clause is the law.
pub fn accepted_law()
    ensures { AcceptedHierarchiesAreSecure }
{
    proved_law();
    closed_views_law();
}
