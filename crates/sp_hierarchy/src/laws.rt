//! What holds of how a hierarchy is read and judged, whatever the files.

ghost use Rattle.std.specs.Prelude.{ℕ, List};
ghost use Rattle.sp_outside.specs.Files.{Files};
ghost use Rattle.sp_frame.specs.Laws.{IsLawful};
ghost use Rattle.sp_hierarchy.specs.Judged.{HierarchyJudged};
ghost use Rattle.sp_hierarchy.specs.Known.{RowsAreRead};
ghost use Rattle.sp_hierarchy.specs.Texts.{HierarchyRead};
ghost use Rattle.sp_hierarchy.specs.declared.texts.HierarchyTexts.{HierarchyTexts as ReadTexts};

/// Reading a hierarchy comes to one outcome at most, and its refusals hold of the files. It does nothing: its clause is the law.
pub fn hierarchy_read_law()
    ensures { (files : Files) (file : List ℕ) → IsLawful files (HierarchyRead file files) }
{}

/// Judging a hierarchy comes to one outcome at most, and its refusals say nothing of the files. It does nothing: its clause is
/// the law.
pub fn hierarchy_judged_law()
    ensures { (files : Files) (file : List ℕ) (x : ReadTexts) → IsLawful files (HierarchyJudged file x) }
{}

/// Where a hierarchy is read, both interfaces of the row of each mapping are. It does nothing: its clause is the law.
pub fn rows_are_read_law()
    ensures { RowsAreRead }
{}
