//! What holds of the work of `formulas`, whatever the files.

ghost use Rattle.std.specs.Prelude.{ℕ, List};
ghost use Rattle.sp_outside.specs.Files.{Files};
ghost use Rattle.sp_frame.specs.Laws.{IsLawful};
ghost use Rattle.sp_formulas_command.specs.Formulas.{FormulasDone};

/// The work comes to one outcome at most, and its refusals hold of the files. It does nothing: its clause is the law.
pub fn formulas_law()
    ensures { (files : Files) (interface : List ℕ) → IsLawful files (FormulasDone interface files) }
{}
