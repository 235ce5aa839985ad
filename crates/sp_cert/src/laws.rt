//! What holds of the definitions alone.

ghost use Rattle.sp_cert.specs.Answers.{OneSpelling};

/// No spelling stands for two certificate files.
pub fn one_spelling()
    ensures { OneSpelling }
{}
