//! What a line that begins with ACCEPTED means in a report, by its bytes.
#![tactic(auto)]

ghost use Rattle.sp_headline.specs.Laws.{CheckedLinesLaw, VerifiedLinesLaw};
ghost use Rattle.sp_headline.specs.Refused.{CheckRefusesLaw, RefusedLinesLaw, SampleRefusesLaw, VerifyRefusesLaw};
ghost use Rattle.sp_headline.specs.Sampled.{SampledLinesLaw};

use sp_check_command::accepted_law;
use sp_sample_command::sampled_law;
use sp_verify_command::verified_law;

/// Where the report of `check` holds a line that begins with ACCEPTED, the interface is secure. It does nothing: its
/// clause is the law.
pub fn checked_lines_law()
    ensures { CheckedLinesLaw }
{
    accepted_law();
}

/// The same of the report of `verify`.
pub fn verified_lines_law()
    ensures { VerifiedLinesLaw }
{
    verified_law();
}

/// Where the report of `sample` holds such a line, the sample of that size is secure.
pub fn sampled_lines_law()
    ensures { SampledLinesLaw }
{
    sampled_law();
}

/// What is printed of a refusal holds no such line, where the names that it tells hold no line feed. It does nothing: its
/// clause is the law.
pub fn refused_lines_law()
    ensures { RefusedLinesLaw }
{}

/// Each refusal of `check` and of `verify` tells such names, where the words of the command hold no line feed; and each of
/// `sample` does.
pub fn refusals_law()
    ensures check { CheckRefusesLaw }
    ensures verify { VerifyRefusesLaw }
    ensures sample { SampleRefusesLaw }
{}
