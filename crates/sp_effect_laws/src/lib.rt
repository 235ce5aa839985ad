//! Effects that break no rule are well-formed, and are made.
#![tactic(auto)]

ghost use Rattle.sp_effect_laws.specs.Laws.{BothLaw, EffectsLaw, OperationLaw};

mod making;
mod numbers;

pub use making::make_effects;
pub use numbers::tell_effect_numbers;

/// Effects that break nothing are well-formed.
pub fn effects_law()
    ensures { EffectsLaw }
{}

/// Those of an O-function are, and have no result.
pub fn operation_law()
    ensures { OperationLaw }
{}

/// Those of an OV-function are, and have one result on each path.
pub fn both_law()
    ensures { BothLaw }
{}
