//! What the worked specifications show, each theorem on a function that does nothing.

ghost use Rattle.sp_examples.specs.Theorems.{CyclesAreRefused, EffectsWithConditionsAndQuantifiers, LastPushedIsFirstPopped, LeakyIsNotSecure, NameThatStandsTwiceIsRefused, PopGivesWhatWasPushed, SecondResultIsRefused, SeventeenDerivationsAreRefused, SilentIsSecure, StacksAreWellFormed, TargetThatIsNotInjectiveIsRefused};

/// Files whose `write` has no exception are well-formed and not secure.
pub fn leaky_is_not_secure()
    ensures { LeakyIsNotSecure }
{}

/// A specification without functions is well-formed and secure.
pub fn silent_is_secure()
    ensures { SilentIsSecure }
{}

/// Effects may have an IF with a result in each branch, and a FORALL.
pub fn effects_with_conditions_and_quantifiers()
    ensures { EffectsWithConditionsAndQuantifiers }
{}

/// A second result on a path is not well-formed.
pub fn second_result_is_refused()
    ensures { SecondResultIsRefused }
{}

/// A target in which the variable of a FORALL effect doesn't stand is not well-formed.
pub fn target_that_is_not_injective_is_refused()
    ensures { TargetThatIsNotInjectiveIsRefused }
{}

/// Two functions of one name are not well-formed.
pub fn name_that_stands_twice_is_refused()
    ensures { NameThatStandsTwiceIsRefused }
{}

/// A chain of sixteen derivations is well-formed, one of seventeen isn't.
pub fn seventeen_derivations_are_refused()
    ensures { SeventeenDerivationsAreRefused }
{}

/// The stack whose `push` reads the new pointer is well-formed.
pub fn stacks_are_well_formed()
    ensures { StacksAreWellFormed }
{}

/// New values that are read in a cycle, of one function or of two, are not well-formed.
pub fn cycles_are_refused()
    ensures { CyclesAreRefused }
{}

/// What was pushed is popped, from every state.
pub fn pop_gives_what_was_pushed()
    ensures { PopGivesWhatWasPushed }
{}

/// What was pushed last is popped first, and an empty stack refuses.
pub fn last_pushed_is_first_popped()
    ensures { LastPushedIsFirstPopped }
{}
