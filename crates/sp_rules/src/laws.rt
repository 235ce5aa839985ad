//! Laws of the rules, as calls that do nothing.

ghost use Rattle.sp_rules.specs.Laws.{ClosedHasAll, Cut, MoreFollowsFromMore, MoreLackNoMore, StepsAreSound};

/// What a step that lacks nothing gives follows.
pub fn steps_are_sound()
    ensures { StepsAreSound }
{}

/// What follows is in each closed set that has the given facts.
pub fn closed_sets_have_all()
    ensures { ClosedHasAll }
{}

/// A step lacks nothing more where more facts are there.
pub fn more_facts_lack_no_more()
    ensures { MoreLackNoMore }
{}

/// What follows from some facts follows from more.
pub fn more_facts_give_more()
    ensures { MoreFollowsFromMore }
{}

/// What follows from facts that follow, follows.
pub fn facts_that_follow_may_be_given()
    ensures { Cut }
{}
