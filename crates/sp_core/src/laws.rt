//! Laws of the definitions, each on a function that does nothing.

ghost use Rattle.sp_core.specs.Laws.{AlikeLaw, AnswerLaw, ChangeLaw, ChangedRanksLaw, ConflictLaw, FewRanksLaw, FrontLaw, GuardLaw, JoinLaw, LevelLaw, ListLaw, LookLaw, NewStateLaw, OldValueLaw, OneRankLaw, OutcomeLaw, PutLaw, RankLaw, ResultLaw, RunLaw, SplitLaw, StateLaw, StepLaw, TypeLaw};

/// What a state gives at a V-function is an entry, an initial value, or the value of a derivation over what it gives.
pub fn look_law()
    ensures { LookLaw }
{}

/// A well-typed expression has over two states a value of its type.
pub fn type_law()
    ensures { TypeLaw }
{}

/// The value of an expression doesn't depend on values behind those of its own variables.
pub fn front_law()
    ensures { FrontLaw }
{}

/// An expression that reads no new value has one value over whatever new state.
pub fn old_value_law()
    ensures { OldValueLaw }
{}

/// States that are alike at a level give one value to an expression that depends on places at or below it alone.
pub fn alike_law()
    ensures { AlikeLaw }
{}

/// The level of a function at values of its formals' types, `?` among them, is a level of the lattice.
pub fn level_law()
    ensures { LevelLaw }
{}

/// A step from a state leads to a state: its entries stay at places, with values of their types.
pub fn state_law()
    ensures { StateLaw }
{}

/// Putting a value of its type at a place of a state keeps it a state.
pub fn put_law()
    ensures { PutLaw }
{}

/// A change names a place and gives it a value of its type, over any two states.
pub fn change_law()
    ensures { ChangeLaw }
{}

/// The guards of a change are conditions over its function's formals and the variables around them.
pub fn guard_law()
    ensures { GuardLaw }
{}

/// Effects with one result on each path have from each state exactly one result whose guards are TRUE.
pub fn result_law()
    ensures { ResultLaw }
{}

/// A value that an invocation answers is of its function's type.
pub fn answer_law()
    ensures { AnswerLaw }
{}

/// Without a cycle a function's rank is how many steps the longest chain has that ends at it.
pub fn rank_law()
    ensures { RankLaw }
{}

/// No rank is greater than the number of functions that are changed.
pub fn few_ranks_law()
    ensures { FewRanksLaw }
{}

/// A changed function's rank is less than that number where each function whose new value is read is changed.
pub fn changed_ranks_law()
    ensures { ChangedRanksLaw }
{}

/// The state after the changes of all ranks is what the changes say of a new state: references read the old state, those
/// with a quote the new one.
pub fn new_state_law()
    ensures { NewStateLaw }
{}

/// Changes that read no new value are all made over the old state alone.
pub fn one_rank_law()
    ensures { OneRankLaw }
{}

/// From a state an invocation has a step, or it meets a conflict.
pub fn outcome_law()
    ensures { OutcomeLaw }
{}

/// An invocation that has a step meets no conflict.
pub fn conflict_law()
    ensures { ConflictLaw }
{}

/// A step's answer and the state after it are determined.
pub fn step_law()
    ensures { StepLaw }
{}

/// A run's answers and its final state are determined.
pub fn run_law()
    ensures { RunLaw }
{}

/// Runs of two lists, one after the other, are a run of both.
pub fn join_law()
    ensures { JoinLaw }
{}

/// A run of two lists is a run of the one and then of the other.
pub fn split_law()
    ensures { SplitLaw }
{}

/// A machine whose single steps are secure is secure.
pub fn list_law()
    ensures { ListLaw }
{}
