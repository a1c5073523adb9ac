//! What holds by the rule of the watches alone. The functions do nothing: each one's contract is the law.
ghost use Rattle.watch_lists.specs.Laws.{QuietTrailIsModel, ReadyAfterBacktrack, SettledBelowLevel};

/// Where every entry was propagated and every variable has a value, each assignment that the trail agrees
/// with makes each live clause of two or more literals true, and each one that has a literal on the trail. So
/// it is a model, where the literals of the shorter clauses stand at the root.
pub fn quiet_trail_is_model()
    ensures { QuietTrailIsModel }
{}

/// Going back to a level, whatever was propagated above it, keeps arena, watches and trail ready for
/// propagation.
pub fn backtracking_keeps_the_rule()
    ensures { ReadyAfterBacktrack }
{}

/// Where arena, watches and trail are ready for propagation, as after a conflict, and the entries of the
/// present level are taken away, no live clause of two or more literals is false, and none has one literal
/// without value and all others false.
pub fn nothing_was_left_below_the_present_level()
    ensures { SettledBelowLevel }
{}
