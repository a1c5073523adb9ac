//! What holds of every log by the definitions alone. The functions do nothing: each one's contract is the
//! law.
ghost use Rattle.lrat_log.specs.Examples.{EpochsAreWorked, BytesAreWorked, LogIsWorked};
ghost use Rattle.lrat_log.specs.Laws.{LoggedIsEntailed, FreshClausesAreFew, LearningQueriesAreFew, NoLogIsFull};

/// Each clause of a log holds in every model of its formula.
pub fn logged_clause_is_entailed()
    ensures { LoggedIsEntailed }
{}

/// A list of clauses over n variables, none empty, none with a literal and its negation, none a part of a
/// later one, has fewer than 3^n members.
pub fn fresh_clauses_are_few()
    ensures { FreshClausesAreFew }
{}

/// The learnt clauses of a log stand in no more queries than its query number and one: queries are counted
/// from 0.
pub fn learning_queries_are_few()
    ensures { LearningQueriesAreFew }
{}

/// With a budget of at least 8 (n + 1) 3^n learnt clauses for n variables no log is full.
pub fn no_log_is_full()
    ensures { NoLogIsFull }
{}

/// The first epochs of a query, worked: the second begins with an empty list of clauses to compare with.
pub fn worked_epochs()
    ensures { EpochsAreWorked }
{}

/// The definitions of a log, worked on the formula of the clauses `1 2`, `1 -2`, `-1 3` and `-1 -3`.
pub fn worked_log()
    ensures { LogIsWorked }
{}

/// The bytes of two entries, and of larger numbers, worked.
pub fn worked_bytes()
    ensures { BytesAreWorked }
{}
