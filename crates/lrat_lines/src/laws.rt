//! What holds of every proof by the definitions alone. The functions do nothing: each one's contract
//! is the law.
ghost use Rattle.lrat_lines.specs.Examples.{ProofsAreWorked, LinesAreWorked};
ghost use Rattle.lrat_lines.specs.Laws.{ProvedIsEntailed, PropagatesBySets, PrintedReadsBack};
ghost use Rattle.lrat_lines.specs.Laws.{HintsAreCarried, FollowsAccepted, ShiftedIsAccepted, TidyProofsByLines};

/// What hints show from entailed sets is entailed, and so is every clause that a proof reaches.
pub fn proved_clause_is_entailed()
    ensures { ProvedIsEntailed }
{}

/// Reverse unit propagation looks at clauses as sets: neither the order nor the number of a clause's literals
/// makes a difference to its outcome, be it the one to be shown or one that is known by a hint.
pub fn propagation_looks_at_sets()
    ensures { PropagatesBySets }
{}

/// Hints show a clause also by other ids and under other names of literals, where each id leads to the same
/// set. Neither more clauses that are known nor where they come from makes a difference.
pub fn hints_lead_to_the_same_sets()
    ensures { HintsAreCarried }
{}

/// A proof stays accepted, and reaches what it reached, behind other lines and over another formula, where its
/// ids get numbers that rise and that its hints follow, and its literals get other names.
pub fn renumbered_proof_is_accepted()
    ensures { FollowsAccepted }
{}

/// A proof stays accepted where further clauses are put behind those of its formula, and the ids of its lines
/// move up by as many.
pub fn shifted_proof_is_accepted()
    ensures { ShiftedIsAccepted }
{}

/// A proof of additions whose ids follow on the formula's and rise by one is accepted exactly where each line is
/// shown by the clauses before it, each of which is known by its place.
pub fn tidy_proof_is_accepted_line_by_line()
    ensures { TidyProofsByLines }
{}

/// A printed line, without its line feed, is read as that line.
pub fn printed_line_reads_back()
    ensures { PrintedReadsBack }
{}

/// The definition of a proof, worked on the formula of the clauses `1 2` and `1 -2`.
pub fn worked_proofs()
    ensures { ProofsAreWorked }
{}

/// The text form, worked on lines and on faults of each kind.
pub fn worked_lines()
    ensures { LinesAreWorked }
{}
