//! What holds of every check by the definitions alone. The functions do nothing: each one's contract is the
//! law.
ghost use Rattle.bone_check.specs.Laws.{PrintedIsRight, VerifiedIsRight, CompleteIsVerified, RefutationIsVerified};

/// Literals that pass the tests of an accepted proof and of a witness are the shown members of the backbone,
/// and the first model of the witness is one of the formula.
pub fn printed_literals_are_right()
    ensures { PrintedIsRight }
{}

/// A verified answer is the formula's, whatever the proof and the witness hold: that it has no model, or the shown
/// members of its backbone.
pub fn verified_answer_is_right()
    ensures { VerifiedIsRight }
{}

/// What is written of the shown members of a backbone, of a proof that reaches each of them, and of models against all
/// other shown variables is verified.
pub fn complete_evidence_is_verified()
    ensures { CompleteIsVerified }
{}

/// What is written of a formula without a model, and of a proof that reaches the empty clause, is verified.
pub fn refutation_is_verified()
    ensures { RefutationIsVerified }
{}
