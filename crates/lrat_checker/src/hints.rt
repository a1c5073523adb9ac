ghost use Rattle.std.specs.Prelude.{◌≡◌, ℕ, Some, All, IfOk};
ghost use Rattle.cnf_core.specs.Literals.{Literals, negated};
ghost use Rattle.lrat_lines.specs.Sets.{has_complements};
ghost use Rattle.lrat_lines.specs.Propagation.{by_hints, rup};
ghost use Rattle.lrat_checker.specs.Steps.Assigned.{HasPlace};
ghost use Rattle.lrat_checker.specs.Checking.{known_of};
ghost use Rattle.lrat_checker.specs.Steps.Taking.{Shows, ArePlaced};
ghost use Rattle.lrat_checker.specs.Steps.Assumed.{Assumes};

use crate::Refused;
use crate::assignment::{Assignment, Open};
use crate::known::Known;
use cnf_core::{Lit, NoMemory};

/// Whether the hints show the clause, by the clauses that are known.
pub fn check_hints(
    known: &Known,
    assignment: &mut Assignment,
    lits: &[Lit],
    hints: &[u64],
) -> Result<(), Refused>
    requires known { ArePlaced assignment.old.codes known.now }
    requires lits { All (HasPlace assignment.old.codes) lits.now }
    ensures shows { Shows result (rup (known_of known.now) hints.now lits.now) }
    ensures codes { assignment.new.codes ≡ assignment.old.codes }
{
    if assume_false(assignment, lits)? {
        return Ok(());
    }
    follow(known, assignment, hints)
}

/// Takes the negations of a clause's literals to be true. The answer is whether the clause has a
/// literal and its negation; then it is the only one that says something.
fn assume_false(assignment: &mut Assignment, lits: &[Lit]) -> Result<bool, NoMemory>
    requires { All (HasPlace assignment.old.codes) lits.now }
    ensures assumes { IfOk result (Assumes lits.now assignment.new.trues) }
    ensures codes { assignment.new.codes ≡ assignment.old.codes }
{
    assignment.clear();
    for lit in lits {
        if assignment.is_false(lit.negated()) {
            return Ok(true);
        }
        assignment.make_true(lit.negated())?;
    }
    Ok(false)
}

/// Whether the hints show the clause, from the literals that are true.
fn follow(known: &Known, assignment: &mut Assignment, hints: &[u64]) -> Result<(), Refused>
    requires { ArePlaced assignment.old.codes known.now }
    ensures shows { Shows result (by_hints (known_of known.now) hints.now assignment.old.trues) }
    ensures codes { assignment.new.codes ≡ assignment.old.codes }
{
    for hint in hints {
        let Some(clause) = known.get(*hint) else {
            return Err(Refused::UnknownHint(*hint));
        };
        match assignment.open_literals(clause.as_slice()) {
            Open::Never => return Ok(()),
            Open::Single(lit) => assignment.make_true(lit)?,
            Open::Several => return Err(Refused::NotUnit(*hint)),
        }
    }
    Err(Refused::NoConflict)
}
