ghost use Rattle.std.specs.Prelude.{◌+◌, ◌<◌, All, IfOk, OnOk, length};
ghost use Rattle.cnf_core.specs.Literals.{negated, code_of};
ghost use Rattle.local_search.specs.Steps.Kept.{AreStamps, Fits, IsCleanOf, IsKeptToo};

use cnf_core::{Lit, NoMemory};

/// Puts the different literals of a clause into `kept`, in their order, and answers whether the clause can be false:
/// where it has a literal and its negation, what was kept says nothing.
///
/// `seen` has a stamp for each literal's packed form: the round in which it was last kept.
pub(crate) fn clean(
    clause: &[Lit],
    round: u32,
    seen: &mut Vec<u32>,
    kept: &mut Vec<Lit>,
) -> Result<bool, NoMemory>
    requires fits { All (Fits (length seen.old.items)) clause.now }
    requires fresh { AreStamps round (length seen.old.items) seen.old.items }
    requires round { 0 < round }
    ensures stamps { OnOk result (AreStamps (round + 1) (length seen.old.items) seen.new.items) }
    ensures clean { IfOk result (IsCleanOf clause.now kept.new.items) }
{
    kept.clear();
    for lit in clause {
        if seen[lit.negated().code() as usize] == round {
            return Ok(false);
        }
        keep(*lit, round, seen, kept)?;
    }
    Ok(true)
}

/// Keeps the literal, if it wasn't kept in this round.
fn keep(lit: Lit, round: u32, seen: &mut Vec<u32>, kept: &mut Vec<Lit>) -> Result<(), NoMemory>
    requires { code_of lit < length seen.old.items }
    ensures { OnOk result (IsKeptToo lit round seen.old.items kept.old.items seen.new.items kept.new.items) }
{
    let code = lit.code() as usize;
    if seen[code] == round {
        return Ok(());
    }
    seen[code] = round;
    kept.push(lit)?;
    Ok(())
}
