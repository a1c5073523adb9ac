ghost use Rattle.std.specs.Prelude.{◌≡◌, ◌<◌, ◌≤◌, ◌^◌, IfOk};
ghost use Rattle.board_core.specs.Subjects.{groups, candidate};
ghost use Rattle.board_core.specs.Words.{opening_word};
ghost use Rattle.board_core.specs.Boards.{opening_words};

use cnf_core::{Formula, NoMemory};
use std::alloc::Global;

/// 1 where the variable is a candidate, else 0.
#[tactic(auto, using(crate::proofs::Ends::byte_flag), unfolding(crate::specs::Subjects::candidate))]
fn candidate_bit(formula: &Formula, var: u32) -> u64
    ensures { result ≡ candidate formula.now var }
{
    u64::from(formula.is_shown(var))
}

/// The word of a group where all candidates are alive and none is fixed.
fn opening_word(formula: &Formula, group: u32) -> u64
    requires { group < 2 ^ 20 }
    ensures { result ≡ opening_word formula.now group }
{
    let last = 32 * group + 32;
    let mut word = 0;
    for done in 0..32 {
        word = 2 * word + candidate_bit(formula, last - done);
    }
    word
}

/// The words of all groups where all candidates, which are the shown variables, are alive and none is fixed.
pub fn opening_words(alloc: Global, formula: &Formula) -> Result<Vec<u64>, NoMemory>
    ensures { IfOk result (λ words. words.items ≡ opening_words formula.now) }
{
    let count = formula.vars().div_ceil(32);
    let mut words = Vec::with_capacity(alloc, count as usize)?;
    for group in 0..count {
        words.push(opening_word(formula, group))?;
    }
    Ok(words)
}
