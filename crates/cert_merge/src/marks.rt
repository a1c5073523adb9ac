ghost use Rattle.std.specs.Prelude.{◌≡◌, ◌+◌, ◌<◌, ◌^◌, length, All, IfOk};
ghost use Rattle.cert_merge.specs.Steps.Marking.{AreHintsMarked, AreNewIds};

use crate::ids::narrow;
use cnf_core::NoMemory;
use std::alloc::Global;

/// Marks the lines that hints name, where the formula has so many clauses.
pub fn mark_hints(marks: &mut [bool], inputs: u64, hints: &[u64])
    requires { All (λ h. h < inputs + 1 + length marks.old) hints.now }
    ensures { AreHintsMarked inputs hints.now marks.old marks.new }
{
    for hint in hints {
        if *hint > inputs {
            marks[(*hint - inputs - 1) as usize] = true;
        }
    }
}

/// The ids that lines get where only the marked ones stay, in four bytes each.
pub fn new_ids(alloc: Global, inputs: u64, marks: &[bool]) -> Result<Vec<u32>, NoMemory>
    requires { inputs < 2 ^ 32 }
    ensures { IfOk result (λ ids. AreNewIds inputs marks.now ids.items) }
{
    let mut ids = Vec::with_capacity(alloc, marks.len())?;
    let mut next = inputs + 1;
    for mark in marks {
        ids.push(narrow(next)?)?;
        next += u64::from(*mark);
    }
    Ok(ids)
}
