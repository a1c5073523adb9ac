ghost use Rattle.std.specs.Prelude.{◌≡◌, ◌+◌, ◌<◌, ◌≤◌, length, All, IfOk, slice_index, slice_index_or};
ghost use Rattle.lrat_log.specs.Kept.{IsLog};
ghost use Rattle.cert_merge.specs.Steps.Numbered.{AreStarts};

use crate::ids::narrow;
use cnf_core::NoMemory;
use lrat_log::Log;
use std::alloc::Global;

/// The place of an entry: its log among the logs, and its place in the log, both from 0.
#[derive(Clone, Copy, Debug, PartialEq, Eq)]
pub struct Place {
    pub log: usize,
    pub entry: u64,
}

/// How many entries stand before each log where the logs follow one another, and how many there are in all. There is no
/// place for 2^32 entries or more.
pub fn starts_of(alloc: Global, logs: &[Log]) -> Result<Vec<u32>, NoMemory>
    ensures starts { IfOk result (λ starts. AreStarts logs.now starts.items) }
    ensures logs { IfOk result (λ starts. All IsLog logs.now) }
{
    let mut starts = vec![in alloc; 0u32]?;
    let mut next = 0u32;
    for log in logs {
        next = next.checked_add(narrow(log.len())?).ok_or(NoMemory)?;
        starts.push(next)?;
    }
    Ok(starts)
}

/// The log among whose entries the number is, by what stands before each log.
pub fn log_of(starts: &[u32], number: u32) -> usize
    requires some { 0 < length starts.now }
    requires first { slice_index starts.now 0 ≡ 0 }
    ensures within { result < length starts.now }
    ensures from { slice_index starts.now result ≤ number }
    ensures to { result + 1 < length starts.now → number < slice_index starts.now (result + 1) }
{
    let mut log = 0usize;
    let mut end = starts.len();
    while end - log > 1 {
        let middle = log + (end - log) / 2;
        if starts[middle] <= number {
            log = middle;
        } else {
            end = middle;
        }
    }
    log
}
