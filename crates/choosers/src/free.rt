ghost use Rattle.std.specs.Prelude.{◌↔◌, ◌+◌, ◌≤◌, length, IsTrue};
ghost use Rattle.chooser_core.specs.Choosing.{IsFree};

/// How many values the scan passes in a turn.
const STRIDE: u32 = 8;

/// Whether the variable is one of the list's and has no value.
#[inline(always)]
pub fn is_free(values: &[i8], var: u32) -> bool
    ensures { IsTrue result ↔ IsFree values.now var }
{
    if var == 0 || var as usize > values.len() {
        return false;
    }
    values[var as usize - 1] == 0
}

/// A variable without a value: the first from this one on, or `free` where there is none.
pub fn free_from(values: &[i8], var: u32, free: u32) -> u32
    requires { IsFree values.now free }
    ensures { IsFree values.now result }
{
    let end = values.len().min(u32::MAX as usize) as u32;
    let mut from = var.saturating_sub(1);
    while are_taken(values, from, end) {
        from += STRIDE;
    }
    for place in from..end {
        if values[place as usize] == 0 {
            return place + 1;
        }
    }
    free
}

/// Whether the next eight values, from this place on and before the end, are there and none is 0.
#[inline(always)]
fn are_taken(values: &[i8], from: u32, end: u32) -> bool
    requires { end ≤ length values.now }
    ensures { IsTrue result → from + 8 ≤ end }
{
    if from >= end || end - from < STRIDE {
        return false;
    }
    let eight = &values[from as usize..(from + STRIDE) as usize];
    eight
        .iter()
        .fold(true, |taken, value| taken & (*value != 0))
}
