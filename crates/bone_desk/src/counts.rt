//! The counts of failures, one for each act, and of written bytes, one for each port.
ghost use Rattle.std.specs.Prelude.{◌≡◌, ◌<◌, ◌+◌, ◌-◌, ◌^◌, min, slice_index, slice_set, Some, IfOk, OnOk, OnErr};
ghost use Rattle.bone_desk.specs.Told.{act_index, feed_index, port_index, counts_after_fault, Rose, CountsOnly};
ghost use Rattle.bone_desk.specs.Real.{counts_told};

use crate::{Act, Failed, Feed, Port};

/// How many acts there are.
pub(crate) const ACTS: usize = 16;

/// The place of a feed in an array of four.
pub(crate) fn feed_place(feed: Feed) -> usize
    ensures place { result ≡ feed_index feed }
    ensures within { result < 4 }
{
    match feed {
        Feed::Text => 0,
        Feed::Answer => 1,
        Feed::Proof => 2,
        Feed::Witness => 3,
    }
}

fn port_place(port: Port) -> usize
    ensures place { result ≡ port_index port }
    ensures within { result < 4 }
{
    match port {
        Port::Answer => 0,
        Port::Proof => 1,
        Port::Witness => 2,
        Port::Notes => 3,
    }
}

fn act_place(act: Act) -> usize
    ensures place { result ≡ act_index act }
    ensures within { result < 16 }
{
    match act {
        Act::OpenFeed(feed) => feed_place(feed),
        Act::OpenPort(port) => 4 + port_place(port),
        Act::Read(feed) => 8 + feed_place(feed),
        Act::Write(port) => 12 + port_place(port),
    }
}

/// Counts a failure of an act, and leaves the other counts as they are.
pub(crate) fn count_fault(faults: &mut [u64; ACTS], act: Act)
    ensures counted { faults.new ≡ counts_after_fault faults.old act }
    ensures only { CountsOnly act (counts_told faults.old) (counts_told faults.new) }
    ensures cause { Rose act (counts_told faults.old) (counts_told faults.new) }
{
    let place = act_place(act);
    faults[place] = faults[place].saturating_add(1);
}

/// What a step answered. Where it failed, the failure of its act is counted.
pub(crate) fn counted<T: Drop>(
    faults: &mut [u64; ACTS],
    act: Act,
    outcome: Option<T>,
) -> Result<T, Failed>
    ensures value { IfOk result (λ x. outcome ≡ Some x) }
    ensures ok { OnOk result (faults.new ≡ faults.old) }
    ensures err { OnErr result (faults.new ≡ counts_after_fault faults.old act) }
    ensures only { CountsOnly act (counts_told faults.old) (counts_told faults.new) }
    ensures cause { OnErr result (Rose act (counts_told faults.old) (counts_told faults.new)) }
{
    if outcome.is_none() {
        count_fault(faults, act);
    }
    outcome.ok_or(Failed)
}

/// Counts bytes that were written to a port, and leaves the other counts as they are.
pub(crate) fn count_written(wrote: &mut [u64; 4], port: Port, moved: usize)
    ensures { wrote.new ≡ slice_set wrote.old (port_index port)
        (min (slice_index wrote.old (port_index port) + moved) (2 ^ 64 - 1)) }
{
    let place = port_place(port);
    wrote[place] = wrote[place].saturating_add(moved as u64);
}
