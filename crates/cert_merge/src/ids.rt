ghost use Rattle.std.specs.Prelude.{◌≡◌, ◌+◌, ◌<◌, ◌≤◌, [], ◌∷◌, ◌++◌, length, map, slice_index, All, IfOk, OnOk};
ghost use Rattle.cert_merge.specs.Steps.Taking.{listed_id};

use cnf_core::NoMemory;
use std::alloc::Global;
use std::marker::Model;

/// The ids of a log's entries in the merged proof, in order, in four bytes each.
#[derive(Drop)]
pub struct EntryIds {
    ids: Vec<u32>,
}

impl Model for EntryIds {
    ghost use Rattle.std.specs.Prelude.{ℕ, List};

    ghost Value = { List ℕ };

    ghost view = { λ i. i.ids.items };
}

impl EntryIds {
    /// None, with room for so many.
    pub fn with_capacity(alloc: Global, room: u64) -> Result<EntryIds, NoMemory>
        ensures { IfOk result (λ ids. ids ≡ []) }
    {
        Ok(EntryIds {
            ids: Vec::with_capacity(alloc, room as usize)?,
        })
    }

    /// How many there are.
    pub fn len(&self) -> u64
        ensures { result ≡ length self.now }
    {
        self.ids.len() as u64
    }

    /// The id of an entry, by its place.
    pub fn get(&self, entry: u64) -> u64
        requires { entry < length self.now }
        ensures { result ≡ slice_index self.now entry }
    {
        u64::from(self.ids[entry as usize])
    }

    /// The ids, in order.
    pub fn as_slice(&self) -> &[u32]
        ensures { result.now ≡ self.now }
    {
        &self.ids
    }

    /// One id more.
    pub fn push(&mut self, id: u64) -> Result<(), NoMemory>
        ensures { OnOk result (self.new ≡ self.old ++ id ∷ []) }
    {
        self.ids.push(narrow(id)?)?;
        Ok(())
    }
}

/// The number in 32 bits. There is no place for larger ones.
pub fn narrow(number: u64) -> Result<u32, NoMemory>
    ensures { IfOk result (λ n. n ≡ number) }
{
    u32::try_from(number).map_err(|_| NoMemory)
}

/// Puts the merged ids in the place of a log's own, where the formula has so many clauses.
pub fn renumber(hints: &mut [u64], inputs: u64, ids: &[u32])
    requires { All (λ h. h < inputs + 1 + length ids.now) hints.old }
    ensures { hints.new ≡ map (listed_id inputs ids.now) hints.old }
{
    for hint in hints.iter_mut() {
        *hint = listed(*hint, inputs, ids);
    }
}

/// The new id of one that was a log's own.
#[inline(always)]
pub fn listed(id: u64, inputs: u64, ids: &[u32]) -> u64
    requires { id < inputs + 1 + length ids.now }
    ensures { result ≡ listed_id inputs ids.now id }
{
    if id <= inputs {
        id
    } else {
        u64::from(ids[(id - inputs - 1) as usize])
    }
}
