ghost use Rattle.std.specs.Prelude.{◌≡◌, ◌<◌, ◌≤◌, ◌^◌, ℕ, All, IfOk, IfSome, length, slice_index};
ghost use Rattle.local_search.specs.Steps.Spots.{IsArranged, IsSwapped, IsSettled, Settles, Enters, Leaves};

use cnf_core::NoMemory;
use std::alloc::Global;
use std::marker::Model;

/// Numbers below a bound, in no order: a table of all of them, the members first, and where each stands (Briggs and
/// Torczon 1993). So one joins or leaves in constant time.
#[derive(Debug, Drop)]
pub(crate) struct NumberSet {
    order: Vec<u32>,
    spots: Vec<u32>,
    count: u32,
}

impl Model for NumberSet {
    ghost use Rattle.std.specs.Prelude.{ℕ, length};
    ghost use Rattle.local_search.specs.Steps.Spots.{IsSet};

    ghost Value = { ℕ };

    ghost view = { λ s. length s.order.items };

    ghost invariant = { λ s. IsSet s.order.items s.spots.items s.count };
}

impl NumberSet {
    /// No numbers, of those below a bound.
    pub(crate) fn new(alloc: Global, bound: u32) -> Result<NumberSet, NoMemory>
        requires { bound ≤ 2 ^ 21 }
        ensures { IfOk result (λ s. s ≡ bound) }
    {
        Ok(NumberSet {
            order: rising(alloc, bound)?,
            spots: rising(alloc, bound)?,
            count: 0,
        })
    }

    /// Takes all members out.
    pub(crate) fn clear(&mut self)
        ensures { self.new ≡ self.old }
    {
        self.count = 0;
    }

    /// Has a number as a member or not.
    pub(crate) fn put(&mut self, number: u32, member: bool)
        requires { number < self.old }
        ensures { self.new ≡ self.old }
    {
        self.count = settle(&mut self.order, &mut self.spots, self.count, number, member);
    }

    /// The members.
    pub(crate) fn members(&self) -> &[u32]
        ensures { All (λ number. number < self.now) result.now }
    {
        &self.order[..self.count as usize]
    }

    /// A member by its place, if there are so many.
    pub(crate) fn get(&self, place: usize) -> Option<u32>
        ensures { IfSome result (λ number. number < self.now) }
    {
        self.members().get(place).copied()
    }
}

/// The numbers below a count.
pub(crate) fn rising(alloc: Global, count: u32) -> Result<Vec<u32>, NoMemory>
    ensures each { IfOk result (λ v. length v.items ≡ count) }
    ensures rising { IfOk result (λ v. (k : ℕ) → k < count → slice_index v.items k ≡ k) }
{
    let mut numbers = vec![in alloc; 0u32; count as usize]?;
    for i in 0..count {
        numbers[i as usize] = i;
    }
    Ok(numbers)
}

/// Puts a place to a spot, and what stood there to the place's own.
fn swap(order: &mut Vec<u32>, spots: &mut Vec<u32>, place: u32, spot: u32)
    requires arranged { IsArranged (length order.old.items) order.old.items spots.old.items }
    requires place { place < length order.old.items }
    requires spot { spot < length order.old.items }
    ensures arranged { IsArranged (length order.old.items) order.new.items spots.new.items }
    ensures swapped { IsSwapped place spot order.old.items spots.old.items spots.new.items }
{
    let at = spots[place as usize];
    let other = order[spot as usize];
    order[at as usize] = other;
    spots[other as usize] = at;
    order[spot as usize] = place;
    spots[place as usize] = spot;
}

/// Has the place among the first ones just where it is broken, and answers how many these are then.
pub(crate) fn settle(
    order: &mut Vec<u32>,
    spots: &mut Vec<u32>,
    count: u32,
    place: u32,
    broken: bool,
) -> u32
    requires arranged { IsArranged (length order.old.items) order.old.items spots.old.items }
    requires limit { length order.old.items ≤ 2 ^ 21 }
    requires place { place < length order.old.items }
    requires count { count ≤ length order.old.items }
    ensures arranged { IsArranged (length order.old.items) order.new.items spots.new.items }
    ensures count { result ≤ length order.old.items }
    ensures settled { Settles (length order.old.items) place broken count spots.old.items result spots.new.items }
{
    if broken {
        enter(order, spots, count, place)
    } else {
        leave(order, spots, count, place)
    }
}

/// The same where it is known whether the place is among the first ones, and reads nothing where it stays so.
#[inline(always)]
pub(crate) fn settle_again(
    order: &mut Vec<u32>,
    spots: &mut Vec<u32>,
    count: u32,
    place: u32,
    was: bool,
    broken: bool,
) -> u32
    requires arranged { IsArranged (length order.old.items) order.old.items spots.old.items }
    requires limit { length order.old.items ≤ 2 ^ 21 }
    requires place { place < length order.old.items }
    requires count { count ≤ length order.old.items }
    requires was { IsSettled place was count spots.old.items }
    ensures arranged { IsArranged (length order.old.items) order.new.items spots.new.items }
    ensures count { result ≤ length order.old.items }
    ensures settled { Settles (length order.old.items) place broken count spots.old.items result spots.new.items }
{
    if was == broken {
        return count;
    }
    settle(order, spots, count, place, broken)
}

/// Has the place among the first ones, and answers how many these are then.
fn enter(order: &mut Vec<u32>, spots: &mut Vec<u32>, count: u32, place: u32) -> u32
    requires arranged { IsArranged (length order.old.items) order.old.items spots.old.items }
    requires limit { length order.old.items ≤ 2 ^ 21 }
    requires place { place < length order.old.items }
    requires count { count ≤ length order.old.items }
    ensures arranged { IsArranged (length order.old.items) order.new.items spots.new.items }
    ensures count { result ≤ length order.old.items }
    ensures entered { Enters (length order.old.items) place count spots.old.items result spots.new.items }
{
    if spots[place as usize] < count {
        return count;
    }
    swap(order, spots, place, count);
    count + 1
}

/// Has the place behind the first ones, and answers how many these are then.
fn leave(order: &mut Vec<u32>, spots: &mut Vec<u32>, count: u32, place: u32) -> u32
    requires arranged { IsArranged (length order.old.items) order.old.items spots.old.items }
    requires place { place < length order.old.items }
    requires count { count ≤ length order.old.items }
    ensures arranged { IsArranged (length order.old.items) order.new.items spots.new.items }
    ensures count { result ≤ length order.old.items }
    ensures left { Leaves (length order.old.items) place count spots.old.items result spots.new.items }
{
    if count <= spots[place as usize] {
        return count;
    }
    swap(order, spots, place, count - 1);
    count - 1
}
