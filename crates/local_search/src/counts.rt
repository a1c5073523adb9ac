ghost use Rattle.std.specs.Prelude.{◌≡◌, ◌≢◌, ◌+◌, ◌<◌, ◌≤◌, ◌^◌, ℕ, IfOk, length, slice_index};
ghost use Rattle.local_search.specs.Tallies.{tally_at, with_tally, untouched, ListsBroken, breaks_of};
ghost use Rattle.local_search.specs.Steps.Counted.{AddsBreak, IsAdded};

use crate::spots::{rising, settle_again};
use cnf_core::NoMemory;
use std::alloc::Global;
use std::marker::Model;

/// What is known of the true literals of a clause.
#[derive(Clone, Copy, Debug, PartialEq, Eq)]
pub(crate) struct Tally {
    /// How many there are.
    pub(crate) count: u32,
    /// The sum of their variables, which is the variable where there is just one.
    pub(crate) sum: u64,
}

/// A tally for each clause, the places of the broken ones, which have no true literal, and for each variable how many
/// clauses rest on it alone.
///
/// The broken places stand at the front of a table of all places (Briggs and Torczon 1993), so that one joins or
/// leaves them in constant time.
#[derive(Debug, Drop)]
pub(crate) struct Counts {
    tallies: Vec<Tally>,
    /// All places, the broken ones first.
    order: Vec<u32>,
    /// Where each place stands in `order`.
    spots: Vec<u32>,
    /// How many are broken.
    broken: u32,
    /// How many clauses rest on each variable, with an entry for the variable 0.
    breaks: Vec<u32>,
}

impl Model for Counts {
    ghost use Rattle.local_search.specs.Tallies.{Tallied};
    ghost use Rattle.local_search.specs.Steps.Counted.{IsCounts, tallied};

    ghost Value = { Tallied };

    ghost view = { λ c. tallied c.tallies.items c.breaks.items };

    ghost invariant = { λ c. IsCounts c.tallies.items c.order.items c.spots.items c.broken c.breaks.items };
}

impl Counts {
    /// Tallies for so many clauses over so many variables, as of clauses with two true literals.
    pub(crate) fn new(alloc: Global, clauses: u32, vars: u32) -> Result<Counts, NoMemory>
        requires clauses { clauses ≤ 2 ^ 21 }
        requires vars { vars ≤ 2 ^ 20 }
        ensures { IfOk result (λ c. c ≡ untouched clauses vars) }
    {
        let start = Tally { count: 2, sum: 0 };
        Ok(Counts {
            tallies: vec![in alloc; start; clauses as usize]?,
            order: rising(alloc, clauses)?,
            spots: rising(alloc, clauses)?,
            broken: 0,
            breaks: vec![in alloc; 0u32; vars as usize + 1]?,
        })
    }

    /// The tally of the clause at a place.
    #[inline(always)]
    pub(crate) fn tally(&self, place: u32) -> Tally
        requires { place < length self.now.tallies }
        ensures { result ≡ tally_at self.now.tallies place }
    {
        self.tallies[place as usize]
    }

    /// Sets the tally of the clause at a place.
    #[inline(always)]
    pub(crate) fn set(&mut self, place: u32, tally: Tally)
        requires { place < length self.old.tallies }
        ensures { self.new ≡ with_tally self.old place tally }
    {
        let old = self.tallies[place as usize];
        lose(&mut self.breaks, old);
        gain(&mut self.breaks, tally);
        let (was, broken) = (old.count == 0, tally.count == 0);
        self.broken = settle_again(
            &mut self.order,
            &mut self.spots,
            self.broken,
            place,
            was,
            broken,
        );
        self.tallies[place as usize] = tally;
    }

    /// The places of the clauses without a true literal.
    pub(crate) fn broken(&self) -> &[u32]
        ensures { ListsBroken self.now.tallies result.now }
    {
        &self.order[..self.broken as usize]
    }

    /// How many clauses have no true literal.
    #[inline(always)]
    pub(crate) fn count(&self) -> u32
        ensures { result ≡ 0 → (p : ℕ) → p < length self.now.tallies → (tally_at self.now.tallies p).count ≢ 0 }
    {
        self.broken
    }

    /// How many clauses rest on a variable alone.
    #[inline(always)]
    pub(crate) fn breaks(&self, var: u32) -> u32
        requires { var ≤ self.now.vars }
        ensures { result ≡ breaks_of self.now.tallies var }
    {
        self.breaks[var as usize]
    }
}

/// Takes a clause that rests on one variable from that variable's number.
fn lose(breaks: &mut Vec<u32>, tally: Tally)
    requires { IsAdded tally breaks.old.items }
    ensures { AddsBreak tally breaks.new.items breaks.old.items }
{
    if tally.count == 1 && tally.sum < breaks.len() as u64 {
        breaks[tally.sum as usize] -= 1;
    }
}

/// Adds a clause that rests on one variable to that variable's number.
fn gain(breaks: &mut Vec<u32>, tally: Tally)
    requires { (v : ℕ) → slice_index breaks.old.items v < 2 ^ 31 }
    ensures { AddsBreak tally breaks.old.items breaks.new.items }
{
    if tally.count == 1 && tally.sum < breaks.len() as u64 {
        breaks[tally.sum as usize] += 1;
    }
}
