ghost use Rattle.std.specs.Prelude.{◌≡◌, ◌+◌, ◌*◌, ◌<◌, ◌≤◌, IfOk, length};
ghost use Rattle.cnf_core.specs.Literals.{code_of, IsWithin};
ghost use Rattle.cnf_core.specs.Formulas.{literal_count};
ghost use Rattle.local_search.specs.Cleaned.{clause_at, IsTabled};
ghost use Rattle.local_search.specs.Steps.Listed.{ListsPlaces};

use crate::flat::FlatClauses;
use crate::listing::{counted, fill, sum_up};
use cnf_core::{Formula, Lit, NoMemory};
use std::alloc::Global;
use std::marker::Model;

/// A formula as searches go over it: its clauses without the always true ones, each literal once, and for each literal
/// the clauses that have it. It is made once, in linear time, and shared by any number of searches.
#[derive(Debug, Drop)]
pub struct Tables<'f> {
    formula: &'f Formula,
    clauses: FlatClauses,
    /// Where the list of each literal begins, by its packed form, which ends where the next one begins.
    starts: Vec<u32>,
    /// The lists, one behind the other.
    places: Vec<u32>,
    /// How many literals the clauses have together.
    literals: u32,
}

impl<'f> Model for Tables<'f> {
    ghost use Rattle.local_search.specs.Cleaned.{Tabled};
    ghost use Rattle.local_search.specs.Steps.Listed.{HoldsTables};

    ghost Value = { Tabled };

    ghost view = { λ t. record { formula = t.formula.now; clauses = t.clauses } };

    ghost invariant = { λ t. HoldsTables t.formula.now t.clauses t.starts.items t.places.items t.literals };
}

impl<'f> Tables<'f> {
    /// The tables of a formula.
    pub fn new(alloc: Global, formula: &'f Formula) -> Result<Tables<'f>, NoMemory>
        ensures formula { IfOk result (λ t. t.formula ≡ formula.now) }
        ensures tabled { IfOk result IsTabled }
    {
        let clauses = FlatClauses::new(alloc, formula)?;
        let mut starts = counted(alloc, &clauses, 2 * formula.vars() as usize + 3)?;
        let literals = sum_up(&mut starts);
        let mut places = vec![in alloc; 0u32; literals as usize]?;
        fill(&clauses, &mut starts, &mut places);
        Ok(Tables {
            formula,
            clauses,
            starts,
            places,
            literals,
        })
    }

    /// How many variables there are.
    pub fn vars(&self) -> u32
        ensures value { result ≡ self.now.formula.vars }
        ensures tabled { IsTabled self.now }
    {
        self.formula.vars()
    }

    /// How many clauses there are.
    pub fn len(&self) -> usize
        ensures value { result ≡ length self.now.clauses }
        ensures tabled { IsTabled self.now }
    {
        self.clauses.len()
    }

    /// How many literals the clauses have together.
    pub fn literals(&self) -> u32
        ensures { result ≡ literal_count self.now.clauses }
    {
        self.literals
    }

    /// The literals of the clause at a place.
    #[inline(always)]
    pub(crate) fn clause(&self, place: u32) -> &[Lit]
        requires { place < length self.now.clauses }
        ensures value { result.now ≡ clause_at self.now.clauses place }
        ensures tabled { IsTabled self.now }
    {
        self.clauses.get(place)
    }

    /// The places of the clauses that have a literal.
    #[inline(always)]
    pub(crate) fn places(&self, lit: Lit) -> &[u32]
        requires { IsWithin self.now.formula.vars lit }
        ensures places { ListsPlaces self.now.clauses (code_of lit) result.now }
        ensures tabled { IsTabled self.now }
    {
        let code = lit.code() as usize;
        let start = self.starts[code] as usize;
        let end = self.starts[code + 1] as usize;
        &self.places[start..end]
    }

    /// How many clauses have a variable.
    #[inline(always)]
    pub(crate) fn listed(&self, var: u32) -> u64
        requires { (0 < var) × (var ≤ self.now.formula.vars) }
    {
        let code = 2 * var as usize;
        u64::from(self.starts[code + 2]).saturating_sub(u64::from(self.starts[code]))
    }
}
