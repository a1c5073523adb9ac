ghost use Rattle.std.specs.Prelude.{◌≡◌, ℕ, ◌+◌, ◌<◌, ◌≤◌, ◌*◌, List, [], ◌∷◌, ◌++◌, length, map, not, All, IfOk, OnOk, slice_index, slice_index_or, IsTrue, Some, MatchOption};
ghost use Rattle.cnf_core.specs.Literals.{code_of};
ghost use Rattle.lrat_log.specs.Entries.{Recorded};
ghost use Rattle.lrat_log.specs.Kept.{IsLog};
ghost use Rattle.lrat_log.specs.declared.kind.Kind.TheVariants.{Unit as UnitKind};
ghost use Rattle.cert_merge.specs.Merging.{entry_in, IsPlace, IsImport, GivesLine, IsMergedOrder, AreIds, merged_id, line_of, AreImportsShown, AreOf};
ghost use Rattle.cert_merge.specs.Steps.Numbered.{places_of, AreStarts};
ghost use Rattle.cert_merge.specs.Steps.Taking.{ids_at, id_in, with_id, IsLeft, IsTaking, IsNext, IsFront, IsLeastClock, IsAllTaken, AreAllTaken, IsPushed, noted, lesser_of};

use crate::ids::{EntryIds, renumber};
use crate::place::{Place, log_of, starts_of};
use cnf_core::{Clause, Formula, Lit, NoMemory};
use lrat_lines::{Ids, Line, Proof};
use lrat_log::{Kind, Log};
use std::alloc::Global;

/// The merged order of several logs, and the ids of their entries in it.
#[derive(Drop)]
pub struct MergedOrder {
    /// How many entries stand before each log.
    pub starts: Vec<u32>,
    /// The entries that give lines, in order, by their numbers among those of all logs.
    pub numbers: Vec<u32>,
    /// The ids of each log's entries.
    pub ids: Vec<EntryIds>,
}

/// What is taken of the logs so far.
#[derive(Drop)]
struct Merger {
    /// The entries that give lines so far, in order, by their numbers among those of all logs.
    numbers: Vec<u32>,
    ids: Vec<EntryIds>,
    /// For each literal, by its packed form, the id of its first unit, or 0.
    units: Vec<u64>,
}

impl MergedOrder {
    /// The merged order of logs of this formula.
    pub fn of(alloc: Global, formula: &Formula, logs: &[Log]) -> Result<MergedOrder, NoMemory>
        requires formulas { AreOf formula.now logs.now }
        requires imports { AreImportsShown logs.now }
        ensures order { IfOk result (λ m. IsMergedOrder logs.now (places_of logs.now m.numbers.items)) }
        ensures ids { IfOk result (λ m. AreIds formula.now logs.now (places_of logs.now m.numbers.items) (id_in m.ids.items)) }
        ensures lists { IfOk result (λ m. AreAllTaken logs.now m.ids.items) }
        ensures starts { IfOk result (λ m. AreStarts logs.now m.starts.items) }
        ensures logs { OnOk result (All IsLog logs.now) }
    {
        let starts = starts_of(alloc, logs)?;
        let mut merger = Merger::new(alloc, formula, logs)?;
        let mut next = next_clock(&merger.ids, logs);
        while let Some(clock) = next {
            merger.take_clock(formula, logs, &starts, clock)?;
            next = next_clock(&merger.ids, logs);
        }
        Ok(MergedOrder {
            starts,
            numbers: merger.numbers,
            ids: merger.ids,
        })
    }

    /// The place at an index of the order.
    pub fn place_at(&self, k: usize) -> Place
        requires within { k < length self.now.numbers.items }
        requires some { 0 < length self.now.starts.items }
        requires first { slice_index self.now.starts.items 0 ≡ 0 }
        ensures { (logs : List Recorded) → AreStarts logs self.now.starts.items
            → result ≡ slice_index_or (places_of logs self.now.numbers.items) k result }
    {
        let number = self.numbers[k];
        let log = log_of(&self.starts, number);
        Place {
            log,
            entry: u64::from(number - self.starts[log]),
        }
    }

    /// The lines of all entries that give one.
    pub fn proof(&self, alloc: Global, formula: &Formula, logs: &[Log]) -> Result<Proof, NoMemory>
        requires starts { AreStarts logs.now self.now.starts.items }
        requires places { All (IsPlace logs.now) (places_of logs.now self.now.numbers.items) }
        requires formulas { AreOf formula.now logs.now }
        requires logs { All IsLog logs.now }
        requires lists { AreAllTaken logs.now self.now.ids.items }
        ensures { IfOk result (λ proof. proof
            ≡ map (line_of formula.now logs.now (id_in self.now.ids.items)) (places_of logs.now self.now.numbers.items)) }
    {
        let mut lines = Vec::with_capacity(alloc, self.numbers.len())?;
        for k in 0..self.numbers.len() {
            lines.push(self.line(alloc, formula, logs, self.place_at(k))?)?;
        }
        Ok(Proof { lines })
    }

    /// The line of an entry.
    pub fn line(
        &self,
        alloc: Global,
        formula: &Formula,
        logs: &[Log],
        place: Place,
    ) -> Result<Line, NoMemory>
        requires place { IsPlace logs.now place }
        requires formulas { AreOf formula.now logs.now }
        requires logs { All IsLog logs.now }
        requires lists { AreAllTaken logs.now self.now.ids.items }
        ensures { IfOk result (λ line. line ≡ line_of formula.now logs.now (id_in self.now.ids.items) place) }
    {
        let log = &logs[place.log];
        let mut lits = Vec::with_capacity(alloc, log.lit_count(place.entry) as usize)?;
        log.append_lits(place.entry, &mut lits)?;
        let mut hints = Vec::with_capacity(alloc, log.hint_count(place.entry) as usize)?;
        self.read_hints(formula, logs, place, &mut hints)?;
        Ok(Line::Add {
            id: self.ids[place.log].get(place.entry),
            lits: Clause { lits },
            hints: Ids { ids: hints },
        })
    }

    /// Puts the hints of an entry's line in the place of what the list has.
    pub fn read_hints(
        &self,
        formula: &Formula,
        logs: &[Log],
        place: Place,
        hints: &mut Vec<u64>,
    ) -> Result<(), NoMemory>
        requires place { IsPlace logs.now place }
        requires formulas { AreOf formula.now logs.now }
        requires logs { All IsLog logs.now }
        requires lists { AreAllTaken logs.now self.now.ids.items }
        ensures { OnOk result (hints.new.items
            ≡ map (merged_id formula.now (id_in self.now.ids.items) place.log) (entry_in logs.now place).hints) }
    {
        hints.clear();
        logs[place.log].append_hints(place.entry, hints)?;
        let inputs = formula.clauses().len() as u64;
        renumber(hints, inputs, self.ids[place.log].as_slice());
        Ok(())
    }
}

impl Merger {
    /// Nothing is taken yet.
    fn new(alloc: Global, formula: &Formula, logs: &[Log]) -> Result<Merger, NoMemory>
        requires { AreOf formula.now logs.now }
        ensures { IfOk result (λ m. IsTaking formula.now logs.now m.ids.items m.units.items (places_of logs.now m.numbers.items)) }
    {
        let mut ids = Vec::new(alloc);
        let mut room = 0u64;
        for log in logs {
            let entries = log.len();
            ids.push(EntryIds::with_capacity(alloc, entries)?)?;
            room = room.saturating_add(entries);
        }
        Ok(Merger {
            numbers: Vec::with_capacity(alloc, room as usize)?,
            ids,
            units: vec![in alloc; 0u64; 2 * formula.vars() as usize + 2]?,
        })
    }

    /// Takes all entries of this clock, the least that is left.
    fn take_clock(
        &mut self,
        formula: &Formula,
        logs: &[Log],
        starts: &[u32],
        clock: u32,
    ) -> Result<(), NoMemory>
        requires starts { AreStarts logs.now starts.now }
        requires taking { IsTaking formula.now logs.now self.old.ids.items self.old.units.items (places_of logs.now self.old.numbers.items) }
        requires imports { AreImportsShown logs.now }
        requires front { IsFront logs.now self.old.ids.items clock 0 }
        ensures taking { OnOk result
            (IsTaking formula.now logs.now self.new.ids.items self.new.units.items (places_of logs.now self.new.numbers.items)) }
        ensures front { OnOk result (IsFront logs.now self.new.ids.items clock (length logs.now)) }
    {
        for g in 0..logs.len() {
            self.take_run(formula, logs, starts, g, clock)?;
        }
        Ok(())
    }

    /// Takes the entries of this clock that are next in a log.
    fn take_run(
        &mut self,
        formula: &Formula,
        logs: &[Log],
        starts: &[u32],
        g: usize,
        clock: u32,
    ) -> Result<(), NoMemory>
        requires starts { AreStarts logs.now starts.now }
        requires log { g < length logs.now }
        requires taking { IsTaking formula.now logs.now self.old.ids.items self.old.units.items (places_of logs.now self.old.numbers.items) }
        requires imports { AreImportsShown logs.now }
        requires front { IsFront logs.now self.old.ids.items clock g }
        ensures taking { OnOk result
            (IsTaking formula.now logs.now self.new.ids.items self.new.units.items (places_of logs.now self.new.numbers.items)) }
        ensures front { OnOk result (IsFront logs.now self.new.ids.items clock (g + 1)) }
    {
        for entry in self.taken_of(g)..logs[g].len() {
            if logs[g].clock_of(entry) != clock {
                return Ok(());
            }
            self.take(formula, logs, starts, Place { log: g, entry })?;
        }
        Ok(())
    }

    /// How many entries of a log were taken.
    fn taken_of(&self, g: usize) -> u64
        requires { g < length self.now.ids.items }
        ensures { result ≡ length (ids_at self.now.ids.items g) }
    {
        self.ids[g].len()
    }

    /// Takes an entry.
    fn take(
        &mut self,
        formula: &Formula,
        logs: &[Log],
        starts: &[u32],
        place: Place,
    ) -> Result<(), NoMemory>
        requires starts { AreStarts logs.now starts.now }
        requires taking { IsTaking formula.now logs.now self.old.ids.items self.old.units.items (places_of logs.now self.old.numbers.items) }
        requires imports { AreImportsShown logs.now }
        requires next { IsNext logs.now self.old.ids.items place }
        ensures taking { OnOk result
            (IsTaking formula.now logs.now self.new.ids.items self.new.units.items (places_of logs.now self.new.numbers.items)) }
        ensures ids { OnOk result (IsPushed self.old.ids.items self.new.ids.items place) }
    {
        match logs[place.log].kind(place.entry) {
            Kind::Import => self.take_import(formula, logs, place),
            Kind::Unit => self.take_unit(formula, logs, starts, place),
            Kind::Learnt | Kind::Core | Kind::Empty => self.take_clause(
                formula, logs, starts, place,
            ),
        }
    }

    /// Takes an import: it has the id of the first unit of its literal.
    fn take_import(&mut self, formula: &Formula, logs: &[Log], place: Place) -> Result<(), NoMemory>
        requires taking { IsTaking formula.now logs.now self.old.ids.items self.old.units.items (places_of logs.now self.old.numbers.items) }
        requires imports { AreImportsShown logs.now }
        requires next { IsNext logs.now self.old.ids.items place }
        requires kind { IsImport logs.now place }
        ensures taking { OnOk result
            (IsTaking formula.now logs.now self.new.ids.items self.new.units.items (places_of logs.now self.new.numbers.items)) }
        ensures ids { OnOk result (IsPushed self.old.ids.items self.new.ids.items place) }
    {
        let lit = logs[place.log].lit(place.entry, 0);
        let id = self.units[lit.code() as usize];
        self.push_id(place, id)
    }

    /// Takes a unit.
    fn take_unit(
        &mut self,
        formula: &Formula,
        logs: &[Log],
        starts: &[u32],
        place: Place,
    ) -> Result<(), NoMemory>
        requires starts { AreStarts logs.now starts.now }
        requires taking { IsTaking formula.now logs.now self.old.ids.items self.old.units.items (places_of logs.now self.old.numbers.items) }
        requires next { IsNext logs.now self.old.ids.items place }
        requires kind { (entry_in logs.now place).kind ≡ UnitKind }
        ensures taking { OnOk result
            (IsTaking formula.now logs.now self.new.ids.items self.new.units.items (places_of logs.now self.new.numbers.items)) }
        ensures ids { OnOk result (IsPushed self.old.ids.items self.new.ids.items place) }
    {
        let lit = logs[place.log].lit(place.entry, 0);
        let id = (formula.clauses().len() + 1 + self.numbers.len()) as u64;
        self.push_line(logs, starts, place, id)?;
        self.note_unit(lit, id);
        Ok(())
    }

    /// Takes a clause that is neither a unit's nor an import's.
    fn take_clause(
        &mut self,
        formula: &Formula,
        logs: &[Log],
        starts: &[u32],
        place: Place,
    ) -> Result<(), NoMemory>
        requires starts { AreStarts logs.now starts.now }
        requires taking { IsTaking formula.now logs.now self.old.ids.items self.old.units.items (places_of logs.now self.old.numbers.items) }
        requires next { IsNext logs.now self.old.ids.items place }
        requires line { GivesLine logs.now place }
        requires kind { (entry_in logs.now place).kind ≡ UnitKind → ⊥ }
        ensures taking { OnOk result
            (IsTaking formula.now logs.now self.new.ids.items self.new.units.items (places_of logs.now self.new.numbers.items)) }
        ensures ids { OnOk result (IsPushed self.old.ids.items self.new.ids.items place) }
    {
        let id = (formula.clauses().len() + 1 + self.numbers.len()) as u64;
        self.push_line(logs, starts, place, id)
    }

    /// The place is next in the order, under this id.
    fn push_line(
        &mut self,
        logs: &[Log],
        starts: &[u32],
        place: Place,
        id: u64,
    ) -> Result<(), NoMemory>
        requires starts { AreStarts logs.now starts.now }
        requires place { IsPlace logs.now place }
        requires list { place.log < length self.old.ids.items }
        ensures ids { OnOk result (self.new.ids.items ≡ with_id self.old.ids.items place.log id) }
        ensures places { OnOk result
            (places_of logs.now self.new.numbers.items ≡ places_of logs.now self.old.numbers.items ++ place ∷ []) }
        ensures units { self.new.units.items ≡ self.old.units.items }
    {
        self.numbers.push(starts[place.log] + place.entry as u32)?;
        self.push_id(place, id)
    }

    /// The entry has this id.
    fn push_id(&mut self, place: Place, id: u64) -> Result<(), NoMemory>
        requires { place.log < length self.old.ids.items }
        ensures ids { OnOk result (self.new.ids.items ≡ with_id self.old.ids.items place.log id) }
        ensures numbers { self.new.numbers.items ≡ self.old.numbers.items }
        ensures units { self.new.units.items ≡ self.old.units.items }
    {
        self.ids[place.log].push(id)
    }

    /// The id is that of the literal's first unit, unless there was one before.
    fn note_unit(&mut self, lit: Lit, id: u64)
        requires { code_of lit < length self.old.units.items }
        ensures ids { self.new.ids.items ≡ self.old.ids.items }
        ensures numbers { self.new.numbers.items ≡ self.old.numbers.items }
        ensures units { self.new.units.items ≡ noted self.old.units.items lit id }
    {
        let code = lit.code() as usize;
        if self.units[code] == 0 {
            self.units[code] = id;
        }
    }
}

/// The least clock of what is left.
fn next_clock(ids: &[EntryIds], logs: &[Log]) -> Option<u32>
    requires { length ids.now ≡ length logs.now }
    ensures { MatchOption result (IsAllTaken logs.now ids.now) (IsLeastClock logs.now ids.now) }
{
    let mut least = None;
    for g in 0..logs.len() {
        let entry = ids[g].len();
        if entry < logs[g].len() {
            least = lesser(least, logs[g].clock_of(entry));
        }
    }
    least
}

/// The lesser of two clocks, of which the first may be missing.
fn lesser(least: Option<u32>, clock: u32) -> Option<u32>
    ensures { result ≡ Some (lesser_of least clock) }
{
    match least {
        Some(other) if other <= clock => Some(other),
        _ => Some(clock),
    }
}
