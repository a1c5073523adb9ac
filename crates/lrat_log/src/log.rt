ghost use Rattle.std.specs.Prelude.{◌≡◌, ◌+◌, ◌<◌, ◌≤◌, [], ◌∷◌, ◌++◌, if◌then◌else◌, length, drop, All, IfOk, OnOk, OnErr, slice_index_or};
ghost use Rattle.cnf_core.specs.Literals.{AreWithin};
ghost use Rattle.cnf_core.specs.Formulas.{Entails};
ghost use Rattle.lrat_lines.specs.Tight.{IsTight};
ghost use Rattle.lrat_log.specs.Entries.{empty_log, entry_at, literal_of, hint_of, is_learnt, learnt_count, id_after, known_after};
ghost use Rattle.lrat_log.specs.Entries.{next_entry, with_entry, with_shown, with_import, with_new_query};
ghost use Rattle.lrat_log.specs.Fresh.{IsFresh};
ghost use Rattle.lrat_log.specs.Packed.{hint_numbers, entry_numbers, entry_before, id_at, entry_bytes};
ghost use Rattle.lrat_log.specs.Steps.Unpacked.{values, IsPackable};
ghost use Rattle.lrat_log.specs.Kept.{IsShown, IsNext, IsLog};

use crate::Kind;
use crate::numbers::{number_at, skip};
use crate::packing::{Head, append_hints, append_lits, kind_of, pack};
use crate::store::Store;
use cnf_core::{Formula, Lit, NoMemory};
use std::alloc::Global;
use std::marker::Model;

/// How many numbers of an entry stand before its literals: its kind, its query number and its clock.
const HEAD_NUMBERS: u64 = 3;

/// The clauses that a search over a formula derived, in order, each with the hints that show it.
///
/// The clauses of the formula have the ids 1, 2, and so on, and the entries follow. An entry's hints are
/// ids below its own. Each entry has the query number and the clock that the log had when it was written.
#[derive(Debug, Drop)]
pub struct Log<'f> {
    formula: &'f Formula,
    /// The packed bytes of each entry.
    store: Store,
    /// The bytes of the entry that is being written.
    buffer: Vec<u8>,
    query: u64,
    query_used: bool,
    /// The query number of the last entry.
    last_query: u64,
    learnt: u64,
    clock: u32,
}

impl<'f> Model for Log<'f> {
    ghost use Rattle.lrat_log.specs.Entries.{Recorded};
    ghost use Rattle.lrat_log.specs.Steps.Unpacked.{unpacked_log, IsKept};

    ghost Value = { Recorded };

    ghost view = { λ l. unpacked_log l.formula.now l.store l.query l.clock };

    ghost invariant = { λ l. IsKept (unpacked_log l.formula.now l.store l.query l.clock) l.store l.query_used l.learnt
        l.last_query };
}

/// 1 for a learnt clause, and 0 for the others.
fn learnt_by(kind: Kind) -> u64
    ensures { result ≡ (if is_learnt kind then 1 else 0) }
{
    match kind {
        Kind::Learnt => 1,
        Kind::Unit | Kind::Core | Kind::Empty | Kind::Import => 0,
    }
}

impl<'f> Log<'f> {
    /// The log of a formula, without entries. It takes no memory.
    pub fn new(alloc: Global, formula: &'f Formula) -> Log<'f>
        ensures { result ≡ empty_log formula.now }
    {
        Log {
            formula,
            store: Store::new(alloc),
            buffer: Vec::new(alloc),
            query: 0,
            query_used: false,
            last_query: 0,
            learnt: 0,
            clock: 0,
        }
    }

    /// Begins a query: the query number rises by one where an entry has it, so that none has it then.
    pub fn begin_query(&mut self)
        ensures value { self.new ≡ with_new_query self.old }
        ensures unused { All (λ e. e.query < self.new.query) self.new.entries }
        ensures few { self.new.query ≤ length self.new.entries }
    {
        let _entries = self.store.len();
        if self.query_used {
            self.query += 1;
            self.query_used = false;
        }
    }

    /// Writes a clause that was learnt from a conflict, and answers its id. Without memory for it the log
    /// stays as it was.
    ///
    /// The hints show it by reverse unit propagation, none of them in vain. No clause of the formula, and
    /// none learnt before in the query's present epoch, is a part of it.
    pub fn learnt(&mut self, lits: &[Lit], hints: &[u64]) -> Result<u64, NoMemory>
        requires shown { IsShown self.old.formula self.old.entries hints.now lits.now }
        requires fresh { IsFresh self.old.formula self.old.entries self.old.query lits.now }
        requires tight { IsTight (known_after self.old.formula self.old.entries) hints.now lits.now }
        ensures id { IfOk result (λ id. id ≡ id_after self.old.formula self.old.entries) }
        ensures ok { OnOk result (self.new ≡ with_shown self.old Kind.Learnt lits.now hints.now) }
        ensures err { OnErr result (self.new ≡ self.old) }
    {
        let clock = self.clock;
        self.append(Kind::Learnt, lits, hints, clock)
    }

    /// Writes a literal that holds in every model, and answers its id. Without memory for it the log
    /// stays as it was. The hints show it by reverse unit propagation.
    pub fn unit(&mut self, lit: Lit, hints: &[u64]) -> Result<u64, NoMemory>
        requires { IsShown self.old.formula self.old.entries hints.now (lit ∷ []) }
        ensures id { IfOk result (λ id. id ≡ id_after self.old.formula self.old.entries) }
        ensures ok { OnOk result (self.new ≡ with_shown self.old Kind.Unit (lit ∷ []) hints.now) }
        ensures err { OnErr result (self.new ≡ self.old) }
    {
        let clock = self.clock;
        self.append(Kind::Unit, &[lit], hints, clock)
    }

    /// Writes a clause that refutes assumptions, and answers its id. Without memory for it the log stays
    /// as it was. The hints show it by reverse unit propagation.
    pub fn core(&mut self, lits: &[Lit], hints: &[u64]) -> Result<u64, NoMemory>
        requires { IsShown self.old.formula self.old.entries hints.now lits.now }
        ensures id { IfOk result (λ id. id ≡ id_after self.old.formula self.old.entries) }
        ensures ok { OnOk result (self.new ≡ with_shown self.old Kind.Core lits.now hints.now) }
        ensures err { OnErr result (self.new ≡ self.old) }
    {
        let clock = self.clock;
        self.append(Kind::Core, lits, hints, clock)
    }

    /// Writes the empty clause, and answers its id. Without memory for it the log stays as it was. The
    /// hints show it by reverse unit propagation.
    pub fn empty(&mut self, hints: &[u64]) -> Result<u64, NoMemory>
        requires { IsShown self.old.formula self.old.entries hints.now [] }
        ensures id { IfOk result (λ id. id ≡ id_after self.old.formula self.old.entries) }
        ensures ok { OnOk result (self.new ≡ with_shown self.old Kind.Empty [] hints.now) }
        ensures err { OnErr result (self.new ≡ self.old) }
    {
        let clock = self.clock;
        self.append(Kind::Empty, &[], hints, clock)
    }

    /// Writes a literal that holds in every model and that another log shows, and answers its id. The
    /// clock rises to the stamp where that is greater. Without memory for it the log stays as it was.
    pub fn import(&mut self, lit: Lit, stamp: u32) -> Result<u64, NoMemory>
        requires { Entails self.old.formula lit }
        ensures id { IfOk result (λ id. id ≡ id_after self.old.formula self.old.entries) }
        ensures ok { OnOk result (self.new ≡ with_import self.old lit stamp) }
        ensures err { OnErr result (self.new ≡ self.old) }
    {
        let clock = if self.clock < stamp {
            stamp
        } else {
            self.clock
        };
        self.append(Kind::Import, &[lit], &[], clock)
    }

    /// Writes an entry at this clock, and answers its id. Without memory for it the log stays as it was.
    fn append(
        &mut self,
        kind: Kind,
        lits: &[Lit],
        hints: &[u64],
        clock: u32,
    ) -> Result<u64, NoMemory>
        requires next { IsNext self.old.formula self.old.entries
            (next_entry self.old kind lits.now hints.now clock) }
        requires clock { self.old.clock ≤ clock }
        ensures id { IfOk result (λ id. id ≡ id_after self.old.formula self.old.entries) }
        ensures ok { OnOk result (self.new ≡ with_entry self.old kind lits.now hints.now clock) }
        ensures err { OnErr result (self.new ≡ self.old) }
    {
        let id = self.formula.clauses().len() as u64 + 1 + self.store.len();
        let head = Head {
            kind,
            query_step: self.query - self.last_query,
            clock_step: clock - self.clock,
        };
        let hints_start = pack(&mut self.buffer, head, lits, id, hints)?;
        self.store.push(&self.buffer, hints_start, clock)?;
        self.query_used = true;
        self.last_query = self.query;
        self.learnt += learnt_by(kind);
        self.clock = clock;
        Ok(id)
    }

    /// How many entries there are.
    pub fn len(&self) -> u64
        ensures value { result ≡ length self.now.entries }
        ensures log { IsLog self.now }
    {
        self.store.len()
    }

    /// What an entry is for, by its place from 0.
    pub fn kind(&self, i: u64) -> Kind
        requires { i < length self.now.entries }
        ensures { result ≡ (entry_at self.now i).kind }
    {
        kind_of(number_at(self.packed(i), 0).value)
    }

    /// How many literals an entry has.
    pub fn lit_count(&self, i: u64) -> u64
        requires { i < length self.now.entries }
        ensures { result ≡ length (entry_at self.now i).literals }
    {
        let bytes = self.packed(i);
        number_at(bytes, skip(bytes, 0, HEAD_NUMBERS)).value
    }

    /// A literal of an entry, by its place in the entry from 0.
    pub fn lit(&self, i: u64, k: u64) -> Lit
        requires entry { i < length self.now.entries }
        requires within { k < length (entry_at self.now i).literals }
        ensures { result ≡ literal_of self.now i k }
    {
        let bytes = self.packed(i);
        let first = skip(bytes, 0, HEAD_NUMBERS + 1);
        let place = skip(bytes, first, k);
        Lit::from_code(number_at(bytes, place).value as u32)
    }

    /// How many hints an entry has.
    pub fn hint_count(&self, i: u64) -> u64
        requires { i < length self.now.entries }
        ensures { result ≡ length (entry_at self.now i).hints }
    {
        number_at(self.packed(i), self.hints_at(i)).value
    }

    /// A hint of an entry, by its place in the entry from 0.
    pub fn hint(&self, i: u64, k: u64) -> u64
        requires entry { i < length self.now.entries }
        requires within { k < length (entry_at self.now i).hints }
        ensures { result ≡ hint_of self.now i k }
    {
        let bytes = self.packed(i);
        let first = skip(bytes, self.hints_at(i), 1);
        let place = skip(bytes, first, k);
        self.id_of(i) - number_at(bytes, place).value
    }

    /// Appends the literals of an entry to a list, in one pass. Without memory for them the list stays as it was.
    pub fn append_lits(&self, i: u64, lits: &mut Vec<Lit>) -> Result<(), NoMemory>
        requires { i < length self.now.entries }
        ensures ok { OnOk result (lits.new.items ≡ lits.old.items ++ (entry_at self.now i).literals) }
        ensures err { OnErr result (lits.new.items ≡ lits.old.items) }
    {
        let bytes = self.packed(i);
        append_lits(bytes, skip(bytes, 0, HEAD_NUMBERS), lits)
    }

    /// Appends the hints of an entry to a list, in one pass. Without memory for them the list stays as it was.
    pub fn append_hints(&self, i: u64, hints: &mut Vec<u64>) -> Result<(), NoMemory>
        requires { i < length self.now.entries }
        ensures ok { OnOk result (hints.new.items ≡ hints.old.items ++ (entry_at self.now i).hints) }
        ensures err { OnErr result (hints.new.items ≡ hints.old.items) }
    {
        append_hints(self.packed(i), self.hints_at(i), self.id_of(i), hints)
    }

    /// The packed bytes of an entry. It takes no memory.
    pub fn entry_bytes(&self, i: u64) -> &[u8]
        requires { i < length self.now.entries }
        ensures { result.now ≡ entry_bytes self.now i }
    {
        self.packed(i)
    }

    /// The packed bytes of an entry, which give it back.
    fn packed(&self, i: u64) -> &[u8]
        requires { i < length self.now.entries }
        ensures bytes { result.now ≡ entry_bytes self.now i }
        ensures numbers { values result.now ≡ entry_numbers (id_at self.now i) (entry_before self.now i) (entry_at self.now i) }
        ensures packable { IsPackable (id_at self.now i) (entry_before self.now i) (entry_at self.now i) }
    {
        self.store.bytes(i)
    }

    /// Where the hints of an entry begin among its bytes.
    fn hints_at(&self, i: u64) -> usize
        requires { i < length self.now.entries }
        ensures { values (drop result (entry_bytes self.now i)) ≡ hint_numbers (id_at self.now i) (entry_at self.now i).hints }
    {
        self.store.hints_at(i)
    }

    /// The id of an entry.
    fn id_of(&self, i: u64) -> u64
        requires { i < length self.now.entries }
        ensures { result ≡ id_at self.now i }
    {
        let _entries = self.store.len();
        self.formula.clauses().len() as u64 + 1 + i
    }

    /// The clock that an entry was written at.
    pub fn clock_of(&self, i: u64) -> u32
        requires { i < length self.now.entries }
        ensures { result ≡ (entry_at self.now i).clock }
    {
        self.store.clock(i)
    }

    /// The clock now: the greatest stamp of an import, or 0.
    pub fn clock(&self) -> u32
        ensures { result ≡ self.now.clock }
    {
        self.clock
    }

    /// How many clauses were learnt.
    pub fn count_learnt(&self) -> u64
        ensures { result ≡ learnt_count self.now.entries }
    {
        self.learnt
    }
}
