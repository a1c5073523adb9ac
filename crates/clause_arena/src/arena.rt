ghost use Rattle.std.specs.Prelude.{◌≡◌, ◌+◌, ◌<◌, ◌≤◌, ℕ, [], ◌∷◌, length, slice_index, slice_range, true, IfOk, OnOk};
ghost use Rattle.std.specs.Prelude.{OnErr};
ghost use Rattle.clause_arena.specs.Entries.{IsLive, entry_at, len_of, literal_of, new_entry, with_entry, without_clause, with_swap};
ghost use Rattle.clause_arena.specs.Entries.{live_entries, moved_to, move_of};
ghost use Rattle.std.specs.Vec.{vec_capacity, vec_len};
ghost use Rattle.clause_arena.specs.Steps.Opened.{opened};
ghost use Rattle.clause_arena.specs.Steps.Layout.{mark_at, IsLaidOut};
ghost use Rattle.clause_arena.specs.Steps.Sinking.{MaySink, IsOneDown, IsSunk};

use crate::{ClauseRef, Moves};
use cnf_core::{Lit, NoMemory};
use std::alloc::Global;
use std::marker::Model;

/// What an arena keeps of a clause beside its literals.
#[derive(Clone, Copy, Debug)]
struct Mark {
    id: u64,
    learnt: bool,
    live: bool,
}

/// Clauses that lie together in memory: their literals one after another, and where each one starts.
#[derive(Debug, Drop)]
pub struct Arena {
    lits: Vec<Lit>,
    starts: Vec<u32>,
    marks: Vec<Mark>,
}

impl Model for Arena {
    ghost use Rattle.clause_arena.specs.Entries.{Entries};
    ghost use Rattle.clause_arena.specs.Steps.Layout.{laid_entries, IsLaidOut};

    ghost Value = { Entries };

    ghost view = { λ a. laid_entries a.lits.items a.starts.items a.marks.items };

    ghost invariant = { λ a. IsLaidOut a.lits.items a.starts.items a.marks.items };
}

/// Where the clause of this place starts.
#[inline(always)]
fn start(starts: &Vec<u32>, place: usize) -> usize
    requires { place < vec_len starts.now }
    ensures { result ≡ slice_index starts.now.items place }
{
    starts[place] as usize
}

/// The literals between two starts.
#[inline(always)]
fn part(lits: &[Lit], from: usize, end: usize) -> &[Lit]
    requires { (from ≤ end) × (end ≤ length lits.now) }
    ensures { result.now ≡ slice_range lits.now from end }
{
    &lits[from..end]
}

/// Room for the first start, and the start itself where there is none yet.
fn open(starts: &mut Vec<u32>)
    requires { vec_len starts.old + 1 < vec_capacity starts.old }
    ensures items { starts.new.items ≡ opened starts.old.items }
    ensures room { vec_len starts.new < vec_capacity starts.new }
{
    if starts.is_empty() {
        starts.push_reserved(0);
    }
}

impl Arena {
    /// An arena without clauses. It takes no memory.
    pub fn new(alloc: Global) -> Arena
        ensures { result ≡ [] }
    {
        Arena {
            lits: Vec::new(alloc),
            starts: Vec::new(alloc),
            marks: Vec::new(alloc),
        }
    }

    /// Adds a live clause with this id. Without memory for it the arena stays as it was.
    pub fn add(&mut self, lits: &[Lit], id: u64, learnt: bool) -> Result<ClauseRef, NoMemory>
        ensures added { OnOk result (self.new ≡ with_entry self.old (new_entry id lits.now learnt)) }
        ensures place { IfOk result (λ r. r ≡ length self.old) }
        ensures err { OnErr result (self.new ≡ self.old) }
    {
        let place = self.marks.len();
        if place >= LIMIT || lits.len() > LIMIT - self.lits.len() {
            return Err(NoMemory);
        }
        self.starts.reserve(2)?;
        self.marks.reserve(1)?;
        self.lits.extend_from_slice(lits)?;
        open(&mut self.starts);
        self.starts.push_reserved(self.lits.len() as u32);
        self.marks.push_reserved(Mark {
            id,
            learnt,
            live: true,
        });
        Ok(ClauseRef::at(place as u32))
    }

    /// How many clauses were added since the arena was made or compacted, removed ones too.
    pub fn len(&self) -> u32
        ensures { result ≡ length self.now }
    {
        self.marks.len() as u32
    }

    /// Whether the clause was not removed.
    #[inline(always)]
    pub fn is_live(&self, r: ClauseRef) -> bool
        requires { r < length self.now }
        ensures { result ≡ (entry_at self.now r).live }
    {
        self.marks[r.place() as usize].live
    }

    /// The literals of a live clause, in their present order.
    #[inline(always)]
    pub fn lits(&self, r: ClauseRef) -> &[Lit]
        requires { IsLive self.now r }
        ensures { result.now ≡ (entry_at self.now r).lits }
    {
        let from = start(&self.starts, r.place() as usize);
        let end = start(&self.starts, r.place() as usize + 1);
        part(self.lits.as_slice(), from, end)
    }

    /// How many literals a live clause has.
    #[inline(always)]
    pub fn len_of(&self, r: ClauseRef) -> u64
        requires { IsLive self.now r }
        ensures { result ≡ len_of self.now r }
    {
        let from = start(&self.starts, r.place() as usize);
        let end = start(&self.starts, r.place() as usize + 1);
        (end - from) as u64
    }

    /// A literal of a live clause, by its place in the clause from 0.
    #[inline(always)]
    pub fn lit(&self, r: ClauseRef, i: u64) -> Lit
        requires live { IsLive self.now r }
        requires within { i < len_of self.now r }
        ensures { result ≡ literal_of self.now r i }
    {
        let from = start(&self.starts, r.place() as usize);
        self.lits[from + i as usize]
    }

    /// The id that a live clause was added with.
    pub fn id(&self, r: ClauseRef) -> u64
        requires { IsLive self.now r }
        ensures { result ≡ (entry_at self.now r).id }
    {
        self.marks[r.place() as usize].id
    }

    /// Whether a live clause was added as a learnt one.
    pub fn is_learnt(&self, r: ClauseRef) -> bool
        requires { IsLive self.now r }
        ensures { result ≡ (entry_at self.now r).learnt }
    {
        self.marks[r.place() as usize].learnt
    }

    /// Exchanges two literals of a live clause, by their places in the clause.
    #[inline(always)]
    pub fn swap(&mut self, r: ClauseRef, i: u64, j: u64)
        requires live { IsLive self.old r }
        requires first { i < len_of self.old r }
        requires second { j < len_of self.old r }
        ensures { self.new ≡ with_swap self.old r i j }
    {
        let from = start(&self.starts, r.place() as usize);
        self.lits.swap(from + i as usize, from + j as usize);
    }

    /// Removes a live clause. Its place stays taken until the arena is compacted.
    pub fn remove(&mut self, r: ClauseRef)
        requires { IsLive self.old r }
        ensures { self.new ≡ without_clause self.old r }
    {
        self.marks[r.place() as usize].live = false;
    }

    /// Keeps the live clauses alone, in their order, and says where each one went. The clauses before the first
    /// that was removed stay where they are, and cost one look at each. Without memory for it the arena stays as
    /// it was.
    pub fn compact(&mut self) -> Result<Moves, NoMemory>
        ensures kept { OnOk result (self.new ≡ live_entries self.old) }
        ensures moves { IfOk result (λ m. (r : ℕ) → move_of m r ≡ moved_to self.old r) }
        ensures err { OnErr result (self.new ≡ self.old) }
    {
        let first = first_removed(&self.marks);
        let mut to = Vec::with_capacity(self.allocator(), self.marks.len() - first)?;
        if first == self.marks.len() {
            return Ok(Moves::new(first as u32, to));
        }
        let kept = sink_live(
            &mut self.lits,
            &mut self.starts,
            &mut self.marks,
            first,
            &mut to,
        );
        let end = start(&self.starts, kept);
        self.lits.truncate(end);
        self.starts.truncate(kept + 1);
        self.marks.truncate(kept);
        Ok(Moves::new(first as u32, to))
    }

    fn allocator(&self) -> Global {
        *self.lits.allocator()
    }
}

/// The place of the first removed clause, or how many clauses there are.
fn first_removed(marks: &[Mark]) -> usize
    ensures within { result ≤ length marks.now }
    ensures live { (k : ℕ) → k < result → (mark_at marks.now k).live ≡ true }
{
    let mut place = 0;
    while place < marks.len() && marks[place].live {
        place += 1;
    }
    place
}

/// Moves the live clauses from the first removed one on down, so that no place is left between them, and writes where
/// each clause went. Answers how many clauses are live.
fn sink_live(
    lits: &mut Vec<Lit>,
    starts: &mut Vec<u32>,
    marks: &mut Vec<Mark>,
    first: usize,
    to: &mut Vec<Option<ClauseRef>>,
) -> usize
    requires laid { IsLaidOut lits.old.items starts.old.items marks.old.items }
    requires live { (k : ℕ) → k < first → (mark_at marks.old.items k).live ≡ true }
    requires some { first < vec_len marks.old }
    requires room { (vec_len to.old ≡ 0) × (vec_len marks.old ≤ first + vec_capacity to.old) }
    ensures { IsSunk lits.old.items starts.old.items marks.old.items first (vec_len marks.old) result
        to.new.items lits.new.items starts.new.items marks.new.items }
{
    let mut kept = first;
    for place in first..marks.len() {
        if !marks[place].live {
            to.push_reserved(None);
            continue;
        }
        sink(lits, starts, marks, place, kept);
        to.push_reserved(Some(ClauseRef::at(kept as u32)));
        kept += 1;
    }
    kept
}

/// Moves a clause down to another place, right behind the clause before that.
fn sink(lits: &mut Vec<Lit>, starts: &mut Vec<u32>, marks: &mut Vec<Mark>, place: usize, to: usize)
    requires { MaySink lits.old.items starts.old.items marks.old.items place to }
    ensures { IsOneDown lits.old.items starts.old.items marks.old.items place to lits.new.items starts.new.items marks.new.items }
{
    let from = start(starts, place);
    let end = start(starts, place + 1);
    let at = start(starts, to);
    lits.copy_within(from..end, at);
    starts[to + 1] = (at + (end - from)) as u32;
    marks[to] = marks[place];
}

/// More literals or clauses than places of 32 bits can name are refused as want of memory.
const LIMIT: usize = u32::MAX as usize;
