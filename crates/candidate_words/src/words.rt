ghost use Rattle.std.specs.Prelude.{◌≡◌, ℕ, ◌+◌, ◌-◌, ◌^◌, ◌<◌, ◌≤◌, [], ◌++◌, length, take, replicate, IfOk};
ghost use Rattle.std.specs.Vec.{vec_len};
ghost use Rattle.std.specs.Mem.Slots.{slots_items, slots_len, IsFull};
ghost use Rattle.cnf_core.specs.Formulas.{IsModel};
ghost use Rattle.board_core.specs.Subjects.{about, groups, Opposed, Entailed};
ghost use Rattle.board_core.specs.Boards.{opening_words, root_view, parent, child, joined, EachOf, MayPublish, publish_view};
ghost use Rattle.board_core.specs.Rules.{IsOnce, Tells};
ghost use Rattle.candidate_words.specs.Seats.{Sits, IsRoot, IsOutOf, with_view, HasLoaded, HasDropped, HasRefreshed, HasFixed, HasAsked};

use crate::Seat;
use crate::rule::{Asks, BoardRule, Drops, Fixes, Loads, Looks, Publishes, Views};
use atomic_table::{Closed, Table};
use board_core::{Opened, View, opening_words};
use cnf_core::{Formula, NoMemory, Values};
use std::alloc::Global;
use std::marker::Model;

/// The words of all groups and the origin words of all variables, which threads share by a `&`.
#[derive(Drop)]
pub struct Words {
    table: Table<u8, View, Opened, BoardRule, Global>,
    vars: u32,
}

impl Model for Words {
    ghost use Rattle.std.specs.Prelude.{◌≡◌, ◌+◌, ◌<◌, ◌≤◌, ◌^◌};
    ghost use Rattle.board_core.specs.Subjects.{groups};
    ghost use Rattle.candidate_words.specs.Seats.{Board};

    ghost Value = { Board };

    ghost view = { λ w. record { table = w.table.shared.table_id; about = w.table.shared.key } };

    ghost invariant = { λ w. (w.vars ≡ w.table.shared.key.formula.vars) × (0 < w.vars) × (w.vars ≤ 2 ^ 20)
        × (w.table.shared.table_id.words ≡ groups w.vars + w.vars) × (w.table.shared.table_id.slots ≡ 0) };
}

impl Words {
    /// The table of a formula with a variable or more, where the shown variables are alive and none is fixed,
    /// and the seat of its root. The phases are a model of the formula, which gives each candidate its phase.
    pub fn open(
        alloc: Global,
        formula: &Formula,
        phases: &Values,
    ) -> Result<(Words, Seat), NoMemory>
        requires vars { 0 < formula.now.vars }
        requires phases { IsModel formula.now phases.now }
        ensures about { IfOk result (λ opened. opened.0.about ≡ about formula.now phases.now) }
        ensures root { IfOk result (λ opened. opened.1.view ≡ root_view opened.0.about) }
        ensures sits { IfOk result (λ opened. Sits opened.0 opened.1) }
        ensures once { IfOk result (λ opened. IsOnce opened.0.about opened.1.view) }
    {
        let words = table_words(alloc, formula)?;
        let (table, place) = Table::of_words(alloc, &words, &Opened::of(formula, phases))?;
        Ok((
            Words {
                table,
                vars: formula.vars(),
            },
            Seat { place },
        ))
    }

    /// The group's word: one load, and the event Load. It is no earlier than what the seat had seen of the group.
    pub fn load(&self, seat: &mut Seat, group: u32) -> u64
        requires seat { Sits self.now seat.old }
        requires group { group < groups self.now.about.formula.vars }
        ensures loaded { HasLoaded seat.old group result seat.new }
        ensures sits { Sits self.now seat.new }
        ensures once { IsOnce self.now.about seat.new.view }
    {
        self.table
            .shared
            .load::<Loads>(&mut seat.place, group as usize)
    }

    /// Drops the mask's variables: one fetch-and, and the event Drop. Each is shown, and a model gives it the
    /// value opposite to its phase. The answer has just the bits that this call cleared.
    pub fn drop_bits(&self, seat: &mut Seat, group: u32, mask: u32) -> u32
        requires seat { Sits self.now seat.old }
        requires group { group < groups self.now.about.formula.vars }
        requires mask { EachOf self.now.about (Opposed self.now.about) group mask }
        ensures dropped { HasDropped seat.old group mask result seat.new }
        ensures sits { Sits self.now seat.new }
        ensures once { IsOnce self.now.about seat.new.view }
    {
        let all = u64::from(mask);
        let found = self
            .table
            .shared
            .fetch_and::<Drops>(&mut seat.place, group as usize, !all);
        (found & all) as u32
    }

    /// The group's word, which is seen but doesn't count as loaded: one fetch-and of all bits, and the event Drop of no
    /// variable.
    pub fn refresh(&self, seat: &mut Seat, group: u32) -> u64
        requires seat { Sits self.now seat.old }
        requires group { group < groups self.now.about.formula.vars }
        ensures refreshed { HasRefreshed seat.old group result seat.new }
        ensures sits { Sits self.now seat.new }
        ensures once { IsOnce self.now.about seat.new.view }
    {
        self.table
            .shared
            .fetch_and::<Drops>(&mut seat.place, group as usize, u64::MAX)
    }

    /// Fixes the mask's variables: one fetch-or, and the event Fix. Each is shown, and the formula entails its
    /// phase literal. The answer has just the bits that this call set, and none of a variable that the seat
    /// has imported.
    pub fn fix_bits(&self, seat: &mut Seat, group: u32, mask: u32) -> u32
        requires seat { Sits self.now seat.old }
        requires group { group < groups self.now.about.formula.vars }
        requires mask { EachOf self.now.about (Entailed self.now.about) group mask }
        ensures fixed { HasFixed seat.old group mask result seat.new }
        ensures sits { Sits self.now seat.new }
        ensures once { IsOnce self.now.about seat.new.view }
    {
        let bits = u64::from(mask) << 32;
        let found = self
            .table
            .shared
            .fetch_or::<Fixes>(&mut seat.place, group as usize, bits);
        mask ^ (mask & (found >> 32) as u32)
    }

    /// Publishes a variable that the seat has fixed: one fetch-or of its origin word with 1 more than the stamp, and
    /// the event Publish. The stamp is at least 1 and at most 1 above the greatest that the seat has imported.
    /// The answer is the word before, which is 0.
    pub fn origin_or(&self, seat: &mut Seat, var: u32, bits: u64) -> u64
        requires seat { Sits self.now seat.old }
        requires publishes { MayPublish seat.old.view var (bits - 1) }
        ensures before { result ≡ 0 }
        ensures published { seat.new ≡ with_view seat.old (publish_view var (bits - 1) seat.old.view) }
        ensures sits { Sits self.now seat.new }
        ensures once { IsOnce self.now.about seat.new.view }
    {
        let word = self.origin_place(var);
        self.table
            .shared
            .fetch_or::<Publishes>(&mut seat.place, word, bits)
    }

    /// The origin word of one of the variables: one load, and the event Origin. It is 0, or 1 more than the stamp with
    /// which the variable was published, and then the formula entails the variable's phase literal.
    pub fn origin_load(&self, seat: &mut Seat, var: u32) -> u64
        requires seat { Sits self.now seat.old }
        requires var { (0 < var) × (var ≤ self.now.about.formula.vars) }
        ensures asked { HasAsked seat.old var result seat.new }
        ensures range { result ≤ 2 ^ 20 + 1 }
        ensures sits { Sits self.now seat.new }
        ensures once { IsOnce self.now.about seat.new.view }
    {
        let word = self.origin_place(var);
        self.table.shared.load::<Asks>(&mut seat.place, word)
    }

    /// One load that is no event and changes nothing: it tells that the seat has dropped and fixed each variable at most
    /// once, which a join alone does not.
    pub fn look(&self, seat: &mut Seat)
        requires seat { Sits self.now seat.old }
        ensures same { seat.new ≡ seat.old }
        ensures once { IsOnce self.now.about seat.new.view }
    {
        self.table.shared.load::<Looks>(&mut seat.place, 0);
    }

    /// Where the variable's origin word stands: behind the groups.
    fn origin_place(&self, var: u32) -> usize
        requires { (0 < var) × (var ≤ self.now.about.formula.vars) }
        ensures place { result ≡ groups self.now.about.formula.vars + (var - 1) }
        ensures within { result < self.now.table.words }
        ensures slots { self.now.table.slots ≡ 0 }
    {
        (self.vars.div_ceil(32) + (var - 1)) as usize
    }

    /// A seat of its own, which has seen what the root has seen: the event Split.
    pub fn split(&self, root: &mut Seat) -> Seat
        requires seat { Sits self.now root.old }
        requires root { IsRoot root.old }
        requires next { root.old.view.next < 2 ^ 32 - 1 }
        ensures parent { root.new ≡ with_view root.old (parent root.old.view) }
        ensures child { result ≡ with_view root.old (child root.old.view) }
        ensures sits { Sits self.now root.new × Sits self.now result }
        ensures once { (IsOnce self.now.about root.old.view → IsOnce self.now.about root.new.view) × IsOnce self.now.about result.view }
    {
        Seat {
            place: self.table.shared.split_seat::<Views>(&mut root.place),
        }
    }

    /// The root takes in what the other seat has done: the event Join.
    pub fn join(&self, root: &mut Seat, other: Seat)
        requires seat { Sits self.now root.old }
        requires root { IsRoot root.old }
        requires other { Sits self.now other × IsOutOf root.old other }
        ensures joined { root.new ≡ with_view root.old (joined root.old.view other.view) }
        ensures sits { Sits self.now root.new }
    {
        self.table
            .shared
            .join_seat::<Views>(&mut root.place, other.place);
    }

    /// The words of the groups, in order, where all other seats were joined: the root's drops and fixes are exactly
    /// the candidates not alive and those fixed, each once. A refused call gives the table up.
    pub fn close(self, alloc: Global, root: Seat) -> Result<Vec<u64>, NoMemory>
        requires seat { Sits self root }
        requires root { IsRoot root }
        requires alone { root.view.out ≡ [] }
        ensures { IfOk result (λ words. Tells self.about words.items root.view) }
    {
        let Words { table, vars } = self;
        let closed = table.close_with(root.place);
        let words = read_words(alloc, &closed, vars.div_ceil(32) as usize);
        closed.free();
        words
    }
}

/// The words of a table at the opening.
fn table_words(alloc: Global, formula: &Formula) -> Result<Vec<u64>, NoMemory>
    ensures items { IfOk result (λ words. words.items ≡ opening_words formula.now ++ replicate formula.now.vars 0) }
    ensures len { IfOk result (λ words. vec_len words ≡ groups formula.now.vars + formula.now.vars) }
{
    let mut words = opening_words(alloc, formula)?;
    let count = words.len() + formula.vars() as usize;
    words.resize(count, 0)?;
    Ok(words)
}

/// The first so many words.
fn read_words(
    alloc: Global,
    closed: &Closed<u8, Global>,
    count: usize,
) -> Result<Vec<u64>, NoMemory>
    requires { (count ≤ slots_len closed.now.words) × IsFull closed.now.words }
    ensures { IfOk result (λ words. words.items ≡ take count (slots_items closed.now.words)) }
{
    let mut words = Vec::with_capacity(alloc, count)?;
    for i in 0..count {
        words.push(closed.word(i))?;
    }
    Ok(words)
}
