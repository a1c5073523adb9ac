//! What a turn learns of the others' work.
ghost use Rattle.std.specs.Prelude.{◌≡◌, ◌<◌, ◌≤◌, OnOk};
ghost use Rattle.cnf_core.specs.Formulas.{true_literal};
ghost use Rattle.board_core.specs.Subjects.{groups};
ghost use Rattle.candidate_words.specs.Seats.{Sits};
ghost use Rattle.assumption_solver.specs.Units.{HasUnit};
ghost use Rattle.worker_loop.specs.Steps.Held.{IsPost};
ghost use Rattle.worker_loop.specs.Steps.Moves.{IsLoaded, HasLoadedAll, IsHearing, IsAskedTimes, IsSameButRooted};
ghost use Rattle.worker_loop.specs.Steps.Moves.{HasHeard, HasHeardOne, HasHeardBit, HasHeardBits, HasHeardIn, HasTaken, HasListened};
ghost use Rattle.worker_loop.specs.Steps.Dropping.{HasCandidates};

use crate::masks::{bit_of, fixed_unknown, group_of, has_bit};
use crate::post::Post;
use candidate_words::Words;
use cnf_core::{Lit, NoMemory};
use shared_fixed::origin;

impl<'f, 'r> Post<'f, 'r> {
    /// Loads every group once.
    pub fn load_all(&mut self, words: &Words)
        requires post { IsPost self.old }
        requires sits { Sits words.now self.old.seat }
        ensures post { IsPost self.new }
        ensures sits { Sits words.now self.new.seat }
        ensures copied { IsLoaded self.new }
        ensures loaded { HasLoadedAll self.old self.new }
    {
        for group in 0..self.loaded.len() {
            let word = words.load(&mut self.seat, group as u32);
            self.loaded[group] = word;
        }
    }

    /// Takes over the literals that others have fixed and published.
    pub fn hear(&mut self, words: &Words) -> Result<(), NoMemory>
        requires post { IsPost self.old }
        requires sits { Sits words.now self.old.seat }
        requires copied { IsLoaded self.old }
        ensures post { IsPost self.new }
        ensures sits { Sits words.now self.new.seat }
        ensures hearing { IsHearing self.old self.new }
        ensures models { self.new.models ≡ self.old.models }
        ensures seen { self.new.seat.view.seen ≡ self.old.seat.view.seen }
        ensures asked { IsAskedTimes 0 self.old.solver.log self.new.solver.log }
        ensures heard { OnOk result (HasHeard self.old self.new) }
        ensures taken { OnOk result (HasTaken self.old self.new) }
    {
        for group in 0..self.loaded.len() {
            self.hear_in(words, group)?;
        }
        Ok(())
    }

    /// Takes over the literals of a group that the loaded word shows fixed and that aren't known as root units.
    fn hear_in(&mut self, words: &Words, group: usize) -> Result<(), NoMemory>
        requires post { IsPost self.old }
        requires sits { Sits words.now self.old.seat }
        requires copied { IsLoaded self.old }
        requires group { group < groups self.old.question.now.formula.vars }
        ensures listened { HasListened words.now self.old self.new }
        ensures heard { OnOk result (HasHeardIn self.old self.new group) }
        ensures taken { OnOk result (HasTaken self.old self.new) }
    {
        let unknown = fixed_unknown(self.loaded[group], self.rooted[group]);
        if unknown == 0 {
            return Ok(());
        }
        self.hear_group(words, group as u32, unknown)
    }

    /// Takes over literals of a group.
    fn hear_group(&mut self, words: &Words, group: u32, fixed: u32) -> Result<(), NoMemory>
        requires post { IsPost self.old }
        requires sits { Sits words.now self.old.seat }
        requires group { group < groups self.old.question.now.formula.vars }
        requires candidates { HasCandidates self.old.question.now group fixed }
        ensures listened { HasListened words.now self.old self.new }
        ensures heard { OnOk result (HasHeardBits self.old self.new group fixed) }
        ensures taken { OnOk result (HasTaken self.old self.new) }
    {
        for bit in 0..32 {
            self.hear_bit(words, group, fixed, bit)?;
        }
        Ok(())
    }

    /// Takes over the literal of a group's bit, if it is on.
    fn hear_bit(&mut self, words: &Words, group: u32, fixed: u32, bit: u32) -> Result<(), NoMemory>
        requires post { IsPost self.old }
        requires sits { Sits words.now self.old.seat }
        requires group { group < groups self.old.question.now.formula.vars }
        requires candidates { HasCandidates self.old.question.now group fixed }
        requires bit { bit < 32 }
        ensures listened { HasListened words.now self.old self.new }
        ensures heard { OnOk result (HasHeardBit self.old self.new group fixed bit) }
        ensures taken { OnOk result (HasTaken self.old self.new) }
    {
        if has_bit(fixed, bit) {
            return self.hear_one(words, 32 * group + bit + 1);
        }
        Ok(())
    }

    /// Looks for the origin of a variable's phase literal where the log doesn't show it, and takes it over where it was
    /// published.
    fn hear_one(&mut self, words: &Words, var: u32) -> Result<(), NoMemory>
        requires post { IsPost self.old }
        requires sits { Sits words.now self.old.seat }
        requires var { (0 < var) × (var ≤ self.old.question.now.formula.vars) }
        ensures post { IsPost self.new }
        ensures sits { Sits words.now self.new.seat }
        ensures hearing { IsHearing self.old self.new }
        ensures models { self.new.models ≡ self.old.models }
        ensures seen { self.new.seat.view.seen ≡ self.old.seat.view.seen }
        ensures asked { IsAskedTimes 0 self.old.solver.log self.new.solver.log }
        ensures heard { OnOk result (HasHeardOne self.old self.new var) }
        ensures taken { OnOk result (HasTaken self.old self.new) }
    {
        let lit = self.phase_literal(var);
        if self.solver.is_root(lit) {
            self.mark_rooted(var);
            return Ok(());
        }
        self.take_over(words, lit)
    }

    /// Looks for the origin of a phase literal that the log doesn't show, and takes it over where it was published.
    fn take_over(&mut self, words: &Words, lit: Lit) -> Result<(), NoMemory>
        requires post { IsPost self.old }
        requires sits { Sits words.now self.old.seat }
        requires phase { lit ≡ true_literal self.old.question.now.phases lit.var }
        requires var { (0 < lit.var) × (lit.var ≤ self.old.question.now.formula.vars) }
        requires unknown { HasUnit self.old.solver.log lit → ⊥ }
        ensures post { IsPost self.new }
        ensures sits { Sits words.now self.new.seat }
        ensures hearing { IsHearing self.old self.new }
        ensures models { self.new.models ≡ self.old.models }
        ensures seen { self.new.seat.view.seen ≡ self.old.seat.view.seen }
        ensures asked { IsAskedTimes 0 self.old.solver.log self.new.solver.log }
        ensures heard { OnOk result (HasHeardOne self.old self.new lit.var) }
        ensures taken { OnOk result (HasTaken self.old self.new) }
    {
        let Some(stamp) = origin(words, &mut self.seat, lit.var()) else {
            return Ok(());
        };
        self.solver.add_unit(lit, stamp)?;
        self.mark_rooted(lit.var());
        Ok(())
    }

    /// Notes that a variable's phase literal is a root unit of the solver.
    fn mark_rooted(&mut self, var: u32)
        requires post { IsPost self.old }
        requires var { (0 < var) × (var ≤ self.old.question.now.formula.vars) }
        requires shown { HasUnit self.old.solver.log (true_literal self.old.question.now.phases var) }
        ensures post { IsPost self.new }
        ensures same { IsSameButRooted self.old self.new }
    {
        self.rooted[group_of(var) as usize] |= bit_of(var);
    }

    /// The literal of a variable that the phases make true.
    pub fn phase_literal(&self, var: u32) -> Lit
        requires post { IsPost self.now }
        requires var { (0 < var) × (var ≤ self.now.question.now.formula.vars) }
        ensures { result ≡ true_literal self.now.question.now.phases var }
    {
        Lit::new(var, self.question.phase(var))
    }
}
