//! Fixing what the log shows.
ghost use Rattle.std.specs.Prelude.{◌≡◌, ◌+◌, ◌^◌, ◌≤◌, All};
ghost use Rattle.cnf_core.specs.Literals.{Literal};
ghost use Rattle.cnf_core.specs.Formulas.{Entails};
ghost use Rattle.lrat_log.specs.Kept.{IsLog};
ghost use Rattle.assumption_solver.specs.Units.{HasUnit};
ghost use Rattle.board_core.specs.Subjects.{candidate};
ghost use Rattle.board_core.specs.Boards.{MayPublish, publish_view};
ghost use Rattle.board_core.specs.Rules.{IsOnce};
ghost use Rattle.candidate_words.specs.Seats.{Sits, with_view};
ghost use Rattle.worker_loop.specs.Evidence.{IsRooted};
ghost use Rattle.worker_loop.specs.Steps.Held.{IsPost};
ghost use Rattle.worker_loop.specs.Steps.Moves.{IsLoaded, IsOnward, IsClosed};

use crate::masks::{bit_of, group_of};
use crate::post::Post;
use candidate_words::{Seat, Words};
use cnf_core::Lit;
use core_chunks::is_open;
use lrat_log::Log;
use lrat_log::laws::logged_clause_is_entailed;
use shared_fixed::publish;

impl<'f, 'r> Post<'f, 'r> {
    /// Fixes a phase literal that the log shows by itself. Where this worker was the first to fix it, it records that
    /// and publishes the literal.
    pub fn fix(&mut self, words: &Words, lit: Lit)
        requires post { IsPost self.old }
        requires sits { Sits words.now self.old.seat }
        requires rooted { IsRooted self.old.question.now self.old.solver.log lit }
        requires shown { candidate self.old.question.now.formula lit.var ≡ 1 }
        ensures post { IsPost self.new }
        ensures sits { Sits words.now self.new.seat }
        ensures onward { IsOnward self.old self.new }
        ensures models { self.new.models ≡ self.old.models }
        ensures solver { self.new.solver ≡ self.old.solver }
        ensures harvested { self.new.harvested ≡ self.old.harvested }
        ensures closed { IsClosed self.new lit.var }
    {
        prove_units(self.solver.log());
        let var = lit.var();
        let won = words.fix_bits(&mut self.seat, group_of(var), bit_of(var));
        if won != 0 {
            self.fixes.push_reserved(lit);
            publish_next(words, &mut self.seat, var, self.solver.log());
        }
    }

    /// Fixes all of the literals.
    pub fn fix_all(&mut self, words: &Words, lits: &[Lit])
        requires post { IsPost self.old }
        requires sits { Sits words.now self.old.seat }
        requires rooted { All (IsRooted self.old.question.now self.old.solver.log) lits.now }
        requires shown { All (λ l. candidate self.old.question.now.formula l.var ≡ 1) lits.now }
        ensures post { IsPost self.new }
        ensures sits { Sits words.now self.new.seat }
        ensures onward { IsOnward self.old self.new }
        ensures models { self.new.models ≡ self.old.models }
        ensures solver { self.new.solver ≡ self.old.solver }
        ensures closed { All (λ l. IsClosed self.new l.var) lits.now }
    {
        for lit in lits {
            self.fix(words, *lit);
        }
    }

    /// Fixes the new root literals of the solver whose variables were open.
    pub fn harvest(&mut self, words: &Words)
        requires post { IsPost self.old }
        requires sits { Sits words.now self.old.seat }
        requires copied { IsLoaded self.old }
        ensures post { IsPost self.new }
        ensures sits { Sits words.now self.new.seat }
        ensures onward { IsOnward self.old self.new }
        ensures models { self.new.models ≡ self.old.models }
        ensures solver { self.new.solver ≡ self.old.solver }
    {
        while self.harvested < self.solver.root_count() {
            let lit = self.solver.root_at(self.harvested);
            self.fix_open(words, lit);
            self.harvested += 1;
        }
    }

    /// Fixes a root literal of the solver whose variable was open.
    fn fix_open(&mut self, words: &Words, lit: Lit)
        requires post { IsPost self.old }
        requires sits { Sits words.now self.old.seat }
        requires copied { IsLoaded self.old }
        requires unit { HasUnit self.old.solver.log lit }
        ensures post { IsPost self.new }
        ensures sits { Sits words.now self.new.seat }
        ensures onward { IsOnward self.old self.new }
        ensures models { self.new.models ≡ self.old.models }
        ensures solver { self.new.solver ≡ self.old.solver }
        ensures harvested { self.new.harvested ≡ self.old.harvested }
    {
        if is_open(&self.loaded, lit.var()) {
            prove_units(self.solver.log());
            self.fix(words, lit);
        }
    }
}

/// Publishes a variable that the seat has fixed, with the stamp after the log's clock.
fn publish_next(words: &Words, seat: &mut Seat, var: u32, log: &Log)
    requires seat { Sits words.now seat.old }
    requires clock { log.now.clock ≤ 2 ^ 20 }
    requires publishes { MayPublish seat.old.view var (log.now.clock + 1) }
    ensures published { seat.new ≡ with_view seat.old (publish_view var (log.now.clock + 1) seat.old.view) }
    ensures sits { Sits words.now seat.new }
    ensures once { IsOnce words.now.about seat.new.view }
{
    publish(words, seat, var, log.clock() + 1);
}

/// What a log shows by itself holds in every model.
pub fn prove_units(log: &Log)
    ensures log { IsLog log.now }
    ensures units { (l : Literal) → HasUnit log.now l → Entails log.now.formula l }
{
    let _len = log.len();
    logged_clause_is_entailed();
}
