ghost use Rattle.std.specs.Prelude.{◌≡◌, ◌+◌, ◌^◌, ◌≤◌, ℕ, [], ◌∷◌, IfOk};
ghost use Rattle.cnf_core.specs.Literals.{negated};
ghost use Rattle.lrat_lines.specs.Propagation.{Known};
ghost use Rattle.conflict_analysis.specs.Members.{IsMapOf, IsProof};
ghost use Rattle.trail_core.specs.TrueAndFalse.{IsFalse};
ghost use Rattle.conflict_analysis.specs.Reasons.{IsReasoned, IsRootLiteral, IsConflict, IsRootConflict};
ghost use Rattle.conflict_analysis.specs.Answers.{IsLearnt, IsCore};

use crate::walk::Walk;
use clause_arena::{Arena, ClauseRef};
use cnf_core::{Clause, Lit, NoMemory};
use lrat_lines::Ids;
use std::alloc::Global;
use std::marker::Model;
use trail_core::Trail;

/// A clause that follows from clauses that are known by their ids.
#[derive(Debug, Drop)]
pub struct Learnt {
    pub lits: Clause,
    /// The level to go back to.
    pub back: u32,
    /// The ids whose clauses prove it, in the order in which a checker takes them.
    pub hints: Ids,
}

/// Analyses conflicts of trails for one number of variables.
///
/// Its marks and buffers are kept from call to call, and none is cleared by going over the variables:
/// a mark counts for one call. So a call costs what the clauses cost that it resolves on, and takes
/// memory for its answer where none was given back ([`Analyser::recycle`]), and for buffers that grow. A call
/// without memory leaves nothing behind.
#[derive(Debug, Drop)]
pub struct Analyser {
    walk: Walk,
    vars: u32,
}

impl Model for Analyser {
    ghost use Rattle.std.specs.Prelude.{◌≡◌, ℕ, ◌+◌, length};

    ghost Value = { ℕ };

    ghost view = { λ a. a.vars };

    ghost invariant = { λ a. length a.walk.stamps ≡ a.vars + 1 };
}

impl Analyser {
    /// An analyser for the variables 1 to so many, at most 2^20.
    pub fn new(alloc: Global, vars: u32) -> Result<Analyser, NoMemory>
        requires { vars ≤ 2 ^ 20 }
        ensures { IfOk result (λ a. a ≡ vars) }
    {
        Ok(Analyser {
            walk: Walk::new(alloc, vars)?,
            vars,
        })
    }

    /// The clause of the first unique implication point (Marques-Silva and Sakallah, 1996; Moskewicz
    /// and others, 2001): its first literal is the one that is false at the present level. The conflict
    /// is a live clause that is false at the present level, which is above the root, and the root
    /// entries have units as reasons.
    pub fn analyse(
        &mut self,
        arena: &Arena,
        trail: &Trail,
        conflict: ClauseRef,
    ) -> Result<Learnt, NoMemory>
        requires vars { self.old ≡ trail.now.vars }
        requires reasons { IsReasoned arena.now trail.now.entries }
        requires conflict { IsConflict arena.now trail.now conflict }
        ensures learnt { IfOk result (λ l. IsLearnt arena.now trail.now l.lits l.back l.hints) }
        ensures same { self.new ≡ self.old }
    {
        self.walk.learn(arena, trail, conflict)
    }

    /// Takes back the memory of an answer, for the next one of [`Analyser::analyse`].
    pub fn recycle(&mut self, learnt: Learnt)
        ensures { self.new ≡ self.old }
    {
        self.walk.recycle(learnt);
    }

    /// The variables above the root that the last [`Analyser::analyse`] met, each once, in the order of meeting:
    /// those that a chooser is told of.
    pub fn seen(&self) -> &[u32] {
        self.walk.seen()
    }

    /// The hints that prove the empty clause, where a live clause is false at the root.
    pub fn refute_root(
        &mut self,
        arena: &Arena,
        trail: &Trail,
        conflict: ClauseRef,
    ) -> Result<Ids, NoMemory>
        requires vars { self.old ≡ trail.now.vars }
        requires reasons { IsReasoned arena.now trail.now.entries }
        requires conflict { IsRootConflict arena.now trail.now.entries conflict }
        ensures proved { IfOk result (λ hints. (known : Known) → IsMapOf arena.now trail.now.entries known
            → IsProof known hints []) }
        ensures same { self.new ≡ self.old }
    {
        self.walk.refute(arena, trail, conflict)
    }

    /// The hints that prove a literal as a unit clause: the units of the other literals of its reason, and the
    /// reason. The literal is true at the root, and the entries before its own have units as reasons. So a
    /// search that goes along its root entries shows each of them in the length of its reason.
    pub fn unit_hints(&mut self, arena: &Arena, trail: &Trail, lit: Lit) -> Result<Ids, NoMemory>
        requires reasons { IsReasoned arena.now trail.now.entries }
        requires root { IsRootLiteral trail.now.entries lit }
        ensures proved { IfOk result (λ hints. (known : Known) → IsMapOf arena.now trail.now.entries known
            → IsProof known hints (lit ∷ [])) }
        ensures same { self.new ≡ self.old }
    {
        self.walk.unit(arena, trail, lit)
    }

    /// Why a literal is false: a clause that has its negation, and otherwise negations of decisions. The
    /// level to go back to is 0. The walk ends at the first decision that is gathered.
    pub fn final_core(&mut self, arena: &Arena, trail: &Trail, lit: Lit) -> Result<Learnt, NoMemory>
        requires vars { self.old ≡ trail.now.vars }
        requires reasons { IsReasoned arena.now trail.now.entries }
        requires falsified { IsFalse trail.now.entries lit }
        ensures core { IfOk result (λ l. IsCore arena.now trail.now lit l.lits l.hints) }
        ensures back { IfOk result (λ l. l.back ≡ 0) }
        ensures same { self.new ≡ self.old }
    {
        self.walk.core(arena, trail, lit)
    }
}
