ghost use Rattle.std.specs.Prelude.{◌≡◌, None};
ghost use Rattle.run_core.specs.declared.outcome.Outcome.{Outcome};

use cnf_core::{Lit, NoMemory};
use lrat_lines::Proof;
use lrat_log::Log;
use model_store::{ModelStore, Witness};

/// What is known of a formula's backbone, with the evidence.
#[derive(Debug, Drop)]
pub struct Report<'f> {
    /// A tidy proof, accepted from the formula alone, with a line of just the literal for each fixed one.
    pub proof: Proof,
    /// Models of the formula. The first of them gives each variable its phase.
    pub models: ModelStore<'f>,
    /// The shown variables that aren't forced, by variable, each with a model against its phase.
    pub drops: Vec<Witness>,
    /// The phase literals of shown variables that every model makes true, by variable.
    pub fixes: Vec<Lit>,
}

/// How a run ends.
#[derive(Debug, Drop)]
pub enum Outcome<'f> {
    /// Every shown variable is dropped or fixed: the fixed literals are the shown members of the backbone.
    Complete(Report<'f>),
    /// The formula has no model: a tidy proof of the empty clause.
    Unsat(Proof),
    /// A shown variable is neither, and every worker's log holds as many learnt clauses as the budget allows.
    Partial(Report<'f>, Vec<Log<'f>>),
    /// No model was found, and the first search's log holds as many learnt clauses as the budget allows.
    Unknown(Log<'f>),
    /// Want of memory. Where what the workers handed in makes a report, a shown variable is neither dropped nor fixed
    /// in it.
    Memory(Option<Report<'f>>),
}

impl<'f> From<NoMemory> for Outcome<'f> {
    ghost from_gives = { λ _ outcome. outcome ≡ Outcome.Memory None };

    fn from(_error: NoMemory) -> Outcome<'f> {
        Outcome::Memory(None)
    }
}
