ghost use Rattle.std.specs.Prelude.{◌≡◌};
ghost use Rattle.board_core.specs.Subjects.{about};

use cnf_core::{Formula, Values};
use std::marker::Model;
use std::snapshot::Snapshot;

/// What a board was opened for: a formula, and the model of it that gives each candidate its phase. It has
/// no bytes, and only contracts read it.
#[derive(Drop)]
pub struct Opened {
    formula: Snapshot<Formula>,
    phases: Snapshot<Values>,
}

impl Model for Opened {
    ghost use Rattle.board_core.specs.Subjects.{About, about};

    ghost Value = { About };

    ghost view = { λ o. about o.formula.value o.phases.value };
}

impl Opened {
    /// What a board for this formula and these phases was opened for.
    pub fn of(formula: &Formula, phases: &Values) -> Opened
        ensures { result ≡ about formula.now phases.now }
    {
        Opened {
            formula: Snapshot::of(formula),
            phases: Snapshot::of(phases),
        }
    }
}
