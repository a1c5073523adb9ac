//! What holds of every formula by the definitions alone. The functions do nothing: each one's contract is the law.
ghost use Rattle.std.specs.Prelude.{ℕ};
ghost use Rattle.cnf_core.specs.Example.{ChainIsWorked};
ghost use Rattle.cnf_core.specs.Laws.{HasEachOnce, ModelsAreMembers, EntailedByRefutation, BackboneInOneModel, BackboneByMembers, FlippedModel};
ghost use Rattle.cnf_core.specs.Laws.{BackboneDetermined, ShownBackboneInOneModel, ShownBackboneByMembers, ShownBackboneDetermined};

/// The definitions, worked on the formula of three clauses `1`, `-1 2` and `2 3` over three variables:
/// it has two models, and its backbone is 1 and 2.
pub fn worked_example()
    ensures { ChainIsWorked }
{}

/// For each number of variables, every assignment is in the list of all of them, no other list of truth
/// values is, and none stands there twice.
pub fn every_assignment_once()
    ensures { (n : ℕ) → HasEachOnce n }
{}

/// The list of a formula's models has just the assignments that give each variable a value and make
/// every clause true.
pub fn models_are_members()
    ensures { ModelsAreMembers }
{}

/// A literal is true in every model exactly where adding its negation as a clause leaves no model.
pub fn entailed_when_negation_has_no_model()
    ensures { EntailedByRefutation }
{}

/// Of any one model's literals, those that are true in every model are the backbone.
pub fn backbone_from_one_model()
    ensures { BackboneInOneModel }
{}

/// The backbone of a formula that has a model rises by variable, has variables of the formula alone, and
/// of their literals just those that are true in every model.
pub fn backbone_by_members()
    ensures { BackboneByMembers }
{}

/// A list that rises by variable and has just the formula's literals that are true in every model is the
/// backbone.
pub fn backbone_is_determined()
    ensures { BackboneDetermined }
{}

/// Of any one model's literals, those that are shown and true in every model are the shown members of the
/// backbone.
pub fn shown_backbone_from_one_model()
    ensures { ShownBackboneInOneModel }
{}

/// The shown members of the backbone rise by variable, and are just the shown literals that are true in
/// every model.
pub fn shown_backbone_by_members()
    ensures { ShownBackboneByMembers }
{}

/// A list that rises by variable and has just the shown literals that are true in every model is that of
/// the shown members.
pub fn shown_backbone_is_determined()
    ensures { ShownBackboneDetermined }
{}

/// A model with the value of one variable flipped is a model exactly where no clause is kept true by
/// that variable's literal alone.
pub fn flip_keeps_model()
    ensures { FlippedModel }
{}
