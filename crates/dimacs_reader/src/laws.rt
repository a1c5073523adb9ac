//! Texts worked by the definition, and what holds of every plain text.

ghost use Rattle.std.specs.Prelude.{◌≡◌, ℕ, List};
ghost use Rattle.cnf_core.specs.Formulas.{Cnf, IsFormula};
ghost use Rattle.dimacs_reader.specs.Examples.{TextsAreWorked};
ghost use Rattle.dimacs_reader.specs.PlainText.{plain_text, IsPlain};
ghost use Rattle.dimacs_reader.specs.Reading.{reading_of};

/// Formulas and faults of small texts, among them each kind of fault.
pub fn worked_texts()
    ensures { TextsAreWorked }
{}

/// A plain spelling is read as the formula that it spells.
pub fn plain_text_reads_back()
    ensures { (F : Cnf) → IsFormula F → reading_of (plain_text F) ≡ Ok F }
{}

/// A text is the plain spelling of at most one formula.
pub fn plain_text_spells_one()
    ensures { (text : List ℕ) (F G : Cnf) → IsPlain text F → IsPlain text G → F ≡ G }
{}
