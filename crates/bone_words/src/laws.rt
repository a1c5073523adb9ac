//! What given words ask for, by the definitions alone. The functions do nothing: each one's contract is the law.
ghost use Rattle.bone_words.specs.Laws.{NeedsNoOption, LinesAreWorked};

/// `extract`, alone or before a name that doesn't begin with a dash, asks for that text with all defaults.
pub fn extract_needs_no_option()
    ensures { NeedsNoOption }
{}

/// Some command lines, worked by the definition: each with its settings, or with none.
pub fn worked_lines()
    ensures { LinesAreWorked }
{}
