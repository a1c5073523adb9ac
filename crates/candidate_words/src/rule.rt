//! The rule of the table, and the kinds of its steps.
use atomic_table::{Join, Play, Split, TableRule};
use board_core::{Opened, View};

/// The table keeps the board's rule and that of its clocks.
pub(crate) struct BoardRule;

impl TableRule<u8, View, Opened> for BoardRule {
    ghost use Rattle.board_core.specs.Boards.{root_view};
    ghost use Rattle.candidate_words.specs.Steps.Tables.{Holds};

    ghost holds = { Holds };

    ghost first = { root_view };
}

/// A load of a group's word.
pub(crate) struct Loads;

impl Play<u8, View> for Loads {
    ghost use Rattle.candidate_words.specs.Steps.Plays.{Loaded};

    ghost then = { Loaded };
}

/// A fetch-and that clears alive bits.
pub(crate) struct Drops;

impl Play<u8, View> for Drops {
    ghost use Rattle.candidate_words.specs.Steps.Plays.{Dropped};

    ghost then = { Dropped };
}

/// A fetch-or that sets fixed bits.
pub(crate) struct Fixes;

impl Play<u8, View> for Fixes {
    ghost use Rattle.candidate_words.specs.Steps.Plays.{Fixed};

    ghost then = { Fixed };
}

/// A fetch-or of an origin word that was 0.
pub(crate) struct Publishes;

impl Play<u8, View> for Publishes {
    ghost use Rattle.candidate_words.specs.Steps.Plays.{Published};

    ghost then = { Published };
}

/// A load of an origin word.
pub(crate) struct Asks;

impl Play<u8, View> for Asks {
    ghost use Rattle.candidate_words.specs.Steps.Plays.{Asked};

    ghost then = { Asked };
}

/// A load that leaves the view as it is.
pub(crate) struct Looks;

impl Play<u8, View> for Looks {
    ghost use Rattle.candidate_words.specs.Steps.Plays.{Looked};

    ghost then = { Looked };
}

/// How the root's view is cut in two, and how it takes in another.
pub(crate) struct Views;

impl Split<View> for Views {
    ghost use Rattle.board_core.specs.Boards.{parent, child};

    ghost left = { parent };

    ghost right = { child };
}

impl Join<View> for Views {
    ghost use Rattle.board_core.specs.Boards.{joined, spent_view};

    ghost both = { joined };

    ghost spent = { spent_view };
}
