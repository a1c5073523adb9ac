//! What holds of every board by the definitions alone. The functions do nothing: each one's contract is the law.
ghost use Rattle.board_core.specs.Example.{RunIsWorked};
ghost use Rattle.board_core.specs.Laws.{EveryRun};

/// Over every list of events from the opening, each lawful after those before it, and with any number of
/// views: the board keeps its rule and that of the clocks; no candidate returns, since each later word is a
/// later one; none is both dropped and fixed; and where none is open, the phase literals of the fixed
/// variables are the shown members of the backbone.
pub fn every_run()
    ensures { EveryRun }
{}

/// A small run, worked by the definitions: over the clauses 32 and -33 with all phases true but that of 33, the root
/// drops variable 1, a view that it splits off fixes 32, and after the join the root has both.
pub fn worked_example()
    ensures { RunIsWorked }
{}
