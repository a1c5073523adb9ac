ghost use Rattle.std.specs.Prelude.{◌≡◌, ◌↔◌, IsTrue};
ghost use Rattle.worker_loop.specs.declared.endings.TurnEnd.{TurnEnd};
ghost use Rattle.worker_loop.specs.Steps.Handing.{end_of};

/// What a turn came to.
#[derive(Clone, Copy, Debug, PartialEq, Eq)]
pub enum TurnEnd {
    /// A candidate was closed, and another turn may follow.
    Going,
    /// Nothing was open.
    Done,
    /// The log holds as many learnt clauses as the budget allows.
    Spent,
    /// Want of memory.
    Memory,
}

impl TurnEnd {
    /// Whether another turn may follow.
    pub(crate) fn is_going(self) -> bool
        ensures { IsTrue result ↔ (self ≡ TurnEnd.Going) }
    {
        matches!(self, TurnEnd::Going)
    }
}

/// Why a worker ended.
#[derive(Clone, Copy, Debug, PartialEq, Eq)]
pub enum End {
    /// Nothing was open.
    Done,
    /// Its log is full for its budget.
    Spent,
    /// Want of memory.
    Memory,
}

impl From<TurnEnd> for End {
    /// Why a worker ends after a turn that came to this. A turn that answers `Going` is not the last one.
    fn from(end: TurnEnd) -> End
        ensures { result ≡ end_of end }
    {
        match end {
            TurnEnd::Going | TurnEnd::Done => End::Done,
            TurnEnd::Spent => End::Spent,
            TurnEnd::Memory => End::Memory,
        }
    }
}
