use board_core::View;
use std::marker::Model;

/// One worker's place at the table. It has no bytes.
#[derive(Drop)]
pub struct Seat {
    pub(crate) place: atomic_table::Seat<u8, View>,
}

impl Model for Seat {
    ghost use Rattle.std.specs.Prelude.{◌≡◌, []};
    ghost use Rattle.candidate_words.specs.Seats.{Sitter};

    ghost Value = { Sitter };

    ghost view = { λ s. record { table = s.place.table_id; view = s.place.me.0 } };

    ghost invariant = { λ s. s.place.me.1 ≡ [] };
}
