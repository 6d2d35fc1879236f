//! What a worker knew at one moment, as a value that threads hand on.

ghost use Rattle.std.specs.Prelude.{◌≡◌, []};

use crate::turn_call::RoundSeat;
use std::marker::Model;

/// What a worker knew at one moment: the list of calls up to its last one. One thread gives it to another, whose worker
/// learns it by [`Round::learn`](crate::Round::learn).
#[derive(Drop)]
pub struct Past {
    seat: RoundSeat,
}

impl Model for Past {
    ghost use Rattle.fr_round.specs.Knowledge.{KnownPast};

    ghost Value = { KnownPast };

    ghost use Rattle.fr_round.specs.PastInside.{known_past, IsSoundPast};

    ghost view = { known_past };

    ghost invariant = { IsSoundPast };
}

impl Past {
    /// What this seat knows.
    pub(crate) fn new(seat: RoundSeat) -> Past
        requires { seat.me.1 ≡ [] }
        ensures { result ≡ record { table = seat.table_id; known = seat.me.0.known } }
    {
        Past { seat }
    }

    /// Its seat, and nothing else of it.
    pub(crate) fn into_seat(self) -> RoundSeat
        ensures { (result.table_id ≡ self.table) × (result.me.1 ≡ []) × (result.me.0.known ≡ self.known) }
    {
        self.seat
    }
}
