//! What a seat of a table knew at one moment, as a value that threads hand on.

ghost use Rattle.std.specs.Prelude.{◌≡◌, []};

use crate::view::View;
use atomic_table::Seat;
use std::marker::Model;

/// All pushes that the publisher, or a reader, knew at one moment. One thread gives it to another, whose reader learns
/// them by [`Reader::learn`](crate::Reader::learn). It has no bytes.
#[derive(Drop)]
pub struct Past<T> {
    seat: Seat<(), View<T>>,
}

impl<T> Model for Past<T> {
    ghost use Rattle.std.specs.Prelude.{◌≡◌, []};
    ghost use Rattle.fr_shared.specs.Knowledge.{KnownPast};

    ghost Value = { KnownPast T };

    ghost view = { λ p. record { table = p.seat.table_id; known = p.seat.me.0.known } };

    ghost invariant = { λ p. p.seat.me.1 ≡ [] };
}

impl<T> Past<T> {
    /// What this seat knows.
    pub(crate) fn new(seat: Seat<(), View<T>>) -> Past<T>
        requires { seat.me.1 ≡ [] }
        ensures { result ≡ record { table = seat.table_id; known = seat.me.0.known } }
    {
        Past { seat }
    }

    /// Its seat.
    pub(crate) fn into_seat(self) -> Seat<(), View<T>>
        ensures { (result.table_id ≡ self.table) × (result.me.1 ≡ []) × (result.me.0.known ≡ self.known) }
    {
        self.seat
    }
}
