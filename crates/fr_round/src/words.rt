//! The words of a round.

use crate::round_setup::RoundSetup;
use crate::rule::Rule;
use crate::view::View;
use atomic_table::Table;
use std::alloc::Global;

/// The table of the words of a round.
pub(crate) type RoundTable = Table<(), View, RoundSetup, Rule, Global>;

/// The terms of a round, and its words.
#[derive(Drop)]
pub(crate) struct Words {
    pub round_setup: RoundSetup,
    pub table: RoundTable,
}
