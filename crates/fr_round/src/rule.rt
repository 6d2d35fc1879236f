//! The rule: what holds of the words of a round, and of what its seats know, between any two steps. The steps: what
//! each one shows the seat that takes it.

use crate::round_setup::RoundSetup;
use crate::view::View;
use atomic_table::{Join, Play, Split, TableRule};

/// One history explains the words and all that the seats know.
pub struct Rule;

impl TableRule<(), View, RoundSetup> for Rule {
    ghost use Rattle.fr_round.specs.Rule.{KeepsRule, opening_view};
    ghost use Rattle.fr_round.specs.Setups.{setup_of};

    ghost holds = { λ k s. KeepsRule (setup_of k) s };

    ghost first = { λ k. opening_view (setup_of k) };
}

/// A call's load of its node's own count.
pub struct LoadOwn;

impl Play<(), View> for LoadOwn {
    ghost use Rattle.fr_round.specs.Steps.{own_loaded};

    ghost then = { own_loaded };
}

/// The load of the count of a neighbour to which the link pointed first.
pub struct LoadOutwardNeighbour;

impl Play<(), View> for LoadOutwardNeighbour {
    ghost use Rattle.fr_round.specs.Steps.{neighbour_loaded};

    ghost then = { neighbour_loaded 1 };
}

/// The load of the count of a neighbour from which the link pointed first.
pub struct LoadInwardNeighbour;

impl Play<(), View> for LoadInwardNeighbour {
    ghost use Rattle.fr_round.specs.Steps.{neighbour_loaded};

    ghost then = { neighbour_loaded 0 };
}

/// The exchange that turns a node.
pub struct Exchange;

impl Play<(), View> for Exchange {
    ghost use Rattle.fr_round.specs.Steps.{exchange_made};

    ghost then = { exchange_made };
}

/// A look's first load of its node's own count.
pub struct LoadToLook;

impl Play<(), View> for LoadToLook {
    ghost use Rattle.fr_round.specs.Steps.{look_begun};

    ghost then = { look_begun };
}

/// A look's second load of its node's own count.
pub struct LoadToConfirm;

impl Play<(), View> for LoadToConfirm {
    ghost use Rattle.fr_round.specs.Steps.{look_ended};

    ghost then = { look_ended };
}

/// The step with which the opening seat gives out a number.
pub struct NumberWorker;

impl Split<View> for NumberWorker {
    ghost use Rattle.fr_round.specs.Rule.{numbered_next, worker_view};

    ghost left = { numbered_next };

    ghost right = { worker_view };
}

/// How what a worker knows gets a seat of its own.
pub struct HandOn;

impl Split<View> for HandOn {
    ghost use Rattle.fr_round.specs.Rule.{past_view};

    ghost left = { λ v. v };

    ghost right = { past_view };
}

/// How a worker takes in what another one knew.
pub struct Receive;

impl Join<View> for Receive {
    ghost use Rattle.fr_round.specs.Rule.{with_received, spent_view};

    ghost both = { with_received };

    ghost spent = { spent_view };
}

/// The load after which it knows both lists.
pub struct CatchUp;

impl Play<(), View> for CatchUp {
    ghost use Rattle.fr_round.specs.Steps.{caught_up};

    ghost then = { caught_up };
}

/// The load with which a closing seat enters.
pub struct BeginClosing;

impl Play<(), View> for BeginClosing {
    ghost use Rattle.fr_round.specs.Steps.{closing_begun};

    ghost then = { closing_begun };
}

/// The step with which a closing seat takes a worker back.
pub struct TakeWorker;

impl Join<View> for TakeWorker {
    ghost use Rattle.fr_round.specs.Rule.{with_taken, spent_view};

    ghost both = { with_taken };

    ghost spent = { spent_view };
}
