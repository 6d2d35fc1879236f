//! The round to which the deques of a type belong, and what they may contain.

ghost use Rattle.std.specs.Prelude.{[]};
ghost use Rattle.fr_round.specs.declared.view.Setup.{Setup};

use crossbeam_deque::protocol::{Lesson, Outcome, Protocol};
use std::marker::{Brand, PhantomData};

/// The setup of a round, as the type of its deques names it. It is chosen where the round is settled.
pub(crate) trait Naming {
    ghost setup: { Setup };
}

impl Naming for Brand {
    ghost setup = { record { nodes = 0; dest = 0; links = []; workers = 0 } };
}

/// The rule of the deques of a round, and what each call on them shows: every task is a candidate of the round.
pub(crate) struct CandidateProtocol<J>(PhantomData<J>);

impl<J: Naming> Protocol<u32, ()> for CandidateProtocol<J> {
    ghost use Rattle.std.specs.Prelude.{All};
    ghost use Rattle.fr_crew.specs.Candidates.{IsCandidate};

    ghost holds = { λ tasks _. All (IsCandidate J.setup) tasks };

    ghost first = { tt };

    ghost guest = { tt };
}

// What the length of a deque shows: nothing.
impl<J: Naming> Lesson<u32, ()> for CandidateProtocol<J> {
    ghost use Rattle.std.specs.Prelude.{⊤};

    ghost fact = { λ _ _. ⊤ };
}

impl<J: Naming> Outcome<u32, ()> for CandidateProtocol<J> {
    ghost use Rattle.std.specs.Prelude.{All};
    ghost use Rattle.fr_crew.specs.Candidates.{IsCandidate};

    ghost then = { λ _ tasks _. All (IsCandidate J.setup) tasks };
}
