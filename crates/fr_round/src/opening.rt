//! How a round gets its words, its workers, and the memory that closing needs.

ghost use Rattle.std.specs.Prelude.{◌≡◌, ◌≤◌, ◌<◌, ◌^◌, IfOk, length, [], vec_capacity, replicate};
ghost use Rattle.fr_graph.specs.Links.{IsNet};
ghost use Rattle.fr_round.specs.Knowledge.{new_workers};
ghost use Rattle.fr_round.specs.Setups.{setup_of};
ghost use Rattle.fr_round.specs.Seated.{IsTableOf};

use crate::round_setup::RoundSetup;
use crate::rule::NumberWorker;
use crate::seen_counts::Seen;
use crate::words::RoundTable;
use crate::worker::Worker;
use atomic_table::Table;
use std::alloc::{AllocError, Global};

/// The table of the words of a round, and its workers.
struct Seated {
    table: RoundTable,
    workers: Vec<Worker>,
}

fn zeros(alloc: Global, count: u32) -> Result<Vec<u64>, AllocError>
    ensures { IfOk result (λ v. v.items ≡ replicate count 0) }
{
    vec![in alloc; 0u64; count as usize]
}

/// The words, all 0, and the workers. The seat that gives out their numbers is dropped at the end, because threads
/// could not share it.
fn make_table(alloc: Global, round_setup: &RoundSetup) -> Result<Seated, AllocError>
    requires dest { round_setup.now.dest < round_setup.now.net.nodes }
    requires net { IsNet round_setup.now.net.nodes round_setup.now.net.links }
    ensures table { IfOk result (λ d. IsTableOf round_setup.now d.table.shared) }
    ensures workers { IfOk result
        (λ d. d.workers.items ≡ new_workers d.table.shared.table_id (setup_of round_setup.now) round_setup.now.workers) }
{
    let nodes = round_setup.net.nodes();
    let words = zeros(alloc, nodes)?;
    let (table, mut opening) = Table::of_words(alloc, words.as_slice(), round_setup)?;
    let unseen = Seen::new(alloc, &round_setup.net)?;
    let mut workers = Vec::new(alloc);
    for number in 0..round_setup.workers {
        let seen = unseen.to_copy(alloc)?;
        let seat = table.shared.split_seat::<NumberWorker>(&mut opening);
        workers.push(Worker::new(seat, number, seen))?;
    }
    Ok(Seated { table, workers })
}

/// The words, the workers, and the memory that closing needs.
pub(crate) struct Prepared {
    pub table: RoundTable,
    pub workers: Vec<Worker>,
    pub counts: Vec<u64>,
    pub turned: Vec<(u32, u64)>,
}

pub(crate) fn prepare_round(alloc: Global, round_setup: &RoundSetup) -> Result<Prepared, AllocError>
    requires dest { round_setup.now.dest < round_setup.now.net.nodes }
    requires net { IsNet round_setup.now.net.nodes round_setup.now.net.links }
    ensures table { IfOk result (λ p. IsTableOf round_setup.now p.table.shared) }
    ensures workers { IfOk result
        (λ p. p.workers.items ≡ new_workers p.table.shared.table_id (setup_of round_setup.now) round_setup.now.workers) }
    ensures counts { IfOk result (λ p. length p.counts.items ≡ round_setup.now.net.nodes) }
    ensures turned { IfOk result (λ p. (p.turned.items ≡ []) × (round_setup.now.workers ≤ vec_capacity p.turned)) }
{
    let counts = zeros(alloc, round_setup.net.nodes())?;
    let turned = Vec::with_capacity(alloc, round_setup.workers as usize)?;
    let Seated { table, workers } = make_table(alloc, round_setup)?;
    Ok(Prepared {
        table,
        workers,
        counts,
        turned,
    })
}
