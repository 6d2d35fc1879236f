//! Workers that turn the nodes of a network by single loads and exchanges, one step at a time.

ghost use Rattle.std.specs.Prelude.{◌≡◌, ◌≢◌, ◌<◌, ◌++◌, [], List, All, length, option_to_list, IfOk, IfErr};
ghost use Rattle.fr_graph.specs.Counts.{AreLawful, links_at};
ghost use Rattle.fr_graph.specs.Links.{IsAcyclic};
ghost use Rattle.fr_core.specs.Machine.{step, outcome_of, entry_of, entries_of};
ghost use Rattle.fr_core.specs.Played.{HasCome, started};
ghost use Rattle.fr_core.specs.Runs.{IsRunTo};
ghost use Rattle.fr_core.specs.Targets.{IsMachineFault, AreAllAccepted, lists_of};
ghost use Rattle.fr_core.specs.declared.entry.Entry.{Entry};
ghost use Rattle.fr_core.specs.declared.targets.Target.{Target};
ghost use Rattle.fr_core.specs.declared.play_fault.PlayFault.TheVariants.{Memory};

use crate::entry::Entry;
use crate::play_fault::PlayFault;
use crate::targets::{Target, find_refused_target};
use crate::worker::Worker;
use fr_graph::Net;
use std::alloc::{AllocError, Global};
use std::marker::Model;

/// Workers at the counts of a network, each with its targets. A step is an atomic load, or an atomic compare and
/// exchange, of one count. The caller chooses who makes the next step, so it can go through any interleaving. The
/// decided calls are always a run: each reply is the one that full reversal on one thread gives at that point.
/// `HasCome` says which entries brought a machine to its state; the clauses `come` of `new` and `step`, and `run` of
/// `counts`, use it. A step does not allocate.
#[derive(Debug, Drop)]
pub struct Machine<'a> {
    net: &'a Net,
    // Only for contracts, which say that the counts are lawful.
    dest: u32,
    counts: Vec<u64>,
    workers: Vec<Worker>,
}

impl<'a> Model for Machine<'a> {
    ghost use Rattle.fr_core.specs.Played.{MachineView};

    ghost Value = { MachineView };

    ghost use Rattle.fr_core.specs.Sound.{IsSoundMachine, view_of};

    ghost view = { λ s. view_of s.net.now.nodes s.dest s.net.now.links s.counts.items s.workers.items };

    ghost invariant = { λ s. IsSoundMachine
        (view_of s.net.now.nodes s.dest s.net.now.links s.counts.items s.workers.items) };
}

impl<'a> Machine<'a> {
    /// Makes a machine before its first step, with a worker for each list of targets.
    ///
    /// Fails with `Range` if `dest` is not a node; with `BadTarget` and the first target that is not a node, has no
    /// link, or is a turn of the destination; and with `Memory` if there is no memory for the counts or the workers.
    /// The faults are tested in this order. O(n + k) for k targets.
    pub fn new(
        alloc: Global,
        net: &'a Net,
        dest: u32,
        targets: Vec<Vec<Target>>,
    ) -> Result<Machine<'a>, PlayFault>
        ensures ok { IfOk result (λ m. m ≡ started net.now.nodes dest net.now.links (lists_of targets.items)) }
        ensures destination { IfOk result (λ _. dest < net.now.nodes) }
        ensures come { IfOk result (λ m. HasCome m (lists_of targets.items) []) }
        // Only if no target is bad.
        ensures accepted { IfOk result (λ _. AreAllAccepted net.now.nodes dest net.now.links
            (lists_of targets.items)) }
        // `Range` exactly if the destination is not a node, else `BadTarget` for the first bad target.
        ensures refused { IfErr result
            (λ fault. fault ≢ Memory → IsMachineFault net.now.nodes dest net.now.links (lists_of targets.items) fault) }
    {
        if dest >= net.nodes() {
            return Err(PlayFault::Range);
        }
        if let Some((worker, at)) = find_refused_target(net, dest, &targets) {
            return Err(PlayFault::BadTarget { worker, at });
        }
        Ok(Machine::start(alloc, net, dest, targets)?)
    }

    /// The machine, if there is no fault.
    fn start(
        alloc: Global,
        net: &'a Net,
        dest: u32,
        targets: Vec<Vec<Target>>,
    ) -> Result<Machine<'a>, AllocError>
        requires { AreAllAccepted net.now.nodes dest net.now.links (lists_of targets.items) }
        ensures { IfOk result (λ m. m ≡ started net.now.nodes dest net.now.links (lists_of targets.items)) }
    {
        let counts = vec![in alloc; 0u64; net.nodes() as usize]?;
        let mut workers = Vec::with_capacity(alloc, targets.len())?;
        for list in targets {
            workers.push(Worker::new(list))?;
        }
        Ok(Machine {
            net,
            dest,
            counts,
            workers,
        })
    }

    /// The number of workers. O(1).
    pub fn workers(&self) -> usize
        ensures { result ≡ length self.now.state.workers }
    {
        self.workers.len()
    }

    /// How often each node has turned. `O(1)`.
    pub fn counts(&self) -> &[u64]
        ensures value { result.now ≡ self.now.state.counts }
        ensures lawful { AreLawful self.now.nodes self.now.dest self.now.links self.now.state.counts }
        ensures acyclic { IsAcyclic (links_at self.now.links self.now.state.counts) }
        // The entries that the steps have returned are a run that leads to the counts.
        ensures run { (targets : List (List Target)) (entries : List Entry) → HasCome self.now targets entries
            → IsRunTo self.now.nodes self.now.dest self.now.links entries self.now.state.counts }
    {
        &self.counts
    }

    /// Makes one atomic step of a worker, which must be below the number of workers. Returns the entry if the step
    /// decides a call. After a worker has used up its targets, its steps change nothing. O(1).
    pub fn step(&mut self, worker: u32) -> Option<Entry>
        requires { worker < length self.old.state.workers }
        // The step is the one in the table of steps.
        ensures next { self.new ≡ record self.old { state = step self.old.nodes self.old.links self.old.state worker } }
        // The result is the entry that the step decides, if any.
        ensures entry { option_to_list result
            ≡ entry_of worker (outcome_of self.old.nodes self.old.links self.old.state worker).decided }
        // The entries that the steps have returned stay a run that leads to the counts.
        ensures come { (targets : List (List Target)) (entries : List Entry) → HasCome self.old targets entries
            → HasCome self.new targets (entries ++ option_to_list result) }
    {
        let (node, reply) = self.workers[worker as usize].step(self.net, &mut self.counts)?;
        Some(Entry {
            worker,
            node,
            reply,
        })
    }

    /// Makes a step for each number of the schedule, and returns the entries that these steps decide.
    pub(crate) fn follow_schedule(
        &mut self,
        alloc: Global,
        schedule: &[u32],
    ) -> Result<Vec<Entry>, AllocError>
        requires { All (λ k. k < length self.old.state.workers) schedule.now }
        ensures { IfOk result (λ entries. entries.items
            ≡ entries_of self.old.nodes self.old.links self.old.state schedule.now) }
    {
        let mut entries = Vec::new(alloc);
        for worker in schedule {
            if let Some(entry) = self.step(*worker) {
                entries.push(entry)?;
            }
        }
        Ok(entries)
    }
}
