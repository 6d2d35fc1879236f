//! Gates, which are called before and after each call of a worker.

ghost use Rattle.std.specs.Prelude.{ℕ, ◌≤◌};
ghost use Rattle.fr_crew.specs.Gates.{EachBefore};

/// Each worker of a crew calls its gate before and after each of its calls that try to turn a node, so a gate can watch
/// the workers or delay them. The calls of a worker are numbered from 1. All threads of a crew share the gate, and no
/// lock is held while it is called. A crew waits for its threads, so it ends only if each call of its gate returns. The
/// cost is that of the implementation.
///
/// The clauses say in which order a worker calls its gate: before its call `k`, it has called `after` for each of its
/// earlier calls, and it calls `after` for `k` only once it has called `before` for `k`. They do not say that it makes
/// each of these calls only once.
pub trait Gate {
    /// A fact that each call of `before` establishes for this worker and this call. An implementation may choose one.
    ghost entered: { Self → ℕ → ℕ → Type 0 } = { λ _ _ _. Unit {0} };

    /// A fact that each call of `after` establishes for this worker and this call. An implementation may choose one.
    ghost passed: { Self → ℕ → ℕ → Type 0 } = { λ _ _ _. Unit {0} };

    /// Whether a call of the gate may wait for what another worker does. Then other workers can steal each candidate of a
    /// worker during its calls of the gate. If the gate never waits, the crew is faster.
    fn may_wait(&self) -> bool {
        true
    }

    /// A worker calls this before its call with this number.
    fn before(&self, worker: u32, call: u64)
        // A worker's calls are numbered from 1.
        requires numbered { 1 ≤ call }
        // The worker has called `after` for all earlier calls.
        requires in_order { EachBefore call (passed self.now worker) }
        ensures { entered self.now worker call };

    /// A worker calls this after its call with this number was answered.
    fn after(&self, worker: u32, call: u64)
        // The worker has called `before` for this call.
        requires { entered self.now worker call }
        ensures { passed self.now worker call };
}

/// The gate that does nothing.
#[derive(Clone, Copy, Debug)]
pub struct OpenGate;

impl Gate for OpenGate {
    fn may_wait(&self) -> bool {
        false
    }

    fn before(&self, _worker: u32, _call: u64) {}

    fn after(&self, _worker: u32, _call: u64) {}
}
