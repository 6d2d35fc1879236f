//! How a session's fault ends a run, and how the program ends.

ghost use Rattle.std.specs.Prelude.{◌≡◌, ◌⊎◌, ◌↔◌};
ghost use Rattle.fr_command.specs.Faults.{fault_line};

use fr_bytes::RunFault;
use fr_route::AnswerFault;

/// The exit status for a fault, which is 1, and the line for standard error. O(1).
pub fn run_end(fault: &RunFault) -> (u8, &'static str)
    ensures status { result.0 ≡ 1 }
    // The line of exactly this fault.
    ensures text { result.1.now ≡ fault_line fault.now }
{
    match fault {
        RunFault::Read => (1, "revroute: read fault"),
        RunFault::Write => (1, "revroute: write fault"),
        RunFault::TooLong => (1, "revroute: input too long"),
        RunFault::Start => (1, "revroute: no thread"),
        RunFault::Memory => (1, "revroute: no memory"),
    }
}

/// The fault of a run whose session fails with this fault.
pub(crate) fn run_fault(fault: AnswerFault) -> RunFault
    ensures start { (result ≡ RunFault.Start) ↔ (fault ≡ AnswerFault.Start) }
    ensures memory { (result ≡ RunFault.Memory) ↔ (fault ≡ AnswerFault.Memory) }
    ensures either { (result ≡ RunFault.Start) ⊎ (result ≡ RunFault.Memory) }
{
    match fault {
        AnswerFault::Start => RunFault::Start,
        AnswerFault::Memory => RunFault::Memory,
    }
}
