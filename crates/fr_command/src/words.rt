//! What the words of a command line ask for.

ghost use Rattle.std.specs.Prelude.{IfOk, IfErr, map};
ghost use Rattle.fr_cli.specs.Tasks.{IsCommandLineIn, IsTaskIn, IsFaultOf};

use fr_cli::{CommandLine, Task, TaskFault};
use fr_route::VERSION;
use std::alloc::Global;

/// What the words of a command line ask for, as [`fr_cli::command_line`] reads them, for a program with the version
/// [`VERSION`]. Fails with `Version` if the words ask for the version, with `Usage` if they ask for help or are not
/// those of the command line, and with `Memory` if an allocation is refused. O(b) for b bytes of words.
pub fn command_line<'a>(alloc: Global, words: &'a [&'a str]) -> Result<CommandLine, TaskFault>
    ensures ok { IfOk result (IsCommandLineIn (map (λ s. s.now) words.entry.now)) }
    ensures fault { IfErr result (IsFaultOf (map (λ s. s.now) words.entry.now)) }
{
    fr_cli::command_line(alloc, words, VERSION)
}

/// The task that the words of a command line ask for. The words, the faults and the cost are those of [`command_line`].
pub fn task_of<'a>(alloc: Global, words: &'a [&'a str]) -> Result<Task, TaskFault>
    ensures ok { IfOk result (IsTaskIn (map (λ s. s.now) words.entry.now)) }
    ensures fault { IfErr result (IsFaultOf (map (λ s. s.now) words.entry.now)) }
{
    fr_cli::task_of(alloc, words, VERSION)
}
