//! Answers to what has come of an input, and to an input as it comes.

ghost use Rattle.std.specs.Prelude.{IfOk, take};
ghost use Rattle.fr_command.specs.Outputs.{IsOutput};
ghost use Rattle.fr_command.specs.Conversations.{Takes, text_of};

use fr_command::{Conversation, Joined, RunFault, Taken, serve};
use fr_crew::{Crew, OpenGate, Plan};
use std::alloc::Global;
use std::sync::Wait;
use std::thread::Threads;

/// Takes the front of what has come, up to the end of a line, and answers that line, with no thread. What it did not take is for the next
/// call, and after a fault that is all of it.
pub fn take_line<T: Threads + Wait + Sync>(
    rt: &T,
    alloc: Global,
    conversation: &mut Conversation,
    come: &[u8],
) -> Result<Taken, RunFault>
    ensures { IfOk result
        (λ taken. Takes conversation.old (take taken.count come.now) (text_of taken.answer) conversation.new) }
{
    let plan = Plan::new(1, 0, 0).unwrap();
    let crew = Crew {
        rt,
        alloc,
        plan: &plan,
        gate: &OpenGate,
    };
    conversation.push_piece(&crew, come)
}

/// The answers to the lines of a text, each line by itself.
pub fn served<T: Threads + Wait + Sync>(
    rt: &T,
    alloc: Global,
    text: &[u8],
) -> Result<Vec<u8>, RunFault>
    ensures { IfOk result (λ out. IsOutput text.now out.items) }
{
    let plan = Plan::new(1, 0, 0).unwrap();
    let mut stream = Joined {
        reader: text,
        writer: Vec::new(alloc),
    };
    let crew = Crew {
        rt,
        alloc,
        plan: &plan,
        gate: &OpenGate,
    };
    serve(&crew, &mut stream)?;
    Ok(stream.writer)
}
