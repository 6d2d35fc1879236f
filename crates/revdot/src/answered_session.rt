//! The session after the lines of an input.

ghost use Rattle.std.specs.Prelude.{◌≡◌, ◌∷◌, [], ℕ, IfOk, List, OnOk};
ghost use Rattle.fr_route.specs.Answers.{AreAnswers};
ghost use Rattle.revdot.specs.Comments.{without_comments};
ghost use Rattle.revdot.specs.Drawings.{IsLeftBy};

use crate::comments::is_comment;
use fr_bytes::Lines;
use fr_route::Session;
use std::alloc::{AllocError, Global};

/// A session that has answered each line of the input that is not a comment. It starts no thread.
pub fn session_after(alloc: Global, input: &[u8]) -> Result<Session, AllocError>
    ensures { IfOk result (IsLeftBy input.now) }
{
    let mut session = Session::new();
    for line in Lines::new(input) {
        answer_line(alloc, &mut session, line)?;
    }
    Ok(session)
}

/// Answers a line in a session, and drops the answer. A comment has none.
fn answer_line(alloc: Global, session: &mut Session, line: &[u8]) -> Result<(), AllocError>
    ensures { OnOk result ((answer : List ℕ)
        × AreAnswers session.old (without_comments (line.now ∷ [])) answer session.new) }
{
    if is_comment(line) {
        return Ok(());
    }
    match session.answer_line_alone(alloc, line) {
        Ok(_answer) => Ok(()),
        Err(_) => Err(AllocError),
    }
}
