//! A session that answers the lines of an input one after the other, and counts them.

ghost use Rattle.std.specs.Prelude.{◌≡◌, ◌≢◌, ◌∷◌, [], true, false, if◌then◌else◌, IfErr, IfOk, IfNone, IfSome, OnErr};
ghost use Rattle.fr_route.specs.Blank.{is_blank};
ghost use Rattle.fr_command.specs.Conversations.{text_of};
ghost use Rattle.fr_command.specs.Faults.{StartsNone};
ghost use Rattle.fr_command.specs.InLines.{IsUnanswered};
ghost use Rattle.fr_command.specs.Points.{AreAnswersIn, after_blank, first_point, one_more};

use fr_crew::{Crew, Gate};
use fr_route::{AnswerFault, AnswerSpace, Form, Line, Session};
use std::alloc::Global;
use std::marker::Model;
use std::sync::Wait;
use std::thread::Threads;

/// How many lines of an input were answered, and how many of them were refused. Both counts end at [`u64::MAX`].
#[derive(Clone, Copy, Debug, PartialEq, Eq)]
pub struct Tally {
    /// How many lines were answered: all that are not blank.
    pub answered: u64,
    /// How many of these were refused.
    pub refused: u64,
}

/// A session, and how many lines have ended, were answered, and were refused. The value in contracts is the point after
/// these lines.
#[derive(Debug)]
pub(crate) struct Responder {
    session: Session,
    // Memory for answers.
    space: AnswerSpace,
    ended: u64,
    answered: u64,
    refused: u64,
}

// Written by hand, as that of `Session`: code that drops a responder proves this one call.
impl Drop for Responder {
    fn drop(self) {
        let Responder {
            session,
            space,
            ended: _,
            answered: _,
            refused: _,
        } = self;
        drop(session);
        drop(space);
    }
}

impl Model for Responder {
    ghost use Rattle.fr_command.specs.Points.{Point};

    ghost Value = { Point };

    ghost view = { λ r. record { state = r.session; ended = r.ended; answered = r.answered; refused = r.refused } };
}

impl Responder {
    /// A session that was asked nothing yet.
    pub(crate) fn new(alloc: Global) -> Responder
        ensures { result ≡ first_point }
    {
        Responder {
            session: Session::new(),
            space: AnswerSpace::new(alloc),
            ended: 0,
            answered: 0,
            refused: 0,
        }
    }

    pub(crate) fn session(&self) -> &Session
        ensures { result.now ≡ self.now.state }
    {
        &self.session
    }

    pub(crate) fn tally(&self) -> Tally
        ensures answered { result.answered ≡ self.now.answered }
        ensures refused { result.refused ≡ self.now.refused }
    {
        Tally {
            answered: self.answered,
            refused: self.refused,
        }
    }

    /// The answer to the next line in this form, or `None` for a blank line. If it fails, nothing has changed.
    pub(crate) fn answer<T: Threads + Wait + Sync, G: Gate + Sync>(
        &mut self,
        crew: &Crew<'_, T, G>,
        form: Form,
        line: &[u8],
    ) -> Result<Option<String>, AnswerFault>
        ensures ok { IfOk result (λ answer. AreAnswersIn form self.old (line.now ∷ []) (text_of answer) self.new) }
        ensures blank { IfOk result (λ answer. IfNone answer (is_blank line.now ≡ true)) }
        ensures some { IfOk result (λ answer. IfSome answer (λ _. is_blank line.now ≡ false)) }
        ensures unchanged { OnErr result (self.new ≡ self.old) }
        ensures fault { IfErr result (IsUnanswered self.old line.now) }
        ensures no_start { StartsNone crew.now.plan.now → result ≢ Err AnswerFault.Start }
    {
        let number = self.ended.saturating_add(1);
        let next = Line {
            number,
            bytes: line,
        };
        let answer = self
            .session
            .answer_line_in(crew, form, next, &mut self.space)?;
        self.ended = number;
        match answer {
            Some(answer) => {
                self.count_answer(answer.refused);
                Ok(Some(answer.text))
            }
            None => Ok(None),
        }
    }

    /// Gives back the text of an answer that has been written. The next answer uses its memory.
    pub(crate) fn reuse(&mut self, text: String)
        ensures { self.new ≡ self.old }
    {
        self.space.reuse(text);
    }

    /// Counts an answer, which refuses its line or not.
    fn count_answer(&mut self, is_refused: bool)
        ensures { self.new ≡ record self.old {
          answered = one_more self.old.answered;
          refused = if is_refused then one_more self.old.refused else self.old.refused;
        } }
    {
        self.answered = self.answered.saturating_add(1);
        if is_refused {
            self.refused = self.refused.saturating_add(1);
        }
    }

    /// Counts a blank line that has ended.
    pub(crate) fn count_blank_line(&mut self)
        ensures { self.new ≡ after_blank self.old }
    {
        self.ended = self.ended.saturating_add(1);
    }
}
