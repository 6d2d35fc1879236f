//! The form of an answer, the line that it answers, and the answer.

ghost use Rattle.std.specs.Prelude.{◌≡◌};
ghost use Rattle.fr_route.specs.Replies.{answer_form};
ghost use Rattle.fr_route.specs.declared.form.Form.TheVariants.{Text};

use std::alloc::Global;

/// The form of answers.
#[derive(Clone, Copy, Debug, PartialEq, Eq)]
pub enum Form {
    /// Words and numbers with spaces between them.
    Text,
    /// One JSON object.
    Json,
    /// One JSON object. A report also says what to push to routers that hold all their ways.
    JsonWithWays,
}

/// A line of an input.
#[derive(Clone, Copy, Debug)]
pub struct Line<'a> {
    /// The number of the line in its input, counted from 1. Blank lines count.
    pub number: u64,
    /// The bytes of the line, without a newline.
    pub bytes: &'a [u8],
}

/// The answer to a line.
#[derive(Debug, Drop)]
pub struct Answer {
    /// The answer, without a newline.
    pub text: String,
    /// Whether the line is refused.
    pub refused: bool,
}

/// An answer that is being written: its form, the number of the line in its input, and its text. The functions that
/// write an answer into a draft return whether the line is refused.
#[derive(Drop)]
pub(crate) struct Draft {
    pub(crate) form: Form,
    pub(crate) number: u64,
    // Before the answer is written, what the string contains has no meaning.
    pub(crate) text: String,
}

impl Draft {
    /// A draft in the form of a text. No answer in this form depends on the number of the line.
    pub(crate) fn text(alloc: Global) -> Draft
        ensures { answer_form result ≡ record { form = Text; number = 0 } }
    {
        Draft {
            form: Form::Text,
            number: 0,
            text: String::new(alloc),
        }
    }
}
