//! Memory for answers.

ghost use Rattle.std.specs.Prelude.{IfOk};
ghost use Rattle.fr_route.specs.Listing.{AsksWays, IsListing};

use crate::changed_nodes::ChangedNodes;
use crate::way_notes::WayNotes;
use std::alloc::{AllocError, Global};
use std::mem;

/// Memory for answers, which is kept from one line to the next. What it contains has no meaning for the caller. Once texts
/// are given back by [`reuse`](AnswerSpace::reuse), it has the memory of the longest answer so far.
#[derive(Debug)]
pub struct AnswerSpace {
    // For the text of the next answer, if the caller has given one back.
    text: String,
    // For the rerouted nodes.
    list: Vec<u32>,
    // For the notes of ways. A report in [`Form::JsonWithWays`](crate::Form) needs them, and no other answer does.
    notes: Option<Box<WayNotes>>,
}

// Written by hand: code that drops a space proves this one call. With a derived Drop it proves how each part is
// dropped.
impl Drop for AnswerSpace {
    fn drop(self) {
        let AnswerSpace { text, list, notes } = self;
        drop(text);
        drop(list);
        drop(notes);
    }
}

impl AnswerSpace {
    /// No memory yet. It allocates nothing. O(1).
    pub fn new(alloc: Global) -> AnswerSpace {
        AnswerSpace {
            text: String::new(alloc),
            list: Vec::new(alloc),
            notes: None,
        }
    }

    /// Gives back the text of an answer that is no longer needed. The next answer uses its memory. O(1).
    pub fn reuse(&mut self, text: String) {
        self.text = text;
    }

    /// Takes the text that was given back last, or an empty one.
    pub(crate) fn text(&mut self, alloc: Global) -> String {
        mem::replace(&mut self.text, String::new(alloc))
    }

    /// Takes the list. It comes back by `put_back`.
    pub(crate) fn take_list(&mut self, alloc: Global) -> ChangedNodes
        ensures { IsListing result }
    {
        ChangedNodes::InList(mem::replace(&mut self.list, Vec::new(alloc)), None)
    }

    /// Takes the list and the notes, and makes the notes if there are none yet. They come back by `put_back`.
    pub(crate) fn take_with_notes(&mut self, alloc: Global) -> Result<ChangedNodes, AllocError>
        ensures { IfOk result AsksWays }
    {
        let notes = match mem::replace(&mut self.notes, None) {
            Some(notes) => notes,
            None => Box::new(alloc, WayNotes::new(alloc)?)?,
        };
        let list = mem::replace(&mut self.list, Vec::new(alloc));
        Ok(ChangedNodes::InList(list, Some(notes)))
    }

    /// Keeps what was taken for the next line.
    pub(crate) fn put_back(&mut self, told: ChangedNodes) {
        if let Some((list, notes)) = told.into_parts() {
            self.list = list;
            if notes.is_some() {
                self.notes = notes;
            }
        }
    }
}
