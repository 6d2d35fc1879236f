//! The handle that C has of a reader.

ghost use Rattle.std.specs.Prelude.{◌≡◌};
ghost use Rattle.std.specs.Borrow.{sem};
ghost use Rattle.fr_shared.specs.HopTables.{HopKnowledge};
ghost use Rattle.revroute_c.specs.ReaderRows.{hop_reader as reader_row};
ghost use Rattle.revroute_c.specs.Owning.{owned_at};
ghost use Rattle.revroute_c.specs.Readers.{no_reader};

use crate::box_pointer::{BoxPointer, NullValue};
use fr_shared::hops::Reader;
use std::marker::{Model, Send};

impl NullValue for Reader {
    ghost null_value = { no_reader };
}

/// The handle that C has of a reader: a pointer that only this library reads. Null is no reader, so C makes a handle by
/// writing null.
#[repr(C)]
#[derive(Drop)]
pub struct ReaderHandle {
    at: *mut u8,
    pub ghost reading: { HopKnowledge },
}

impl Model for ReaderHandle {
    ghost also_owns = { λ handle. owned_at reader_row no_reader handle.at handle.reading };
}

// A handle owns its reader, which may go to another thread.
unsafe impl Send for ReaderHandle {}

impl ReaderHandle {
    ghost use Rattle.revroute_c.specs.ReaderLending.{LendsPointer, handle_of};

    /// The handle as a pointer to its reader, in place.
    pub(crate) fn pointer(&mut self) -> &mut BoxPointer<Reader>
        ensures* writes_back { sem 𝓛 (LendsPointer self.entry result) }
        ensures same { handle_of result.now ≡ self.old }
    {
        // Both are one pointer, and own the same.
        unsafe { &mut *(self as *mut ReaderHandle).cast::<BoxPointer<Reader>>() }
    }
}
