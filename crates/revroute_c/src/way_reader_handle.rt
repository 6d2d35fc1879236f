//! The handle that C has of a reader of ways.

ghost use Rattle.std.specs.Prelude.{◌≡◌};
ghost use Rattle.std.specs.Borrow.{sem};
ghost use Rattle.fr_shared.specs.WayTables.{WayKnowledge};
ghost use Rattle.revroute_c.specs.ReaderRows.{way_reader as reader_row};
ghost use Rattle.revroute_c.specs.Owning.{owned_at};
ghost use Rattle.revroute_c.specs.WayReaders.{no_way_reader};

use crate::box_pointer::{BoxPointer, NullValue};
use fr_shared::ways::Reader;
use std::marker::{Model, Send};

impl NullValue for Reader {
    ghost null_value = { no_way_reader };
}

/// The handle that C has of a reader of ways: a pointer that only this library reads. Null is no reader, so C
/// makes a handle by writing null.
#[repr(C)]
#[derive(Drop)]
pub struct WayReaderHandle {
    at: *mut u8,
    pub ghost reading: { WayKnowledge },
}

impl Model for WayReaderHandle {
    ghost also_owns = { λ handle. owned_at reader_row no_way_reader handle.at handle.reading };
}

// A handle owns its reader, which may go to another thread.
unsafe impl Send for WayReaderHandle {}

impl WayReaderHandle {
    ghost use Rattle.revroute_c.specs.WayReaderLending.{LendsPointer, handle_of};

    /// The handle as a pointer to its reader, in place.
    pub(crate) fn pointer(&mut self) -> &mut BoxPointer<Reader>
        ensures* writes_back { sem 𝓛 (LendsPointer self.entry result) }
        ensures same { handle_of result.now ≡ self.old }
    {
        // Both are one pointer, and own the same.
        unsafe { &mut *(self as *mut WayReaderHandle).cast::<BoxPointer<Reader>>() }
    }
}
