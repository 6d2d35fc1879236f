//! A pointer to a value in a box, or null: what each handle is.

ghost use Rattle.std.specs.Prelude.{◌≡◌, ◌≢◌, MatchOption};
ghost use Rattle.std.specs.Borrow.{sem};
ghost use denote.RawPtr.{null_ptr};
ghost use Rattle.revroute_c.specs.Owning.{owned_at};

use std::alloc::Global;
use std::marker::Model;
use std::mem::replace;
use std::ptr::null_mut;

/// A type of which a handle can have a value.
pub(crate) trait NullValue {
    // The value of a null handle.
    ghost null_value: { Self };
}

/// A pointer to a value in a box of its own, or null. Each handle that C has is one.
#[derive(Drop)]
pub(crate) struct BoxPointer<T: NullValue> {
    at: *mut T,
    pub(crate) ghost value: { T },
}

impl<T: NullValue> Model for BoxPointer<T> {
    ghost also_owns = { λ pointer. owned_at T.row T.null_value pointer.at pointer.value };
}

impl<T: NullValue + Drop> BoxPointer<T> {
    ghost use Rattle.revroute_c.specs.BoxLending.{LendsValue};

    /// The null pointer.
    fn null() -> BoxPointer<T>
        ensures value { result.value ≡ T.null_value }
        ensures null { result.at ≡ null_ptr }
    {
        BoxPointer { at: null_mut() }
    }

    /// The pointer of a box.
    fn of(value: Box<T>) -> BoxPointer<T>
        ensures { result.value ≡ value.value }
    {
        BoxPointer {
            at: Box::into_raw(value),
        }
    }

    /// The box, unless the pointer is null.
    fn into_box(self, alloc: Global) -> Option<Box<T>>
        ensures { MatchOption result (self.value ≡ T.null_value) (λ taken. self.value ≡ taken.value) }
    {
        let BoxPointer { at } = self;
        if at.is_null() {
            return None;
        }
        unsafe { Some(Box::from_raw(alloc, at)) }
    }

    /// Takes the value out of its place, which is then null. `None` if it was null before.
    pub(crate) fn take(&mut self, alloc: Global) -> Option<Box<T>>
        ensures taken { MatchOption result (self.old.value ≡ T.null_value) (λ taken. self.old.value ≡ taken.value) }
        ensures left { self.new.value ≡ T.null_value }
        ensures null { self.new.at ≡ null_ptr }
    {
        replace(self, BoxPointer::null()).into_box(alloc)
    }

    /// The value, in place. `None` if the pointer is null.
    pub(crate) fn value_mut(&mut self) -> Option<&mut T>
        ensures* writes_back { sem 𝓛 (LendsValue T.row T.NullValue self.entry result) }
        ensures value { MatchOption result ((self.old.at ≡ null_ptr) × (self.old.value ≡ T.null_value))
            (λ value. (self.old.at ≢ null_ptr) × (value.now ≡ self.old.value)) }
    {
        if self.at.is_null() {
            return None;
        }
        unsafe { Some(&mut *self.at) }
    }

    /// Puts a value into the place. A value that was there is dropped.
    pub(crate) fn put(&mut self, alloc: Global, value: Box<T>)
        ensures { self.new.value ≡ value.value }
    {
        drop(self.take(alloc));
        *self = BoxPointer::of(value);
    }
}
