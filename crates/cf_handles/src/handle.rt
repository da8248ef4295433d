// A handle, as C holds it.
ghost use Rattle.std.specs.Prelude.{◌≡◌, ◌≢◌, ◌↔◌, IsTrue, MatchOption, Some, None};

use crate::parts::Parts;
use crate::seat::Seat;
use cf_store::{Log, Reader, Span, Writer};
use std::alloc::Global;
use std::mem::replace;
use std::ptr::null_mut;

/// A value on the heap, or nothing. A handle whose bytes are all zero is nothing.
#[repr(C)]
pub struct Handle<T> {
    full: bool,
    seat: Seat<T>,
    ghost tied: { IsTrue full ↔ (seat.held ≢ None) },
}

/// `confluo_log`: a log, or nothing.
pub type LogHandle = Handle<Log>;

/// `confluo_writer`: a writer, or nothing.
pub type WriterHandle = Handle<Writer>;

/// `confluo_reader`: a reader, or nothing.
pub type ReaderHandle = Handle<Reader>;

/// `confluo_span`: a span, or nothing.
pub type SpanHandle = Handle<Span>;

impl<T> Handle<T> {
    /// Nothing.
    pub fn none(alloc: Global) -> Handle<T>
        ensures { result.seat.held ≡ None }
    {
        let ptr = null_mut();
        let seat = Seat::none(ptr, alloc);
        Handle { full: false, seat }
    }

    /// A handle to this value.
    pub fn of(value: Box<T>) -> Handle<T>
    where
        T: Drop,
        ensures { result.seat.held ≡ Some value.value }
    {
        Handle {
            full: true,
            seat: Seat::of_parts(Parts::of(value)),
        }
    }

    // The value, if there is one.
    fn open(self) -> Option<Box<T>>
        ensures { MatchOption result (self.seat.held ≡ None) (λ found. self.seat.held ≡ Some found.value) }
    {
        let Handle { full, seat } = self;
        if full {
            return Some(seat.into_parts().into_box());
        }
        seat.discard();
        None
    }
}

impl<T: Drop> Handle<T> {
    /// Takes the value, if there is one, and leaves nothing.
    pub fn take(&mut self, alloc: Global) -> Option<Box<T>>
        ensures taken { MatchOption result (self.old.seat.held ≡ None) (λ found. self.old.seat.held ≡ Some found.value) }
        ensures nothing { self.new.seat.held ≡ None }
    {
        replace(self, Handle::none(alloc)).open()
    }

    /// Puts the value there. What was there is freed.
    pub fn put(&mut self, value: Box<T>)
        ensures { self.new.seat.held ≡ Some value.value }
    {
        drop(replace(self, Handle::of(value)));
    }
}

impl<T: Drop> Drop for Handle<T> {
    fn drop(self) {
        drop(self.open());
    }
}

impl<T> Handle<T> {
    ghost use types.Logic.{sem};
    ghost use Rattle.cf_handles.specs.Lends.{lends_some};

    /// The value, if there is one, which may be changed there.
    pub fn get_mut(&mut self) -> Option<&mut T>
        ensures* writes_back { sem 𝓛 (lends_some T.row self.entry result) }
        ensures value { MatchOption result (self.old.seat.held ≡ None) (λ lent. self.old.seat.held ≡ Some lent.now) }
    {
        if !self.full {
            return None;
        }
        Some(self.seat.as_mut())
    }
}
