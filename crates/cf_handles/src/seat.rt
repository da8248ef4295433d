// What a handle leads to: a value on the heap, or nothing.
ghost use Rattle.std.specs.Prelude.{◌≡◌, ◌≢◌, Option, Some, None};
ghost use Rattle.std.specs.Coded.{coded_option};
ghost use Rattle.cf_handles.specs.Seats.{seat_owns};

use crate::parts::Parts;
use std::alloc::Global;
use std::marker::Model;

/// The pointer of a box, or nothing.
#[repr(C)]
pub struct Seat<T> {
    ptr: *mut T,
    alloc: Global,
    pub ghost held: { Option T } by { coded_option T.code },
}

impl<T> Model for Seat<T> {
    ghost also_owns = { λ s. seat_owns T.row s.alloc s.ptr s.held };
}

impl<T> Seat<T> {
    ghost use types.Logic.{sem};
    ghost use Rattle.cf_handles.specs.Lent.{lends_held};

    pub fn none(ptr: *mut T, alloc: Global) -> Seat<T>
        ensures { result.held ≡ None }
    {
        Seat { ptr, alloc }
    }

    pub fn of_parts(parts: Parts<T, Global>) -> Seat<T>
        ensures { result.held ≡ Some parts.value }
    {
        let Parts { ptr, alloc } = parts;
        Seat { ptr, alloc }
    }

    pub fn into_parts(self) -> Parts<T, Global>
        requires { self.held ≢ None }
        ensures { self.held ≡ Some result.value }
    {
        let Seat { ptr, alloc } = self;
        Parts { ptr, alloc }
    }

    /// The value, which may be changed there.
    pub fn as_mut(&mut self) -> &mut T
        requires { self.old.held ≢ None }
        ensures* writes_back { sem 𝓛 (lends_held T.row self.entry result) }
        ensures value { self.old.held ≡ Some result.now }
    {
        let ptr = self.ptr;
        unsafe { &mut *ptr }
    }

    // An empty seat ends.
    pub fn discard(self)
        requires { self.held ≡ None }
    {
        let Seat {
            ptr: _ptr,
            alloc: _alloc,
        } = self;
    }
}

unsafe impl<T: Send> Send for Seat<T> {}
