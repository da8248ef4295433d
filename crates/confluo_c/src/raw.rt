// The bytes of a handle, whatever it leads to. C sees no type parameter: a call takes a pointer to these bytes, and reads a `Handle` there.
use std::alloc::Global;

/// Where a handle's value is, and where its memory comes from.
#[repr(C)]
#[derive(Drop)]
pub struct RawSeat {
    pub at: *mut u8,
    pub alloc: Global,
}

/// A handle, and whether it leads to a value.
#[repr(C)]
#[derive(Drop)]
pub struct RawHandle {
    pub full: bool,
    pub seat: RawSeat,
}
