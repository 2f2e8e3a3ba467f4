//! A box that C holds, or none, as a pointer that says nothing about its target.
ghost use Rattle.std.specs.Prelude.{◌≡◌, ◌≢◌, Some, None, Option};
ghost use Rattle.dccp_c.specs.Keeping.{Inner, end_owned, inner_coded};

mod parts;

pub use self::parts::Parts;
use crate::held::OwnedEnd;
use std::alloc::Global;
use std::marker::Model;

/// What C sees of an end: nothing.
#[repr(C)]
#[derive(Drop)]
pub struct Opaque {
    nothing: u8,
}

/// A box with an end, or none, which only contracts distinguish.
#[repr(C)]
#[derive(Drop)]
pub struct EndBox {
    ptr: *mut Opaque,
    alloc: Global,
    /// The end, if there is one.
    pub ghost value: { Option Inner } by { inner_coded },
}

impl Model for EndBox {
    ghost also_owns = { λ k. end_owned k.alloc k.ptr k.value };
}

impl EndBox {
    pub(crate) fn of_parts(parts: Parts<OwnedEnd, Global>) -> EndBox
        ensures { result.value ≡ Some parts.value }
    {
        let Parts { ptr, alloc } = parts;
        EndBox {
            ptr: ptr.cast::<Opaque>(),
            alloc,
        }
    }

    pub(crate) fn into_parts(self) -> Parts<OwnedEnd, Global>
        requires { self.value ≢ None }
        ensures { Some result.value ≡ self.value }
    {
        let EndBox { ptr, alloc } = self;
        Parts {
            ptr: ptr.cast::<OwnedEnd>(),
            alloc,
        }
    }

    pub(crate) fn none(alloc: Global) -> EndBox
        ensures { result.value ≡ None }
    {
        EndBox {
            ptr: std::ptr::null_mut(),
            alloc,
        }
    }
}

unsafe impl Send for EndBox {}
