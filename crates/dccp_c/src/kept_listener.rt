//! A box with a listener that C holds, or none, as a pointer that says nothing about its target.
ghost use Rattle.std.specs.Prelude.{◌≡◌, ◌≢◌, Some, None, Option};
ghost use Rattle.dccp_c.specs.Keeping.{InnerListener, inner_listener_coded, listener_owned};

use crate::kept::{Opaque, Parts};
use crate::serving::OwnedServer;
use std::alloc::Global;
use std::marker::Model;

/// A box with a listener, or none, which only contracts distinguish.
#[repr(C)]
#[derive(Drop)]
pub struct ListenerBox {
    ptr: *mut Opaque,
    alloc: Global,
    pub ghost value: { Option InnerListener } by { inner_listener_coded },
}

impl Model for ListenerBox {
    ghost also_owns = { λ k. listener_owned k.alloc k.ptr k.value };
}

impl ListenerBox {
    pub(crate) fn of_parts(parts: Parts<OwnedServer, Global>) -> ListenerBox
        ensures { result.value ≡ Some parts.value }
    {
        let Parts { ptr, alloc } = parts;
        ListenerBox {
            ptr: ptr.cast::<Opaque>(),
            alloc,
        }
    }

    pub(crate) fn into_parts(self) -> Parts<OwnedServer, Global>
        requires { self.value ≢ None }
        ensures { Some result.value ≡ self.value }
    {
        let ListenerBox { ptr, alloc } = self;
        Parts {
            ptr: ptr.cast::<OwnedServer>(),
            alloc,
        }
    }

    pub(crate) fn none(alloc: Global) -> ListenerBox
        ensures { result.value ≡ None }
    {
        ListenerBox {
            ptr: std::ptr::null_mut(),
            alloc,
        }
    }
}

unsafe impl Send for ListenerBox {}
