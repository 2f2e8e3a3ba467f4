//! The handle of a listener that C holds.
ghost use Rattle.std.specs.Prelude.{◌≡◌, ◌≢◌, ◌↔◌, IsTrue, Some, None};
ghost use Rattle.std.specs.Option.{option_map};

use crate::kept::Parts;
use crate::kept_listener::ListenerBox;
use crate::serving::OwnedServer;
use std::alloc::Global;
use std::mem;

/// A handle of C with a listener, or with none: `{NULL, false}` is none. C passes it to one call at a time, and never
/// changes it.
#[repr(C)]
pub struct ListenerHandle {
    pub(crate) kept: ListenerBox,
    is_made: bool,
    ghost fits: { IsTrue is_made ↔ (kept.value ≢ None) },
}

impl ListenerHandle {
    pub(crate) fn none(alloc: Global) -> ListenerHandle
        ensures { result.kept.value ≡ None }
    {
        ListenerHandle {
            kept: ListenerBox::none(alloc),
            is_made: false,
        }
    }

    fn into_box(self) -> Option<Box<OwnedServer>>
        ensures { self.kept.value ≡ option_map (λ held. held.value) result }
    {
        let ListenerHandle { kept, is_made } = self;
        if is_made {
            Some(kept.into_parts().into_box())
        } else {
            None
        }
    }

    // Takes out what it holds, and holds nothing until `put`.
    pub(crate) fn take(&mut self, alloc: Global) -> Option<Box<OwnedServer>>
        ensures held { self.old.kept.value ≡ option_map (λ held. held.value) result }
        ensures none { self.new.kept.value ≡ None }
    {
        mem::replace(self, ListenerHandle::none(alloc)).into_box()
    }

    pub(crate) fn put(&mut self, held: Box<OwnedServer>)
        ensures { self.new.kept.value ≡ Some held.value }
    {
        *self = ListenerHandle {
            kept: ListenerBox::of_parts(Parts::of(held)),
            is_made: true,
        };
    }
}

// Frees what it holds: a derived drop would forget it, which no contract refuses.
impl Drop for ListenerHandle {
    fn drop(self) {
        drop(self.into_box());
    }
}
