//! The handle that C holds.
ghost use Rattle.std.specs.Prelude.{◌≡◌, ◌≢◌, ◌↔◌, IsTrue, Some, None};
ghost use Rattle.std.specs.Option.{option_map};

use crate::held::OwnedEnd;
use crate::kept::{EndBox, Parts};
use std::alloc::Global;
use std::mem;

/// A handle of C with an end, or with none: `{NULL, false}` is none. C passes it to one call at a time, and never
/// changes it.
#[repr(C)]
pub struct End {
    /// The box with the end, or none.
    pub kept: EndBox,
    is_made: bool,
    ghost fits: { IsTrue is_made ↔ (kept.value ≢ None) },
}

impl End {
    pub(crate) fn none(alloc: Global) -> End
        ensures { result.kept.value ≡ None }
    {
        End {
            kept: EndBox::none(alloc),
            is_made: false,
        }
    }

    fn into_box(self) -> Option<Box<OwnedEnd>>
        ensures { self.kept.value ≡ option_map (λ held. held.value) result }
    {
        let End { kept, is_made } = self;
        if is_made {
            Some(kept.into_parts().into_box())
        } else {
            None
        }
    }

    /// Takes out what it holds, and holds nothing until `put`.
    pub fn take(&mut self, alloc: Global) -> Option<Box<OwnedEnd>>
        ensures held { self.old.kept.value ≡ option_map (λ held. held.value) result }
        ensures none { self.new.kept.value ≡ None }
    {
        mem::replace(self, End::none(alloc)).into_box()
    }

    /// Holds this from now on, and frees what it held before.
    pub fn put(&mut self, held: Box<OwnedEnd>)
        ensures { self.new.kept.value ≡ Some held.value }
    {
        *self = End {
            kept: EndBox::of_parts(Parts::of(held)),
            is_made: true,
        };
    }
}

// Frees what it holds: a derived drop would forget it, which no contract refuses.
impl Drop for End {
    fn drop(self) {
        drop(self.into_box());
    }
}
