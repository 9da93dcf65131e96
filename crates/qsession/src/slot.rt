//! What is behind a handle.
ghost use Rattle.std.specs.Prelude.{◌≡◌, Some, None, Option, IsSome};
ghost use Rattle.qsession.specs.declared.kept.Kept.{Kept as KeptValue};
ghost use Rattle.qsession.specs.Slots.{slot_owns};

use crate::kept::Kept;
use crate::loose::Loose;
use std::alloc::Global;
use std::marker::Model;
use std::ptr::null_mut;

/// A pointer to a box of what is kept, which it owns, or to nothing. Dropped as it is, it leaks what is kept.
///
/// Other languages see a pointer to bytes, and touch none of them.
#[repr(C)]
#[derive(Drop)]
pub struct Slot {
    at: *mut u8,
    alloc: Global,
    pub ghost kept: { Option KeptValue },
}

impl Model for Slot {
    ghost also_owns = { λ s. slot_owns s.alloc s.at s.kept };
}

impl Slot {
    /// A pointer to nothing.
    pub(crate) fn empty(alloc: Global) -> Slot
        ensures { result.kept ≡ None }
    {
        Slot {
            at: null_mut(),
            alloc,
        }
    }

    /// A pointer to what the box owned.
    pub(crate) fn of(loose: Loose<Kept, Global>) -> Slot
        ensures { result.kept ≡ Some loose.value }
    {
        let Loose { at, alloc } = loose;
        Slot {
            at: at as *mut u8,
            alloc,
        }
    }

    /// What it points to.
    pub(crate) fn into_loose(self) -> Loose<Kept, Global>
        requires { IsSome self.kept }
        ensures { self.kept ≡ Some result.value }
    {
        let Slot { at, alloc } = self;
        Loose {
            at: at as *mut Kept,
            alloc,
        }
    }
}

unsafe impl Send for Slot {}
