//! The manager as one word that C may keep.

ghost use Rattle.std.specs.Prelude.{◌≡◌, Option, Some, None, IsSome};
ghost use Rattle.spm.specs.Machine.{Machine};
ghost use Rattle.ffaspm_c.specs.Kept.{kept_owns, kept_coded};

use parts::Parts;
use pool::RawPool;
use spm::Spm;
use std::alloc::Global;
use std::marker::Model;

/// The manager, whose tables stand in one block of raw memory.
pub(crate) type Manager = Spm<RawPool>;

/// Where the manager lies on the heap, with the right to it, or nothing.
#[repr(C)]
#[derive(Drop)]
pub struct Kept {
    at: *mut u8,
    alloc: Global,
    pub ghost manager: { Option Machine } by { kept_coded },
}

impl Model for Kept {
    ghost also_owns = { λ k. kept_owns k.alloc k.at k.manager };
}

impl Kept {
    /// Keeps a manager.
    pub(crate) fn of(spm: Box<Manager>) -> Kept
        ensures { result.manager ≡ Some spm.value }
    {
        Kept::of_parts(Parts::of(spm))
    }

    fn of_parts(parts: Parts<Manager, Global>) -> Kept
        ensures { result.manager ≡ Some parts.value }
    {
        let Parts { ptr, alloc } = parts;
        let at = ptr as *mut u8;
        Kept { at, alloc }
    }

    /// Nothing.
    pub(crate) fn none(alloc: Global) -> Kept
        ensures { result.manager ≡ None }
    {
        let at = std::ptr::null_mut();
        Kept { at, alloc }
    }

    /// The manager.
    pub(crate) fn into_box(self) -> Box<Manager>
        requires { IsSome self.manager }
        ensures { self.manager ≡ Some result.value }
    {
        self.into_parts().into_box()
    }

    fn into_parts(self) -> Parts<Manager, Global>
        ghost m: { Machine }
        requires { self.manager ≡ Some m }
        ensures { result.value ≡ m }
    {
        let Kept { at, alloc } = self;
        let ptr = at as *mut Manager;
        Parts { ptr, alloc }
    }
}
