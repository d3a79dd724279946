//! What C holds: the manager, if one was made.

ghost use Rattle.std.specs.Prelude.{◌≡◌, Some, None, is_some, IfSome, IfNone};

use crate::kept::{Kept, Manager};
use std::alloc::Global;
use std::mem::replace;

/// The manager, or none, as all bytes 0 say. C gives the room for it, and reads and writes nothing in
/// it.
#[repr(C)]
#[derive(Drop)]
pub struct Holder {
    kept: Kept,
    made: bool,
    ghost told: { made ≡ is_some kept.manager },
}

impl Holder {
    /// Holds a manager, in place of none.
    pub(crate) fn put(&mut self, spm: Box<Manager>)
        requires { self.old.kept.manager ≡ None }
        ensures { self.new.kept.manager ≡ Some spm.value }
    {
        self.kept = Kept::of(spm);
        self.made = true;
    }

    /// Gives the manager out, if there is one, and holds none.
    pub(crate) fn take(&mut self, alloc: Global) -> Option<Box<Manager>>
        ensures some { IfSome result (λ spm. self.old.kept.manager ≡ Some spm.value) }
        ensures none { IfNone result (self.old.kept.manager ≡ None) }
        ensures left { self.new.kept.manager ≡ None }
    {
        if !self.made {
            return None;
        }
        let none = Holder {
            kept: Kept::none(alloc),
            made: false,
        };
        let held = replace(self, none);
        Some(held.kept.into_box())
    }
}
