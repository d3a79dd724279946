//! The flags of a send and of a relinquish: bit 0 orders that the pages are cleared, and the other bits
//! are reserved (FF-A 1.1, "Zero memory flag").

ghost use Rattle.std.specs.Prelude.{◌≡◌};
ghost use Rattle.base.specs.Descriptors.Send as spec;

/// Whether no bit but bit 0 is set.
pub fn are_clear_flags(flags: u32) -> bool
    ensures { result ≡ spec.are_clear_flags flags }
{
    matches!(flags, 0 | 1)
}

/// Whether the pages are to be cleared.
pub fn orders_clear(flags: u32) -> bool
    ensures { result ≡ spec.orders_clear flags }
{
    flags == 1
}
