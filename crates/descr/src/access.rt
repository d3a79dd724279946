//! The access descriptors of a memory transaction descriptor (FF-A 1.1 and 1.0, "Endpoint memory
//! access descriptor").

ghost use Rattle.std.specs.Prelude.{◌≡◌, ◌+◌, ◌*◌, ◌≤◌, true, false, length, slice_index, IfSome, IfNone};
ghost use Rattle.base.specs.Descriptors.Send as spec;
ghost use Rattle.descr.specs.Parts.{AreEndpoints};

use crate::layout::PART_SIZE;
use crate::numbers::{u16_at, u32_at, u64_at};
use arrayvec::ArrayVec;
use base::{PartitionId, Permissions};
use std::marker::Model;

/// A receiver that an access descriptor names.
#[derive(Clone, Copy, Debug, PartialEq, Eq)]
pub struct Endpoint {
    /// The partition, from bytes 0 and 1 of the access descriptor.
    pub partition: PartitionId,
    /// The memory access permissions, byte 2 of the access descriptor.
    pub permissions: Permissions,
}

impl Model for Endpoint {
    ghost use Rattle.base.specs.Descriptors.Send as spec;

    ghost Value = { spec.Endpoint };

    ghost view = { λ e. record { partition = e.partition; permissions = e.permissions } };

    ghost inverse = { λ e. record { partition = e.partition; permissions = e.permissions } };
}

impl Default for Endpoint {
    ghost is_default = { λ e. e ≡ record { partition = 0; permissions = 0 } };

    /// Partition 0, with no permission specified.
    fn default() -> Endpoint {
        Endpoint {
            partition: PartitionId::new(0),
            permissions: Permissions::default(),
        }
    }
}

/// Whether an access descriptor keeps its rules and points at this composite descriptor.
#[tactic(auto, unfolding(base::specs::Descriptors::Send::is_access))]
pub(crate) fn is_access(bytes: &[u8], composite: u32, at: usize) -> bool
    requires { at + 16 ≤ length bytes.now }
    ensures { result ≡ spec.is_access bytes.now composite at }
{
    Permissions::new(bytes[at + 2]).are_legal()
        && bytes[at + 3] == 0
        && u32_at(bytes, at + 4) == composite
        && u64_at(bytes, at + 8) == 0
}

/// The receiver of an access descriptor.
pub(crate) fn endpoint_at(bytes: &[u8], at: usize) -> Endpoint
    requires { at + 16 ≤ length bytes.now }
    ensures { result ≡ spec.endpoint_at bytes.now at }
{
    Endpoint {
        partition: PartitionId::new(u16_at(bytes, at)),
        permissions: Permissions::new(bytes[at + 2]),
    }
}

/// The receivers of so many access descriptors, if each keeps its rules and points at this composite
/// descriptor.
pub(crate) fn read_endpoints(
    bytes: &[u8],
    composite: u32,
    array: usize,
    count: usize,
) -> Option<ArrayVec<Endpoint, 8>>
    requires few { count ≤ 8 }
    requires inside { array + 16 * count ≤ length bytes.now }
    ensures some { IfSome result (λ v. AreEndpoints count bytes.now composite array v.items) }
    ensures none { IfNone result (spec.are_accesses count bytes.now composite array ≡ false) }
{
    let mut receivers = ArrayVec::new();
    let mut at = array;
    for _i in 0..count {
        if !is_access(bytes, composite, at) {
            return None;
        }
        receivers.push(endpoint_at(bytes, at));
        at += PART_SIZE;
    }
    Some(receivers)
}
