ghost use Rattle.std.specs.Prelude.{◌≡◌};
ghost use Rattle.wire.specs.Functions as spec;

use crate::identifiers::{
    FFA_ERROR, FFA_FEATURES, FFA_ID_GET, FFA_MEM_DONATE, FFA_MEM_DONATE_64, FFA_MEM_LEND,
    FFA_MEM_LEND_64, FFA_MEM_RECLAIM, FFA_MEM_RELINQUISH, FFA_MEM_RETRIEVE_REQ,
    FFA_MEM_RETRIEVE_REQ_64, FFA_MEM_RETRIEVE_RESP, FFA_MEM_SHARE, FFA_MEM_SHARE_64,
    FFA_RX_RELEASE, FFA_RXTX_MAP, FFA_RXTX_MAP_64, FFA_RXTX_UNMAP, FFA_SUCCESS, FFA_VERSION,
};
use base::Kind;

/// What a function identifier names (FF-A 1.1, "Function identifiers").
#[derive(Clone, Copy, Debug, PartialEq, Eq)]
pub enum Function {
    /// FFA_VERSION.
    Version,
    /// FFA_FEATURES.
    Features,
    /// FFA_RX_RELEASE.
    RxRelease,
    /// FFA_RXTX_MAP.
    RxtxMap,
    /// FFA_RXTX_UNMAP.
    RxtxUnmap,
    /// FFA_ID_GET.
    IdGet,
    /// FFA_MEM_SHARE, FFA_MEM_LEND or FFA_MEM_DONATE.
    Send(Kind),
    /// FFA_MEM_RETRIEVE_REQ.
    RetrieveReq,
    /// FFA_MEM_RELINQUISH.
    Relinquish,
    /// FFA_MEM_RECLAIM.
    Reclaim,
}

/// The function that an identifier names, of a call by the 32-bit or by the 64-bit convention; None
/// for a number that names none of the calls that are accepted.
pub fn function_of(identifier: u32) -> Option<Function>
    ensures { result ≡ spec.function_of identifier }
{
    match identifier {
        FFA_VERSION => Some(Function::Version),
        FFA_FEATURES => Some(Function::Features),
        FFA_RX_RELEASE => Some(Function::RxRelease),
        FFA_RXTX_MAP | FFA_RXTX_MAP_64 => Some(Function::RxtxMap),
        FFA_RXTX_UNMAP => Some(Function::RxtxUnmap),
        FFA_ID_GET => Some(Function::IdGet),
        FFA_MEM_DONATE | FFA_MEM_DONATE_64 => Some(Function::Send(Kind::Donate)),
        FFA_MEM_LEND | FFA_MEM_LEND_64 => Some(Function::Send(Kind::Lend)),
        FFA_MEM_SHARE | FFA_MEM_SHARE_64 => Some(Function::Send(Kind::Share)),
        FFA_MEM_RETRIEVE_REQ | FFA_MEM_RETRIEVE_REQ_64 => Some(Function::RetrieveReq),
        FFA_MEM_RELINQUISH => Some(Function::Relinquish),
        FFA_MEM_RECLAIM => Some(Function::Reclaim),
        _ => None,
    }
}

/// Whether FFA_FEATURES knows an identifier: of a call, or of FFA_ERROR, FFA_SUCCESS and
/// FFA_MEM_RETRIEVE_RESP.
#[tactic(auto, unfolding(crate::specs::Functions::is_feature))]
pub fn is_feature(identifier: u32) -> bool
    ensures { result ≡ spec.is_feature identifier }
{
    function_of(identifier).is_some()
        || identifier == FFA_ERROR
        || identifier == FFA_SUCCESS
        || identifier == FFA_MEM_RETRIEVE_RESP
}
