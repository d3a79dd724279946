ghost use Rattle.std.specs.Prelude.{◌≡◌, ◌<◌, Some, None, IfOk, IfErr};
ghost use Rattle.wire.specs.Requests as spec;

use crate::function::{Function, function_of};
use base::{Handle, Kind, Status};

/// How a call hands over a descriptor (FF-A 1.1, "Transmission of transaction descriptor in dynamically
/// allocated buffers"): lengths in bytes, and another buffer than TX.
#[derive(Clone, Copy, Debug, PartialEq, Eq)]
pub struct Transfer {
    /// The length of the descriptor, in w1.
    pub total: u32,
    /// The length of the part that the call hands over, in w2.
    pub fragment: u32,
    /// The address of another buffer, in register 3; 0 for TX.
    pub address: u64,
    /// The pages of another buffer, in w4; 0 for TX.
    pub pages: u32,
}

/// What a call asks for, with its arguments as numbers.
#[derive(Clone, Copy, Debug, PartialEq, Eq)]
pub enum Request {
    /// FFA_VERSION, with the version in w1.
    Version(u32),
    /// FFA_FEATURES, with the identifier in w1.
    Features(u32),
    /// FFA_RX_RELEASE.
    RxRelease,
    /// FFA_RXTX_MAP, with the addresses of TX and RX in bytes, registers 1 and 2, and the pages of each,
    /// w3.
    RxtxMap { tx: u64, rx: u64, pages: u32 },
    /// FFA_RXTX_UNMAP, with w1.
    RxtxUnmap(u32),
    /// FFA_ID_GET.
    IdGet,
    /// FFA_MEM_SHARE, FFA_MEM_LEND or FFA_MEM_DONATE.
    Send(Kind, Transfer),
    /// FFA_MEM_RETRIEVE_REQ.
    Retrieve(Transfer),
    /// FFA_MEM_RELINQUISH.
    Relinquish,
    /// FFA_MEM_RECLAIM, with the handle in w1 and w2, and the flags in w3.
    Reclaim { handle: Handle, flags: u32 },
}

/// The call that registers 0 to 7 make. NOT_SUPPORTED where register 0 names none, and no other status.
pub fn decode(regs: [u64; 8]) -> Result<Request, Status>
    ensures named { IfOk result (λ request. spec.request_of regs ≡ Some request) }
    ensures unknown { IfErr result (λ status. (spec.request_of regs ≡ None)
        × (status ≡ Status.NotSupported)) }
{
    match function_of(word(&regs, 0)) {
        Some(function) => Ok(request_for(function, &regs)),
        None => Err(Status::NotSupported),
    }
}

/// The low half of a register.
fn word(regs: &[u64; 8], register: usize) -> u32
    requires { register < 8 }
    ensures { result ≡ spec.word regs.now register }
{
    (regs[register] % 0x1_0000_0000) as u32
}

/// A register, whole in a 64-bit call, and its low half in a 32-bit call.
fn argument(regs: &[u64; 8], register: usize) -> u64
    requires { register < 8 }
    ensures { result ≡ spec.argument regs.now register }
{
    if word(regs, 0) >= 0xc000_0000 {
        regs[register]
    } else {
        u64::from(word(regs, register))
    }
}

fn transfer_of(regs: &[u64; 8]) -> Transfer
    ensures { result ≡ spec.transfer_of regs.now }
{
    Transfer {
        total: word(regs, 1),
        fragment: word(regs, 2),
        address: argument(regs, 3),
        pages: word(regs, 4),
    }
}

fn request_for(function: Function, regs: &[u64; 8]) -> Request
    ensures { result ≡ spec.request_for function regs.now }
{
    match function {
        Function::Version => Request::Version(word(regs, 1)),
        Function::Features => Request::Features(word(regs, 1)),
        Function::RxRelease => Request::RxRelease,
        Function::RxtxMap => Request::RxtxMap {
            tx: argument(regs, 1),
            rx: argument(regs, 2),
            pages: word(regs, 3),
        },
        Function::RxtxUnmap => Request::RxtxUnmap(word(regs, 1)),
        Function::IdGet => Request::IdGet,
        Function::Send(kind) => Request::Send(kind, transfer_of(regs)),
        Function::RetrieveReq => Request::Retrieve(transfer_of(regs)),
        Function::Relinquish => Request::Relinquish,
        Function::Reclaim => Request::Reclaim {
            handle: Handle::from_halves(word(regs, 1), word(regs, 2)),
            flags: word(regs, 3),
        },
    }
}
