ghost use Rattle.std.specs.Prelude.{◌≡◌};

use crate::identifiers::{FFA_ERROR, FFA_MEM_RETRIEVE_RESP, FFA_SUCCESS};
use base::Status;
use std::marker::Model;

/// What a call is answered: registers 0 to 7, and what the caller's RX buffer was filled with.
#[derive(Drop)]
pub struct Reply {
    pub regs: [u64; 8],
    pub rx: Option<Vec<u8>>,
}

impl Model for Reply {
    ghost use Rattle.wire.specs.Replies.{ReplyWords, filled};

    ghost Value = { ReplyWords };

    ghost view = { λ r. record { regs = r.regs; rx = filled r.rx } };
}

impl Reply {
    ghost use Rattle.wire.specs.Replies as spec;

    /// Four words, and 0 in the other registers; RX is not filled.
    fn of_words(w0: u32, w1: u32, w2: u32, w3: u32) -> Self
        ensures { result ≡ spec.of_words w0 w1 w2 w3 }
    {
        let (w0, w1) = (u64::from(w0), u64::from(w1));
        let (w2, w3) = (u64::from(w2), u64::from(w3));
        Reply {
            regs: [w0, w1, w2, w3, 0, 0, 0, 0],
            rx: None,
        }
    }

    /// FFA_ERROR with a status, as a two's complement number in w2.
    pub fn error(status: Status) -> Self
        ensures { result ≡ spec.error status }
    {
        let code = match status {
            Status::NotSupported => 0xffff_ffff,
            Status::InvalidParameters => 0xffff_fffe,
            Status::NoMemory => 0xffff_fffd,
            Status::Busy => 0xffff_fffc,
            Status::Denied => 0xffff_fffa,
        };
        Reply::of_words(FFA_ERROR, 0, code, 0)
    }

    /// FFA_SUCCESS with w2 and w3.
    pub fn success(w2: u32, w3: u32) -> Self
        ensures { result ≡ spec.success w2 w3 }
    {
        Reply::of_words(FFA_SUCCESS, 0, w2, w3)
    }

    /// FFA_MEM_RETRIEVE_RESP with the length of the response in bytes, whole in w1 and in this part in
    /// w2.
    pub fn response(length: u32) -> Self
        ensures { result ≡ spec.response length }
    {
        Reply::of_words(FFA_MEM_RETRIEVE_RESP, length, length, 0)
    }

    /// What FFA_VERSION answers, in w0.
    pub fn version(word: u32) -> Self
        ensures { result ≡ spec.version word }
    {
        Reply::of_words(word, 0, 0, 0)
    }
}
