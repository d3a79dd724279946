//! One number for all results of a job.

use std::hash::{FoldHasher, Hasher};
use std::io::{self, Write};
use wire::Reply;

/// What results came, in their order.
#[derive(Drop)]
pub(crate) struct Digest {
    hasher: FoldHasher,
}

impl Digest {
    pub(crate) fn new() -> Self {
        Digest {
            hasher: FoldHasher::default(),
        }
    }

    pub(crate) fn number(&mut self, number: u64) {
        self.hasher.write_u64(number);
    }

    pub(crate) fn bytes(&mut self, bytes: &[u8]) {
        self.hasher.write(bytes);
    }

    pub(crate) fn reply(&mut self, reply: &Reply) {
        for register in &reply.regs {
            self.number(*register);
        }
        if let Some(bytes) = &reply.rx {
            self.bytes(bytes);
        }
    }

    pub(crate) fn value(&self) -> u64 {
        self.hasher.finish()
    }
}

/// A writer that keeps nothing but the digest of what is written.
#[derive(Drop)]
pub(crate) struct DigestWriter<'a> {
    pub(crate) digest: &'a mut Digest,
}

impl<'a> Write for DigestWriter<'a> {
    fn write(&mut self, buf: &[u8]) -> io::Result<usize> {
        self.digest.bytes(buf);
        Ok(buf.len())
    }

    fn flush(&mut self) -> io::Result<()> {
        Ok(())
    }
}
