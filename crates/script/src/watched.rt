//! Readers and writers that are watched for failures.

ghost use Rattle.std.specs.Prelude.{◌≡◌, ◌<◌, false, true, length, MatchResult, OnOk, OnErr, IfOk};
ghost use Rattle.std.specs.Io.{ReadsAtMost, WritesAtMost};
ghost use Rattle.std.specs.Io.KnownBytes.{Keeps, ReadConsumes, WriteAppends};

use std::io::{self, Read, Write};

/// A reader or a writer, and whether it has failed: it answered an error, or took nothing of a part
/// that is not empty.
#[derive(Drop)]
pub struct Watched<T> {
    inner: T,
    failed: bool,
}

impl<T> Watched<T> {
    /// One that has not failed.
    pub fn new(inner: T) -> Self
        ensures inner { result.inner ≡ inner }
        ensures failed { result.failed ≡ false }
    {
        Watched {
            inner,
            failed: false,
        }
    }

    /// Whether it has failed.
    pub fn failed(&self) -> bool
        ensures { result ≡ self.now.failed }
    {
        self.failed
    }
}

impl<R: Read> Read for Watched<R> {
    ghost remaining = { λ watched. R.remaining watched.inner };

    fn read(&mut self, buf: &mut [u8]) -> io::Result<usize>
        ensures bound { ReadsAtMost result buf.new }
        ensures bytes { ReadConsumes (R.remaining self.old.inner) (R.remaining self.new.inner) result
            buf.new }
        ensures ok { OnOk result (self.new.failed ≡ self.old.failed) }
        ensures err { OnErr result (self.new.failed ≡ true) }
    {
        let result = self.inner.read(buf);
        self.failed |= result.is_err();
        result
    }
}

impl<W: Write> Write for Watched<W> {
    ghost contents = { λ watched. W.contents watched.inner };

    fn write(&mut self, buf: &[u8]) -> io::Result<usize>
        ensures bound { WritesAtMost result buf.now }
        ensures bytes { WriteAppends (W.contents self.old.inner) (W.contents self.new.inner) result
            buf.now }
        ensures ok { IfOk result (λ n. 0 < n → self.new.failed ≡ self.old.failed) }
        ensures stuck { IfOk result (λ n. n ≡ 0 → 0 < length buf.now → self.new.failed ≡ true) }
        ensures err { OnErr result (self.new.failed ≡ true) }
    {
        let result = self.inner.write(buf);
        self.failed |= match &result {
            Ok(count) => *count == 0 && !buf.is_empty(),
            Err(_) => true,
        };
        result
    }

    fn flush(&mut self) -> io::Result<()>
        ensures bytes { Keeps (W.contents self.old.inner) (W.contents self.new.inner) }
        ensures ok { OnOk result (self.new.failed ≡ self.old.failed) }
        ensures err { OnErr result (self.new.failed ≡ true) }
    {
        let result = self.inner.flush();
        self.failed |= result.is_err();
        result
    }
}
