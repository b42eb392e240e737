ghost use Rattle.std.specs.Prelude.{◌≡◌, ◌<◌, ℕ, List, Option, None, is_err};
ghost use Rattle.std.specs.Io.{WritesAtMost};
ghost use Rattle.std.specs.Io.KnownBytes.{Keeps, WriteAppends};
ghost use Rattle.mapf_plan.specs.Device.{Counts, write_fails};

use super::Counted;
use std::io;
use std::io::Write;

/// A writer that counts its failures: each call that answers an error, an interruption too, and each
/// `write` of some bytes that takes none of them, is one.
pub trait Sink {
    // How many calls have failed.
    ghost failures: { Self → ℕ };

    // The bytes that the sink holds, where they are known.
    ghost contents: { Self → Option (List ℕ) } = { λ _. None };

    /// Takes some bytes from the front of the buffer, and answers how many.
    fn write(&mut self, buf: &[u8]) -> io::Result<usize>
        requires { failures self.old < u64.MAX }
        ensures bound { WritesAtMost result buf.now }
        ensures bytes { WriteAppends (contents self.old) (contents self.new) result buf.now }
        ensures counted { Counts (write_fails result buf.now) (failures self.old) (failures self.new) };

    /// Passes on what a buffer still holds.
    fn flush(&mut self) -> io::Result<()>
        requires { failures self.old < u64.MAX }
        ensures bytes { Keeps (contents self.old) (contents self.new) }
        ensures counted { Counts (is_err result) (failures self.old) (failures self.new) };

    /// How many calls of `write` and `flush` have failed.
    fn failures(&self) -> u64
        ensures { result ≡ failures self.now };
}

impl<W: Write> Sink for Counted<W> {
    ghost failures = { λ c. c.1 };

    ghost contents = { λ c. W.contents c.0 };

    fn write(&mut self, buf: &[u8]) -> io::Result<usize> {
        let result = self.device.write(buf);
        let has_failed = match result {
            Ok(taken) => taken == 0 && !buf.is_empty(),
            Err(_) => true,
        };
        self.failures += u64::from(has_failed);
        result
    }

    fn flush(&mut self) -> io::Result<()> {
        let result = self.device.flush();
        self.failures += u64::from(result.is_err());
        result
    }

    fn failures(&self) -> u64 {
        self.failures
    }
}
