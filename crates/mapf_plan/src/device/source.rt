ghost use Rattle.std.specs.Prelude.{◌≡◌, ◌<◌, ℕ, List, Option, None, is_err};
ghost use Rattle.std.specs.Io.{ReadsAtMost};
ghost use Rattle.std.specs.Io.KnownBytes.{ReadConsumes};
ghost use Rattle.mapf_plan.specs.Device.{Counts};

use super::Counted;
use std::io;
use std::io::Read;

/// A reader that counts its failures: each call that answers an error, an interruption too, is one.
pub trait Source {
    // How many calls have failed.
    ghost failures: { Self → ℕ };

    // The bytes that reads will give from here on, where they are known.
    ghost remaining: { Self → Option (List ℕ) } = { λ _. None };

    /// Reads some bytes into the front of the buffer, and answers how many: none only at the end, or
    /// where the buffer has no room.
    fn read(&mut self, buf: &mut [u8]) -> io::Result<usize>
        requires { failures self.old < u64.MAX }
        ensures bound { ReadsAtMost result buf.new }
        ensures bytes { ReadConsumes (remaining self.old) (remaining self.new) result buf.new }
        ensures counted { Counts (is_err result) (failures self.old) (failures self.new) };

    /// How many calls of `read` have failed.
    fn failures(&self) -> u64
        ensures { result ≡ failures self.now };
}

impl<R: Read> Source for Counted<R> {
    ghost failures = { λ c. c.1 };

    ghost remaining = { λ c. R.remaining c.0 };

    fn read(&mut self, buf: &mut [u8]) -> io::Result<usize> {
        let result = self.device.read(buf);
        self.failures += u64::from(result.is_err());
        result
    }

    fn failures(&self) -> u64 {
        self.failures
    }
}
