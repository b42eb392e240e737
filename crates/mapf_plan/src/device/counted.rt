ghost use Rattle.std.specs.Prelude.{◌≡◌};

use std::marker::Model;

/// A device of std with a count of its failures: a [`Source`](super::Source) where the device is a
/// reader, and a [`Sink`](super::Sink) where it is a writer.
///
/// A contract sees it as the pair of the device and the count.
#[derive(Debug, Drop)]
pub struct Counted<T> {
    pub(super) device: T,
    pub(super) failures: u64,
}

impl<T> Model for Counted<T> {
    ghost use Rattle.std.specs.Prelude.{ℕ};

    ghost Value = { T × ℕ };

    ghost view = { λ c. (c.device, c.failures) };
}

impl<T> Counted<T> {
    /// This device, with no failure counted so far.
    pub fn of(device: T) -> Self
        ensures { result ≡ (device, 0) }
    {
        Counted {
            device,
            failures: 0,
        }
    }
}
