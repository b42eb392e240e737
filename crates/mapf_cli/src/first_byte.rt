use mapf_plan::Sink;
use std::io;

/// A sink over another, which passes every call on and keeps the first byte that was taken.
#[derive(Drop)]
pub(crate) struct FirstByte<'a, S> {
    /// The sink below.
    pub(crate) sink: &'a mut S,
    /// The first byte that it took, if it took any.
    pub(crate) first: Option<u8>,
}

impl<S: Sink> Sink for FirstByte<'_, S> {
    ghost failures = { λ f. S.failures f.sink.now };

    ghost contents = { λ f. S.contents f.sink.now };

    fn write(&mut self, buf: &[u8]) -> io::Result<usize> {
        let taken = self.sink.write(buf)?;
        if taken > 0 && self.first.is_none() {
            self.first = buf.first().copied();
        }
        Ok(taken)
    }

    fn flush(&mut self) -> io::Result<()> {
        self.sink.flush()
    }

    fn failures(&self) -> u64 {
        self.sink.failures()
    }
}
