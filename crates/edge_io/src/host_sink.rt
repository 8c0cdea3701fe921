ghost use Rattle.std.specs.Prelude.{◌≡◌, None};

use crate::sink::{Sink, SinkFault};
use std::io;
use std::io::{Error, ErrorKind, Print};
use std::thread::yield_now;

/// A stream of the host: standard output, or standard error. It tells no bytes.
///
/// `P` is std's handle of the stream, as `Stdout` or `Stderr`. It holds nothing back, so the bytes
/// of a piece are out when its call returns. A stream that isn't ready to take bytes is waited for.
#[derive(Drop)]
pub struct HostSink<P> {
    stream: P,
    faults: u64,
}

impl<P> HostSink<P> {
    /// A sink on the stream, without faults so far.
    pub fn new(stream: P) -> Self
        ensures { result ≡ record { stream = stream; faults = 0 } }
    {
        HostSink { stream, faults: 0 }
    }
}

impl<P: Print> Sink for HostSink<P> {
    ghost seen = { λ sink. record { taken = None; faults = sink.faults } };

    fn put(&mut self, piece: &[u8]) -> Result<(), SinkFault> {
        let _in_range = self.faults;
        if write_whole(&self.stream, piece).is_err() {
            self.faults = self.faults.saturating_add(1);
            return Err(SinkFault::Failed);
        }
        Ok(())
    }
}

/// Writes the whole piece. As long as the stream isn't ready, other threads run and it is asked again.
fn write_whole<P: Print>(stream: &P, piece: &[u8]) -> io::Result<()> {
    let mut rest = piece;
    for _ in 0..u64::MAX {
        if rest.is_empty() {
            return Ok(());
        }
        match stream.write_some(rest) {
            Ok(0) => return Err(Error::from(ErrorKind::WriteZero)),
            Ok(count) => rest = &rest[count..],
            Err(error) => match error.kind() {
                ErrorKind::WouldBlock => yield_now(),
                ErrorKind::Interrupted => {}
                _ => return Err(error),
            },
        }
    }
    Err(Error::from(ErrorKind::TimedOut))
}
