ghost use Rattle.std.specs.Prelude.{◌≡◌, None};
ghost use Rattle.edge_io.specs.Sink.{SeenSink};

use edge_io::{Sink, SinkFault};

/// A sink that takes all bytes, keeps none and tells none.
#[derive(Clone, Copy, Drop)]
pub struct Discard;

impl Sink for Discard {
    ghost seen = { λ _. record { taken = None; faults = 0 } };

    fn put(&mut self, piece: &[u8]) -> Result<(), SinkFault> {
        let _ = piece;
        Ok(())
    }
}
