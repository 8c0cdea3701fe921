ghost use Rattle.std.specs.Prelude.{◌≡◌, ℕ, ◌^◌, ◌<◌, ◌≤◌, OnOk, OnErr, take};
ghost use Rattle.views.specs.Faults.{IsFaultOf};
ghost use Rattle.edge_io.specs.Sink.{SeenSink, appended};

use thiserror::Error;

/// Why a piece was not taken whole.
#[derive(Clone, Copy, Debug, PartialEq, Eq, Error)]
pub enum SinkFault {
    #[error("the sink failed")]
    Failed,
}

/// Takes bytes, in pieces and in order.
///
/// A sink that can't say what came of its bytes, as a stream of the host, tells none.
pub trait Sink {
    /// What is seen of the sink at a moment.
    ghost seen: { Self → SeenSink };

    /// Takes the whole piece, or fails and has taken some first part of it, which may be none. The
    /// call takes no memory that its caller could be refused.
    fn put(&mut self, piece: &[u8]) -> Result<(), SinkFault>
        ensures ok { OnOk result ((seen self.new).taken ≡ appended (seen self.old).taken piece.now) }
        ensures err { OnErr result
            ((n : ℕ) × ((seen self.new).taken ≡ appended (seen self.old).taken (take n piece.now))) }
        ensures cause { IsFaultOf result SinkFault.Failed (seen self.old).faults (seen self.new).faults }
        ensures later { (seen self.old).faults ≤ (seen self.new).faults }
        ensures small { (seen self.new).faults < 2 ^ 64 };
}
