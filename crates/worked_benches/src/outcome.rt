use dmtcp_top::Status;
use edge_io::{MemInputs, MemSink};
use sys_abi::Record;
use trace_log::Trace;

/// The inputs and the sinks of a call.
#[derive(Drop)]
pub struct Streams {
    pub inputs: MemInputs,
    pub console: MemSink,
    pub log: MemSink,
}

/// What a call left.
pub struct Outcome {
    pub status: Status,
    pub trace: Trace,
    pub streams: Box<Streams>,
}

// Written out, so that it is one call to drop what a call left.
impl Drop for Outcome {
    fn drop(self) {
        let Outcome {
            status: _,
            trace: _,
            streams: _,
        } = self;
    }
}

impl Outcome {
    /// The records of the trace.
    pub fn records(&self) -> &[Record] {
        self.trace.as_slice()
    }

    /// What the console took.
    pub fn console(&self) -> &[u8] {
        self.streams.console.bytes()
    }

    /// What the log took.
    pub fn log(&self) -> &[u8] {
        self.streams.log.bytes()
    }

    /// Whether the other call left the same.
    pub fn is_like(&self, other: &Outcome) -> bool {
        self.status == other.status
            && self.console() == other.console()
            && self.log() == other.log()
            && self.records() == other.records()
    }
}
