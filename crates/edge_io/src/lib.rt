//! What a run reads from and writes to outside itself: named inputs, and sinks of bytes.
//!
//! A run is generic over [`Inputs`] and [`Sink`], whose contracts say what it may rely on: what a
//! read answers where the inputs tell their files, that a put appends its piece where the sink
//! tells its bytes, and that an answer `Failed` comes only where the object's count of faults rose.
//! Objects in memory, [`MemInputs`] and [`MemSink`], tell their content and fail at calls that are
//! named beforehand. [`HostInputs`] and [`HostSink`] adapt files, standard output and standard
//! error. They tell no content.
//!
//! Proved: each of the four meets the contract of its trait, and what the objects in memory hold
//! after each call. Not proved: what a file or a stream of the host holds. Nothing here restates a
//! standard.
#![tactic(auto)]

pub mod fault_script;
pub mod host_inputs;
pub mod host_sink;
pub mod inputs;
pub mod mem_inputs;
pub mod mem_sink;
pub mod named_bytes;
pub mod sink;

pub use host_inputs::HostInputs;
pub use host_sink::HostSink;
pub use inputs::{InputFault, Inputs};
pub use mem_inputs::MemInputs;
pub use mem_sink::MemSink;
pub use sink::{Sink, SinkFault};
