ghost use Rattle.std.specs.Prelude.{◌≡◌, ◌+◌, ◌-◌, ◌^◌, ◌<◌, ◌≤◌, IfOk, string_bytes};
ghost use Rattle.trace_log.specs.LogText.{kind_text, line_of, after, at_start, log_text};

use std::alloc::{AllocError, Global};
use sys_abi::{Cause, Kind, Record};

/// How far a log has come in its trace.
#[derive(Clone, Copy)]
pub struct Progress {
    /// The number of the request that the next outcome is of, counted from 1.
    pub request: u64,
    /// The bytes drained since the outcome before. The sum of the `Drained` records of any trace
    /// fits.
    pub drained: u128,
}

impl Progress {
    /// Before the first record.
    pub fn at_start() -> Progress
        ensures { result ≡ at_start }
    {
        Progress {
            request: 1,
            drained: 0,
        }
    }

    /// The line that the record adds to the log, with its newline. It is empty where the record is no
    /// outcome of a request.
    #[tactic(auto, unfolding(crate::specs::LogText::line_of))]
    pub fn line_of(&self, alloc: Global, event: &Record) -> Result<String, AllocError>
        ensures { IfOk result (λ line. string_bytes line ≡ line_of self.now event.now) }
    {
        let request = self.request;
        let drained = self.drained;
        match *event {
            Record::Complete { generation } => {
                format!(in alloc;
                    "checkpoint {request} complete: generation {generation}, drained {drained}\n"
                )
            }
            Record::Refused { cause } => refusal(alloc, request, cause),
            Record::Lapsed => format!(in alloc; "checkpoint {request} lapsed\n"),
            _ => Ok(String::new(alloc)),
        }
    }

    /// Goes past the record.
    #[tactic(auto, unfolding(crate::specs::LogText::after))]
    pub fn pass(&mut self, event: &Record)
        requires requests { self.old.request + 1 < 2 ^ 64 }
        requires bytes { self.old.drained + 2 ^ 32 ≤ 2 ^ 128 }
        ensures value { self.new ≡ after self.old event.now }
        ensures next { self.new.request ≤ self.old.request + 1 }
        ensures more { self.new.drained ≤ self.old.drained + 2 ^ 32 }
    {
        match *event {
            Record::Drained { n, .. } => self.drained += u128::from(n),
            Record::Complete { .. } | Record::Refused { .. } | Record::Lapsed => {
                self.request += 1;
                self.drained = 0;
            }
            _ => {}
        }
    }
}

#[tactic(auto, unfolding(crate::specs::LogText::line_of))]
fn refusal(alloc: Global, request: u64, cause: Cause) -> Result<String, AllocError>
    ensures { IfOk result (λ line. (so_far : Progress) → so_far.request ≡ request →
        string_bytes line ≡ line_of so_far (Record.Refused cause)) }
{
    match cause {
        Cause::Unsupported { p, fd, kind } => {
            let p = p.0;
            let fd = fd.0;
            let kind = kind_text(kind);
            format!(in alloc;
                "checkpoint {request} refused: process {p} descriptor {fd} is {kind}\n"
            )
        }
        Cause::DiskFault => format!(in alloc; "checkpoint {request} refused: disk fault\n"),
        Cause::Memory => format!(in alloc; "checkpoint {request} refused: memory\n"),
    }
}

#[tactic(auto, unfolding(crate::specs::LogText::kind_text))]
fn kind_text(kind: Kind) -> &'static str
    ensures { result.now ≡ kind_text kind }
{
    match kind {
        Kind::Console => "the console",
        Kind::File => "a file",
        Kind::Stream => "a stream",
        Kind::Socket => "a socket",
        Kind::Listener => "a listener",
        Kind::Datagram => "a datagram pair",
        Kind::Counter => "an event counter",
    }
}

/// The lines that a run writes on its log for the checkpoints in its trace.
pub fn log_text(alloc: Global, trace: &[Record]) -> Result<Vec<u8>, AllocError>
    ensures { IfOk result (λ text. text.items ≡ log_text trace.now) }
{
    let mut text = Vec::new(alloc);
    let mut so_far = Progress::at_start();
    for event in trace {
        let line = so_far.line_of(alloc, event)?;
        text.extend_from_slice(line.as_bytes())?;
        so_far.pass(event);
    }
    Ok(text)
}
