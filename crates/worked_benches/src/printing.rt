use crate::outcome::Outcome;
use std::alloc::AllocError;
use std::fmt::Write;
use sys_abi::{Cause, Dir, Record};

/// Which parts of an outcome are printed.
#[derive(Clone, Copy)]
pub struct Shown {
    pub status: bool,
    pub console: bool,
    pub log: bool,
    pub trace: bool,
}

/// All parts.
pub const ALL: Shown = Shown {
    status: true,
    console: true,
    log: true,
    trace: true,
};

/// No part.
pub const NONE: Shown = Shown {
    status: false,
    console: false,
    log: false,
    trace: false,
};

/// Prints what a call left.
pub fn put_outcome(text: &mut String, outcome: &Outcome, shown: Shown) -> Result<(), AllocError> {
    if shown.status {
        put_status(text, outcome)?;
    }
    if shown.console {
        put_stream(text, "console", outcome.console())?;
    }
    if shown.log {
        put_stream(text, "log", outcome.log())?;
    }
    if shown.trace {
        put_trace(text, outcome)?;
    }
    Ok(())
}

fn put_status(text: &mut String, outcome: &Outcome) -> Result<(), AllocError> {
    let status = outcome.status;
    let code = status.code();
    writeln!(text, "  status {code} {status:?}")
}

/// Prints what a sink took: as a text where it is one, else in hexadecimal.
pub fn put_stream(text: &mut String, name: &str, bytes: &[u8]) -> Result<(), AllocError> {
    let count = bytes.len();
    writeln!(text, "  {name} {count}")?;
    if bytes.iter().all(|byte| is_plain(*byte)) {
        put_text(text, bytes)
    } else {
        put_hexadecimal(text, bytes)
    }
}

fn is_plain(byte: u8) -> bool {
    byte == b'\n' || (0x20 <= byte && byte < 0x7F)
}

/// Prints the lines of a text.
fn put_text(text: &mut String, bytes: &[u8]) -> Result<(), AllocError> {
    let mut is_first = true;
    for byte in bytes {
        if is_first {
            text.push_str("    ")?;
        }
        is_first = *byte == b'\n';
        put_plain(text, *byte)?;
    }
    if !is_first {
        text.push('\n')?;
    }
    Ok(())
}

fn put_plain(text: &mut String, byte: u8) -> Result<(), AllocError> {
    if byte == b'\n' {
        return text.push_str("\\n\n");
    }
    text.push(char::from(byte))?;
    Ok(())
}

/// Prints bytes in hexadecimal, sixteen a line.
pub fn put_hexadecimal(text: &mut String, bytes: &[u8]) -> Result<(), AllocError> {
    for row in bytes.chunks(16) {
        text.push_str("   ")?;
        put_row(text, row)?;
        text.push('\n')?;
    }
    Ok(())
}

fn put_row(text: &mut String, row: &[u8]) -> Result<(), AllocError> {
    for byte in row {
        write!(text, " {byte:02X}")?;
    }
    Ok(())
}

fn put_trace(text: &mut String, outcome: &Outcome) -> Result<(), AllocError> {
    let count = outcome.records().len();
    let room = (count as u64).saturating_add(outcome.trace.room() as u64);
    writeln!(text, "  trace {count} of {room}")?;
    for record in outcome.records() {
        put_record(text, record)?;
    }
    Ok(())
}

fn put_record(text: &mut String, record: &Record) -> Result<(), AllocError> {
    match record {
        Record::User { p, t, n } => put_work(text, "user", p.0, t.0, Some(*n)),
        Record::Call { p, t } => put_work(text, "call", p.0, t.0, None),
        Record::Deliver { p, t, s } => put_work(text, "deliver", p.0, t.0, Some(s.0)),
        Record::Arrive { dir, n } => put_bytes_moved(text, "arrive", dir, *n),
        Record::Drained { dir, n } => put_bytes_moved(text, "drained", dir, *n),
        Record::Refilled { dir, n } => put_bytes_moved(text, "refilled", dir, *n),
        Record::Cut { generation } => writeln!(text, "    cut {generation}"),
        Record::Complete { generation } => writeln!(text, "    complete {generation}"),
        Record::Refused { cause } => put_refusal(text, cause),
        Record::Lapsed => text.push_str("    lapsed\n"),
    }
}

fn put_work(
    text: &mut String,
    name: &str,
    process: u32,
    thread: u32,
    number: Option<u32>,
) -> Result<(), AllocError> {
    match number {
        Some(number) => writeln!(text, "    {name} {process} {thread} {number}"),
        None => writeln!(text, "    {name} {process} {thread}"),
    }
}

fn put_bytes_moved(text: &mut String, name: &str, dir: &Dir, count: u32) -> Result<(), AllocError> {
    let maker = dir.conn.pid.0;
    let channel = dir.conn.num;
    let side = dir.side;
    writeln!(text, "    {name} {maker} {channel} {side} {count}")
}

fn put_refusal(text: &mut String, cause: &Cause) -> Result<(), AllocError> {
    match cause {
        Cause::Unsupported { p, fd, kind } => {
            let process = p.0;
            let descriptor = fd.0;
            writeln!(text, "    refused {process} {descriptor} {kind:?}")
        }
        Cause::DiskFault => text.push_str("    refused disk fault\n"),
        Cause::Memory => text.push_str("    refused memory\n"),
    }
}

/// Prints whether something holds.
pub fn put_answer(text: &mut String, what: &str, holds: bool) -> Result<(), AllocError> {
    let answer = if holds { "yes" } else { "NO" };
    writeln!(text, "  {what}: {answer}")
}
