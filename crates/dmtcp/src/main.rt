//! The program `dmtcp`: the top call over the host's arguments, current folder and standard streams.
//!
//! Its words are those after the program's own name. Inputs are files of the current folder, sets of
//! checkpoints lie in its folder `dmtcp_set`, the console is standard output, the log standard error. The
//! trace is written to `dmtcp.trace` where it has a record; that this fails changes nothing else. The exit
//! status is that of the top call.
//!
//! The promise is the top call's, in the crate `dmtcp_top`. Proved here: what `exit_code`, `unreadable`,
//! `greeting` and `said` answer to what they are handed, and that the trace is empty when it is handed in.
//! That the program ends is not: the top call may wait on the host. What is left is that these arguments,
//! files, streams and answers are the ones handed on, and that the trace is written, since no clause can tell
//! one stream of the host from another: the stored run shows it of the program's file and standard output,
//! the scripts of `docs/TRIALS.md` of each status, the folder of sets, standard error and the trace. A sole
//! word `--help` or `--version` is answered here.
#![tactic(auto)]

ghost use Rattle.std.specs.Prelude.{◌≡◌, ◌≢◌, [], map, string_bytes, option_map, codes};
ghost use Rattle.std.specs.IoError.{error_kind};
ghost use Rattle.std.specs.Process.{exit_status};
ghost use Rattle.endings.specs.Statuses.{number_of};
ghost use Rattle.dmtcp.specs.Answers.{Greets, Said};

use dmtcp_top::{FORMS, Status, dmtcp};
use edge_io::{HostInputs, HostSink, Inputs, Sink};
use set_disk::{Folder, HostFolder};
use std::alloc::Global;
use std::env::Env;
use std::io::ErrorKind;
use std::process::ExitCode;
use std::rt::Files;
use std::sync::Wait;
use std::thread::Threads;
use std::{env, fs, io};
use trace_log::Trace;

/// Where the trace is written.
const TRACE_FILE: &str = "dmtcp.trace";

/// Where the sets of checkpoints lie.
const SET_FOLDER: &str = "dmtcp_set";

const VERSION: &str = "dmtcp 0.1.0\n";

fn main(rt: HostRuntime) -> ExitCode {
    let mut out = HostSink::new(rt.stdout());
    let mut log = HostSink::new(rt.stderr());
    let words = match words_after_name(&rt) {
        Ok(words) => words,
        Err(error) => return exit_code(unreadable(&error, &mut log)),
    };
    if let Some(text) = greeting(words.as_slice()) {
        return exit_code(said(text, Status::Done, &mut out));
    }
    let Ok(mut disk) = HostFolder::new(&rt, rt.alloc(), SET_FOLDER) else {
        return exit_code(said("memory\n", Status::Memory, &mut log));
    };
    let mut inputs = HostInputs::new(&rt);
    let mut trace = Trace::new(rt.alloc());
    let status = carried_out(
        &rt,
        words.as_slice(),
        &mut inputs,
        &mut out,
        &mut log,
        &mut disk,
        &mut trace,
    );
    write_trace(&rt, &trace);
    exit_code(status)
}

/// The top call. Its promise is `dmtcp_top`'s, and nothing here rests on it.
fn carried_out<
    R: Wait + Threads + Sync + Alloc<A = Global>,
    I: Inputs,
    O: Sink,
    L: Sink,
    F: Folder,
>(
    rt: &R,
    words: &[String],
    inputs: &mut I,
    out: &mut O,
    log: &mut L,
    disk: &mut F,
    trace: &mut Trace,
) -> Status
    requires { trace.old.records ≡ [] }
{
    dmtcp(rt, rt.alloc(), words, inputs, out, log, disk, trace)
}

/// What the program ends with.
fn exit_code(status: Status) -> ExitCode
    ensures { exit_status result ≡ number_of status }
{
    ExitCode::from(status.code())
}

/// The words of the command line, without the program's own name.
fn words_after_name<R: Env + Alloc<A = Global>>(rt: &R) -> io::Result<Vec<String>> {
    let mut words = Vec::new(rt.alloc());
    for word in env::args(rt)?.skip(1) {
        words.push(word)?;
    }
    Ok(words)
}

/// The status where the words could not be read: those that are no text are none of the command line's.
fn unreadable<L: Sink>(error: &io::Error, log: &mut L) -> Status
    ensures memory { error_kind error.now ≡ ErrorKind.OutOfMemory →
        Said (codes "memory\n") Status.Memory result (L.seen log.old) (L.seen log.new) }
    ensures usage { error_kind error.now ≢ ErrorKind.OutOfMemory →
        Said (codes "usage\n") Status.Usage result (L.seen log.old) (L.seen log.new) }
{
    match error.kind() {
        ErrorKind::OutOfMemory => said("memory\n", Status::Memory, log),
        _ => said("usage\n", Status::Usage, log),
    }
}

/// What to say where the words ask for nothing but help or the version.
fn greeting(words: &[String]) -> Option<&'static str>
    ensures { Greets (map string_bytes words.now) (option_map (λ text. text.now) result) }
{
    match words {
        [word] => match word.as_str() {
            "--help" => Some(FORMS),
            "--version" => Some(VERSION),
            _ => None,
        },
        _ => None,
    }
}

/// Puts a text on a sink: the status, where it was taken whole.
fn said<O: Sink>(text: &str, status: Status, sink: &mut O) -> Status
    ensures { Said text.now status result (O.seen sink.old) (O.seen sink.new) }
{
    match sink.put(text.as_bytes()) {
        Ok(()) => status,
        Err(_) => Status::SinkFault,
    }
}

/// Writes the trace's bytes, if it has any. A failure changes nothing.
fn write_trace<R: Files + Alloc<A = Global>>(rt: &R, trace: &Trace) {
    if trace.as_slice().is_empty() {
        return;
    }
    if let Ok(bytes) = trace.to_bytes(rt.alloc()) {
        let _ = fs::write(rt, TRACE_FILE, bytes);
    }
}
