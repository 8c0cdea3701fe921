//! Command lines of larger jobs: the job that each asks for.
//!
//! A line's words stand between single spaces, so two spaces have an empty word between them; `\s` is a space
//! in a word, and `\0` a zero byte. Each of the lines of usage breaks one rule of the grammar.

use job_words::{
    FileName, Job, LaunchJob, NamedProgram, RestartJob, RingJob, WordFault, read_words,
};
use std::alloc::{AllocError, Global};

fn words_of(alloc: Global, line: &str) -> Result<Vec<String>, AllocError> {
    let mut words = Vec::new(alloc);
    for word in line.split(' ') {
        let spaced = word.replace(alloc, "\\s", " ")?;
        words.push(spaced.as_str().replace(alloc, "\\0", "\0")?)?;
    }
    Ok(words)
}

/// After how many records of work a checkpoint is asked for.
fn rate(alloc: Global, every: Option<u32>) -> Result<String, AllocError> {
    match every {
        Some(records) => format!(in alloc; "every {records}"),
        None => format!(in alloc; "no checkpoints"),
    }
}

/// A program: its host, its file, and its argument strings, each up to its zero byte.
fn program(alloc: Global, program: &NamedProgram) -> Result<String, AllocError> {
    let arguments = String::from_utf8_lossy(alloc, program.arguments.as_slice())?;
    let arguments = arguments.as_str().replace(alloc, "\0", "\\0")?;
    format!(in alloc;
        ", program {} {} {arguments}",
        program.host,
        program.name.as_str()
    )
}

fn file(alloc: Global, name: &FileName) -> Result<String, AllocError> {
    format!(in alloc; ", file {}", name.as_str())
}

fn launch(alloc: Global, job: &LaunchJob) -> Result<String, AllocError> {
    let rate = rate(alloc, job.every)?;
    let mut text = format!(in alloc;
        "launch: nodes {}, workers {}, {rate}, records {}",
        job.nodes, job.workers, job.records
    )?;
    for name in job.file.as_slice() {
        text.push_str(file(alloc, name)?.as_str())?;
    }
    for named in job.programs.as_slice() {
        text.push_str(program(alloc, named)?.as_str())?;
    }
    Ok(text)
}

fn restart(alloc: Global, job: RestartJob) -> Result<String, AllocError> {
    let rate = rate(alloc, job.every)?;
    let first = format!(in alloc;
        "restart: nodes {}, workers {}, {rate}",
        job.nodes, job.workers
    )?;
    let last = format!(in alloc;
        "shift {}, pid base {}, port base {}",
        job.shift, job.pid_base, job.port_base
    )?;
    format!(in alloc; "{first}, records {}, {last}", job.records)
}

fn ring(alloc: Global, job: RingJob) -> Result<String, AllocError> {
    format!(in alloc;
        "ring of {}: workers {}, every {}",
        job.processes, job.workers, job.every
    )
}

fn said(alloc: Global, found: Result<Job, WordFault>) -> Result<String, AllocError> {
    match found {
        Ok(Job::Launch(job)) => launch(alloc, &job),
        Ok(Job::Restart(job)) => restart(alloc, job),
        Ok(Job::Ring(job)) => ring(alloc, job),
        Ok(Job::Help) => format!(in alloc; "help"),
        Err(fault) => format!(in alloc; "{fault}"),
    }
}

/// The line with the job that its words ask for.
pub fn answer(alloc: Global, line: &str) -> Result<String, AllocError> {
    let words = words_of(alloc, line)?;
    let text = said(alloc, read_words(alloc, words.as_slice()))?;
    format!(in alloc; "{line} => {text}")
}
