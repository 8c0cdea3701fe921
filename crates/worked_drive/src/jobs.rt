//! From the words of a launch and the texts of its programs to the system and guests with which it begins.
ghost use Rattle.std.specs.Prelude.{List, IfOk};
ghost use Rattle.option_words.specs.Options.{Text};
ghost use Rattle.job_words.specs.Jobs.{IsJob};
ghost use Rattle.job_words.specs.declared.job.Job.TheVariants.{Launch};
ghost use Rattle.rebuild_tables.specs.Hosts.{IsHosts};
ghost use Rattle.launch_start.specs.HandedOn.{CanBegin};
ghost use Rattle.worked_drive.specs.Ready.{IsReady};

use drive::Wrapped;
use edge_io::MemInputs;
use guest_proc::Guest;
use host_tables::Hosts;
use job_words::{Job, LaunchJob, read_words};
use launch_start::{Start, load};
use rv_asm::assemble;
use std::alloc::{AllocError, Global};
use std::test::Fail;
use sys_abi::VPid;
use views::list_of::ListOf;

/// A program: its name among the inputs, and its text.
pub type Program<'a> = (&'a str, &'a str);

/// The system with which a launch begins, and the own part of each of its processes, under its number.
#[derive(Drop)]
pub struct Beginning {
    pub system: Wrapped,
    pub guests: ListOf<(VPid, Guest)>,
}

/// That of a launch with these words.
pub fn begun(alloc: Global, words: &[&str], programs: &[Program]) -> Result<Box<Beginning>, Fail>
    ensures { IfOk result (λ begun. IsReady begun.value.system begun.value.guests) }
{
    let mut inputs = Box::new(alloc, MemInputs::new(alloc, &[])?)?;
    add_all(alloc, &mut inputs, programs)?;
    begun_from(alloc, words, &mut inputs)
}

/// Adds the programs to the inputs.
fn add_all(alloc: Global, inputs: &mut MemInputs, programs: &[Program]) -> Result<(), Fail> {
    for program in programs {
        add(alloc, inputs, program)?;
    }
    Ok(())
}

fn add(alloc: Global, inputs: &mut MemInputs, program: &Program) -> Result<(), Fail> {
    let (name, text) = *program;
    let file = assemble(alloc, text)?;
    inputs.add(name, file.as_slice())?;
    Ok(())
}

fn begun_from(alloc: Global, words: &[&str], inputs: &mut MemInputs) -> Result<Box<Beginning>, Fail>
    ensures { IfOk result (λ begun. IsReady begun.value.system begun.value.guests) }
{
    let job = job_of(alloc, words)?;
    let start = start_of(alloc, &job, inputs)?;
    begin(alloc, start, job.nodes)
}

#[tactic(auto, using(crate::proofs::Ready::ready))]
fn begin(alloc: Global, start: Box<Start>, nodes: u32) -> Result<Box<Beginning>, Fail>
    requires { CanBegin start.value }
    ensures { IfOk result (λ begun. IsReady begun.value.system begun.value.guests) }
{
    let hosts = hosts_on(nodes)?;
    let (system, guests) = Box::into_inner(start).into_system(alloc, &hosts)?;
    Ok(Box::new(alloc, Beginning { system, guests })?)
}

/// The hosts of a launch, each on the node of its number.
fn hosts_on(nodes: u32) -> Result<Hosts, Fail>
    ensures { IfOk result IsHosts }
{
    if nodes == 0 {
        return Err(Fail::from("no node"));
    }
    if nodes > 16 {
        return Err(Fail::from("too many nodes"));
    }
    Ok(Hosts {
        nodes,
        shift: 0,
        pid_base: 1_000,
        port_base: 20_000,
    })
}

fn start_of(alloc: Global, job: &LaunchJob, inputs: &mut MemInputs) -> Result<Box<Start>, Fail>
    requires { (words : List Text) × IsJob words (Launch job.now) }
    ensures { IfOk result (λ start. CanBegin start.value) }
{
    match load(alloc, job, inputs) {
        Ok(start) => Ok(Box::new(alloc, start)?),
        Err(_) => Err(Fail::from("not loaded")),
    }
}

fn job_of(alloc: Global, words: &[&str]) -> Result<Box<LaunchJob>, Fail>
    ensures { IfOk result (λ job. (words : List Text) × IsJob words (Launch job.value)) }
{
    let words = words_of(alloc, words)?;
    match read_words(alloc, words.as_slice())? {
        Job::Launch(job) => Ok(Box::new(alloc, job)?),
        _ => Err(Fail::from("no launch")),
    }
}

fn words_of(alloc: Global, words: &[&str]) -> Result<Vec<String>, AllocError> {
    let mut copies = Vec::new(alloc);
    for word in words {
        copies.push(String::from_str(alloc, word)?)?;
    }
    Ok(copies)
}
