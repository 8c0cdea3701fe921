ghost use Rattle.std.specs.Prelude.{◌≡◌, ◌<◌, ◌≤◌, List, map, IfOk};
ghost use Rattle.std.specs.Fmt.{decimal};
ghost use Rattle.option_words.specs.Options.{Text};
ghost use Rattle.job_words.specs.declared.job.Job.TheVariants.{Launch, Restart, Ring};
ghost use Rattle.job_words.specs.Commands.{words_of_command};
ghost use Rattle.job_words.specs.Jobs.{IsJob, IsLaunchOf, IsRestartOf, start_of};
ghost use Rattle.job_words.specs.Programs.{argument_bytes};
ghost use Rattle.launch_start.specs.RingJobs.{launch_of, launch_settings, restart_of, restart_settings, member, members};

use crate::inputs::RING;
use itoa::Buffer;
use job_words::{FileName, LaunchJob, NamedProgram, RestartJob, RingJob};
use std::alloc::{AllocError, Global};
use views::list_of::ListOf;

/// For how many records a launch or a restart has room where nothing else is asked for.
const RECORDS: u32 = 1_000_000;

/// The launch of the ring's programs, with its workers and checkpoints.
pub fn launch_job(alloc: Global, ring: RingJob) -> Result<LaunchJob, AllocError>
    requires { (words : List Text) × IsJob words (Ring ring) }
    ensures asked { IfOk result (λ job. IsJob (words_of_command (launch_of ring)) (Launch job)) }
    ensures is { IfOk result (IsLaunchOf (launch_settings ring) (members ring.processes)) }
{
    Ok(LaunchJob {
        nodes: ring.processes,
        workers: ring.workers,
        every: Some(ring.every),
        records: RECORDS,
        file: ListOf::new(alloc),
        programs: programs_of(alloc, ring.processes)?,
    })
}

/// The restart from the last set, with the ring's workers and without checkpoints.
pub fn restart_job(ring: RingJob) -> RestartJob
    requires { (words : List Text) × IsJob words (Ring ring) }
    ensures asked { IsJob (words_of_command (restart_of ring)) (Restart result) }
    ensures is { IsRestartOf (restart_settings ring) result }
{
    RestartJob {
        nodes: 16,
        workers: ring.workers,
        every: None,
        records: RECORDS,
        shift: 0,
        pid_base: 2_000,
        port_base: 30_000,
    }
}

/// The programs of a ring of so many processes, in order.
fn programs_of(alloc: Global, processes: u32) -> Result<ListOf<NamedProgram>, AllocError>
    ensures { IfOk result (λ programs. programs ≡ map start_of (members processes)) }
{
    let mut programs = ListOf::new(alloc);
    for process in 0..processes {
        programs.push(program_of(alloc, process, processes)?)?;
    }
    Ok(programs)
}

/// The program of a process, on the host of its number.
fn program_of(alloc: Global, process: u32, processes: u32) -> Result<NamedProgram, AllocError>
    ensures { IfOk result (λ program. program ≡ start_of (member processes process)) }
{
    let name = FileName::from_string(String::from_str(alloc, RING)?);
    let arguments = ListOf::from_vec(arguments_of(alloc, process, processes)?);
    Ok(NamedProgram {
        host: process,
        name,
        arguments,
    })
}

/// The argument strings of a process, each with a zero byte at its end.
fn arguments_of(alloc: Global, process: u32, processes: u32) -> Result<Vec<u8>, AllocError>
    ensures { IfOk result (λ bytes. bytes.items ≡ argument_bytes (member processes process)) }
{
    let mut number = Buffer::new();
    let mut count = Buffer::new();
    let mut bytes = Vec::from_slice(alloc, b"ring\0")?;
    bytes.extend_from_slice(number.format(process).as_bytes())?;
    bytes.push(0)?;
    bytes.extend_from_slice(count.format(processes).as_bytes())?;
    bytes.push(0)?;
    Ok(bytes)
}
