ghost use Rattle.std.specs.Prelude.{◌≡◌, None};
ghost use Rattle.std.specs.FinMap as map;
ghost use Rattle.proc_book.specs.Procs as words;

use crate::process::Process;
use virt_ids::ByRealPid;
use virt_ids::sys_abi::{Life, RealPid};

/// What a wait finds.
#[derive(Clone, Copy, Debug, PartialEq, Eq)]
pub enum Waiting {
    NoChild,
    /// No child of those asked for has ended.
    NotReady,
    /// The least child that has ended, with its status.
    Ended(RealPid, u32),
}

/// What a wait of a process finds, for this child or for any.
pub(crate) fn wait_for(
    processes: &ByRealPid<Process>,
    p: RealPid,
    child: Option<RealPid>,
) -> Waiting
    ensures { result ≡ words.wait_for processes.now p child }
{
    match child {
        None => wait_any(processes, p),
        Some(child) => wait_by(processes, p, child),
    }
}

fn wait_by(processes: &ByRealPid<Process>, p: RealPid, child: RealPid) -> Waiting
    ensures { result ≡ words.wait_by p child (map.get processes.now child) }
{
    match processes.get(child) {
        None => Waiting::NoChild,
        Some(process) if process.is_child_of(p) => wait_of(child, process.life),
        Some(_) => Waiting::NoChild,
    }
}

fn wait_of(r: RealPid, life: Life) -> Waiting
    ensures { result ≡ words.wait_of r life }
{
    match life {
        Life::Live => Waiting::NotReady,
        Life::Zombie(status) => Waiting::Ended(r, status),
    }
}

fn wait_any(processes: &ByRealPid<Process>, p: RealPid) -> Waiting
    ensures { result ≡ words.wait_any p (map.entries processes.now) }
{
    let mut found = Waiting::NoChild;
    for (r, process) in processes.iter().rev() {
        if process.is_child_of(p) {
            found = ended_first(*r, process.life, found);
        }
    }
    found
}

/// What is found where this child comes before those that were looked at.
fn ended_first(r: RealPid, life: Life, later: Waiting) -> Waiting
    ensures { result ≡ words.ended_first r life later }
{
    match life {
        Life::Zombie(status) => Waiting::Ended(r, status),
        Life::Live => match later {
            Waiting::Ended(_, _) => later,
            Waiting::NoChild => Waiting::NotReady,
            Waiting::NotReady => Waiting::NotReady,
        },
    }
}
