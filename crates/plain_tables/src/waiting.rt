//! What a process that waits for its children finds (`man 2 wait4`).
ghost use Rattle.std.specs.Prelude.{◌≡◌};
ghost use Rattle.std.specs.FinMap as map;
ghost use Rattle.plain_tables.specs.Waits as words;

use crate::process::Process;
use id_maps::ByPid;
use id_maps::sys_abi::{Life, VPid};

/// What a wait finds.
#[derive(Clone, Copy)]
pub enum Waiting {
    NoChild,
    /// No child of those asked for has ended.
    NotReady,
    /// The least child that has ended, with its status.
    Ended(VPid, u32),
}

impl Waiting {
    /// Whether the call need not wait.
    pub fn is_answered(self) -> bool
        ensures { result ≡ words.is_answered self }
    {
        match self {
            Waiting::NotReady => false,
            _ => true,
        }
    }
}

/// What a wait of a process finds for this child.
pub fn wait_by(processes: &ByPid<Process>, p: VPid, child: VPid) -> Waiting
    ensures { result ≡ words.wait_by p child (map.get processes.now child) }
{
    match processes.get(child) {
        None => Waiting::NoChild,
        Some(process) if process.is_child_of(p) => wait_of(child, process.life),
        Some(_) => Waiting::NoChild,
    }
}

fn wait_of(q: VPid, life: Life) -> Waiting
    ensures { result ≡ words.wait_of q life }
{
    match life {
        Life::Live => Waiting::NotReady,
        Life::Zombie(status) => Waiting::Ended(q, status),
    }
}

/// What a wait of a process finds for any child.
pub fn wait_any(processes: &ByPid<Process>, p: VPid) -> Waiting
    ensures { result ≡ words.wait_any p (map.entries processes.now) }
{
    let mut found = Waiting::NoChild;
    for (q, process) in processes.iter().rev() {
        if process.is_child_of(p) {
            found = ended_first(*q, process.life, found);
        }
    }
    found
}

/// What is found where this child comes before those that were looked at.
fn ended_first(q: VPid, life: Life, later: Waiting) -> Waiting
    ensures { result ≡ words.ended_first q life later }
{
    match life {
        Life::Zombie(status) => Waiting::Ended(q, status),
        Life::Live => match later {
            Waiting::Ended(_, _) => later,
            Waiting::NoChild => Waiting::NotReady,
            Waiting::NotReady => Waiting::NotReady,
        },
    }
}
