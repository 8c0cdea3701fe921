//! What the end of a process does to the other processes, to their makers and to the owners of descriptions.
ghost use Rattle.std.specs.Prelude.{◌≡◌, true, not};
ghost use Rattle.plain_process.specs.OfViews.Maps.{map_values, retain};
ghost use Rattle.plain_tables.specs.Ends as words;
ghost use Rattle.plain_tables.specs.Tables.{changed_at};

use crate::description::Description;
use crate::process::Process;
use id_maps::sys_abi::{Life, Maker, VPid};
use id_maps::{ByDesc, ByPid};
use plain_process::views::number_map::NumberMap;
use std::alloc::Global;

/// The parent of a process that nobody waits for.
pub const NOBODY: u32 = 1;

impl Process {
    /// Whether that one is its parent.
    pub fn is_child_of(&self, p: VPid) -> bool
        ensures { result ≡ words.is_child_of p self.now }
    {
        self.parent == p.0
    }

    /// Whether it is a child of that one, and has ended.
    fn is_zombie_child_of(&self, p: VPid) -> bool
        ensures { result ≡ words.is_zombie_child p self.now }
    {
        self.is_child_of(p) && !self.life.is_live()
    }

    /// Leaves it without a parent if its parent is that one. Always answers true.
    fn orphan(&mut self, p: VPid) -> bool
        ensures yes { result ≡ true }
        ensures orphaned { self.new ≡ words.orphan p self.old }
    {
        if self.is_child_of(p) {
            self.parent = NOBODY;
        }
        true
    }

    /// It has ended with that status.
    fn end(&mut self, alloc: Global, status: u32)
        ensures { self.new ≡ words.zombie status self.old }
    {
        self.life = Life::Zombie(status);
        self.pending = 0;
        self.threads = NumberMap::new(alloc);
    }
}

impl Description {
    /// Leaves it without an owner if its owner is that one. Always answers true.
    fn disown(&mut self, p: VPid) -> bool
        ensures yes { result ≡ true }
        ensures disowned { self.new ≡ words.disown p self.old }
    {
        if self.owner == p.0 {
            self.owner = 0;
        }
        true
    }
}

fn drop_zombies_of(processes: &mut ByPid<Process>, p: VPid)
    ensures { processes.new ≡ retain (λ q process. not (words.is_zombie_child p process)) processes.old }
{
    processes.retain_values(|_, process| !process.is_zombie_child_of(p));
}

fn orphan_children_of(processes: &mut ByPid<Process>, p: VPid)
    ensures { processes.new ≡ map_values (words.orphan p) processes.old }
{
    processes.retain_values(|_, process| process.orphan(p));
}

/// The children of a process have no parent, and its zombies are gone. Takes no memory.
pub fn orphan(processes: &mut ByPid<Process>, p: VPid)
    ensures { processes.new ≡ words.orphaned p processes.old }
{
    drop_zombies_of(processes, p);
    orphan_children_of(processes, p);
}

/// Keeps the makers of the processes that are there. Takes no memory.
pub fn keep_makers(makers: &mut ByPid<Maker>, processes: &ByPid<Process>)
    ensures { makers.new ≡ words.makers_of processes.now makers.old }
{
    makers.retain(|q| processes.contains_key(q));
}

/// A process owns no description. Takes no memory.
pub fn disown(descriptions: &mut ByDesc<Description>, p: VPid)
    ensures { descriptions.new ≡ words.disowned p descriptions.old }
{
    descriptions.retain_values(|_, description| description.disown(p));
}

/// A process that is there is a zombie with this status. Takes no memory.
pub fn make_zombie(processes: &mut ByPid<Process>, alloc: Global, p: VPid, status: u32)
    ensures { processes.new ≡ changed_at processes.old p (words.zombie status) }
{
    if let Some(process) = processes.get_mut(p) {
        process.end(alloc, status);
    }
}
