use crate::memory::Frame;
use crate::regs::Regs;
use elf32::views::duplicate::Duplicate;
use elf32::views::list_of::ListOf;
use elf32::views::number_map::NumberMap;
use std::alloc::{AllocError, Global};

/// What a signal handler interrupted: registers, program counter and signal mask.
#[derive(Clone, Copy)]
pub struct Context {
    pub regs: Regs,
    pub mask: u32,
}

/// A thread of a process: its registers, its signal mask, the word that its end clears (0: none), and the
/// contexts that its handlers interrupted, oldest first.
#[derive(Drop)]
pub struct ThreadPart {
    pub regs: Regs,
    pub mask: u32,
    pub clear_tid: u32,
    pub contexts: ListOf<Context>,
}

/// What a process does on a signal: handler (0 default, 1 ignore, else its address), flags, and mask while it
/// runs.
#[derive(Clone, Copy)]
pub struct SignalAction {
    pub handler: u32,
    pub flags: u32,
    pub mask: u32,
}

/// A thread that waits on the word at an address (`man 2 futex`).
#[derive(Clone, Copy)]
pub struct Waiter {
    pub tid: u32,
    pub address: u32,
}

/// The part of a process that only its own instructions and the answers to its calls change: memory by page
/// number, the break, threads by number, what it does on the signals 1 to 31, and who waits on its words, in
/// waking order.
#[derive(Drop)]
pub struct UserPart {
    pub memory: NumberMap<Frame>,
    pub break_start: u32,
    pub break_end: u32,
    pub threads: NumberMap<ThreadPart>,
    pub actions: ListOf<SignalAction>,
    pub waiters: ListOf<Waiter>,
}

impl Duplicate for Context {
    fn duplicate(&self, alloc: Global) -> Result<Self, AllocError> {
        Ok(*self)
    }
}

impl Duplicate for ThreadPart {
    fn duplicate(&self, alloc: Global) -> Result<Self, AllocError> {
        Ok(ThreadPart {
            regs: self.regs,
            mask: self.mask,
            clear_tid: self.clear_tid,
            contexts: self.contexts.duplicate(alloc)?,
        })
    }
}

impl Duplicate for SignalAction {
    fn duplicate(&self, alloc: Global) -> Result<Self, AllocError> {
        Ok(*self)
    }
}

impl Duplicate for Waiter {
    fn duplicate(&self, alloc: Global) -> Result<Self, AllocError> {
        Ok(*self)
    }
}

impl Duplicate for UserPart {
    fn duplicate(&self, alloc: Global) -> Result<Self, AllocError> {
        Ok(UserPart {
            memory: self.memory.duplicate(alloc)?,
            break_start: self.break_start,
            break_end: self.break_end,
            threads: self.threads.duplicate(alloc)?,
            actions: self.actions.duplicate(alloc)?,
            waiters: self.waiters.duplicate(alloc)?,
        })
    }
}
