//! The forms of clone (`man 2 clone`): which flags make a process and which a thread.
ghost use Rattle.std.specs.Prelude.{◌≡◌};
ghost use Rattle.sys_abi.specs.Clones as clones;

/// What a clone makes.
#[derive(Clone, Copy)]
pub enum CloneForm {
    /// A process of its own, with a copy of the memory.
    Fork,
    /// A thread of the same process.
    Thread,
}

/// A fork: SIGCHLD alone, which the parent gets at the child's end.
pub const FORK_FLAGS: u32 = 17;

/// What a fork may name besides: CLONE_PARENT_SETTID, CLONE_CHILD_CLEARTID, CLONE_CHILD_SETTID.
pub const FORK_OPTIONS: u32 = 0x0130_0000;

/// A thread: CLONE_VM, CLONE_FS, CLONE_FILES, CLONE_SIGHAND and CLONE_THREAD together.
pub const THREAD_FLAGS: u32 = 0x0001_0F00;

/// What a thread may name besides: those of a fork, CLONE_SETTLS and CLONE_SYSVSEM.
pub const THREAD_OPTIONS: u32 = 0x013C_0000;

/// What these flags make, None where they are of no form.
pub fn clone_form(flags: u32) -> Option<CloneForm>
    ensures { result ≡ clones.clone_form flags }
{
    if flags & (0xFFFF_FFFF - FORK_OPTIONS) == FORK_FLAGS {
        return Some(CloneForm::Fork);
    }
    if flags & (0xFFFF_FFFF - THREAD_OPTIONS) == THREAD_FLAGS {
        return Some(CloneForm::Thread);
    }
    None
}
