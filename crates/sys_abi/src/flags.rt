//! Flag bits of calls, of open descriptions and of signal handlers (`man 2 open`, `man 2 clone`,
//! `man 2 sigaction`).

pub const O_WRONLY: u32 = 1;

pub const O_RDWR: u32 = 2;

pub const O_CREAT: u32 = 0x40;

pub const O_EXCL: u32 = 0x80;

pub const O_TRUNC: u32 = 0x200;

pub const O_APPEND: u32 = 0x400;

pub const O_NONBLOCK: u32 = 0x800;

pub const O_CLOEXEC: u32 = 0x80000;

/// The directory argument that names the current directory: -100.
pub const AT_FDCWD: u32 = 0xFFFF_FF9C;

pub const CLONE_PARENT_SETTID: u32 = 0x0010_0000;

pub const CLONE_CHILD_CLEARTID: u32 = 0x0020_0000;

pub const CLONE_CHILD_SETTID: u32 = 0x0100_0000;

pub const CLONE_SETTLS: u32 = 0x0008_0000;

/// A thread that shares its process's memory.
pub const CLONE_VM: u32 = 0x100;

pub const CLONE_FS: u32 = 0x200;

pub const CLONE_FILES: u32 = 0x400;

pub const CLONE_SIGHAND: u32 = 0x800;

pub const CLONE_THREAD: u32 = 0x0001_0000;

/// Taken and without effect.
pub const CLONE_SYSVSEM: u32 = 0x0004_0000;

/// The signal that stays deliverable while its handler runs (`man 2 sigaction`).
pub const SA_NODEFER: u32 = 0x4000_0000;

/// A call that a handler interrupts begins again (`man 2 sigaction`).
pub const SA_RESTART: u32 = 0x1000_0000;
