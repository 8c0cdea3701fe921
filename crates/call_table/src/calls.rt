//! Call numbers, as a guest puts them into a7 (modelled on `asm-generic/unistd.h`).

pub const EVENTFD2: u32 = 19;

pub const DUP: u32 = 23;

pub const DUP3: u32 = 24;

pub const FCNTL: u32 = 25;

pub const UNLINKAT: u32 = 35;

pub const OPENAT: u32 = 56;

pub const CLOSE: u32 = 57;

pub const PIPE2: u32 = 59;

pub const LSEEK: u32 = 62;

pub const READ: u32 = 63;

pub const WRITE: u32 = 64;

pub const EXIT: u32 = 93;

pub const EXIT_GROUP: u32 = 94;

pub const SET_TID_ADDRESS: u32 = 96;

pub const FUTEX: u32 = 98;

pub const SCHED_YIELD: u32 = 124;

pub const KILL: u32 = 129;

pub const TGKILL: u32 = 131;

pub const RT_SIGACTION: u32 = 134;

pub const RT_SIGPROCMASK: u32 = 135;

pub const RT_SIGRETURN: u32 = 139;

pub const GETPID: u32 = 172;

pub const GETPPID: u32 = 173;

pub const GETTID: u32 = 178;

pub const SOCKET: u32 = 198;

pub const SOCKETPAIR: u32 = 199;

pub const BIND: u32 = 200;

pub const LISTEN: u32 = 201;

pub const ACCEPT: u32 = 202;

pub const CONNECT: u32 = 203;

pub const GETSOCKNAME: u32 = 204;

pub const GETPEERNAME: u32 = 205;

pub const SETSOCKOPT: u32 = 208;

pub const SHUTDOWN: u32 = 210;

pub const BRK: u32 = 214;

pub const MUNMAP: u32 = 215;

pub const CLONE: u32 = 220;

pub const MMAP: u32 = 222;

pub const WAIT4: u32 = 260;
