//! Error numbers (`man 3 errno`), which a call answers as their negatives.

pub const ENOENT: u16 = 2;

pub const ESRCH: u16 = 3;

pub const EINTR: u16 = 4;

pub const EBADF: u16 = 9;

pub const ECHILD: u16 = 10;

pub const EAGAIN: u16 = 11;

pub const ENOMEM: u16 = 12;

pub const EFAULT: u16 = 14;

pub const EEXIST: u16 = 17;

pub const EINVAL: u16 = 22;

pub const ENFILE: u16 = 23;

pub const EMFILE: u16 = 24;

pub const EFBIG: u16 = 27;

pub const ENOSPC: u16 = 28;

pub const ESPIPE: u16 = 29;

pub const EPIPE: u16 = 32;

pub const ENAMETOOLONG: u16 = 36;

pub const ENOSYS: u16 = 38;

pub const ENOTSOCK: u16 = 88;

pub const EMSGSIZE: u16 = 90;

pub const EOPNOTSUPP: u16 = 95;

pub const EAFNOSUPPORT: u16 = 97;

pub const EADDRINUSE: u16 = 98;

pub const EADDRNOTAVAIL: u16 = 99;

pub const EISCONN: u16 = 106;

pub const ENOTCONN: u16 = 107;

pub const ECONNREFUSED: u16 = 111;
