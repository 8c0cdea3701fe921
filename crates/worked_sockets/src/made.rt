// Sockets that are made, what is no socket, and what one that isn't connected refuses.
use crate::asking::Want::{Fails, Gives, Writes};
use crate::asking::{Call, FIRST, OWN_80, STREAM, Step};
use crate::turns::{Change, Sight, Turn, follow};
use plain_tables::{ChannelKind, Object};
use std::test::Fail;
use sys_abi::DescId;
use sys_abi::errors::{
    EAFNOSUPPORT, EBADF, EINVAL, EISCONN, EMFILE, ENFILE, ENOTCONN, ENOTSOCK, EOPNOTSUPP,
};

/// 4 has O_NONBLOCK and O_CLOEXEC. Also what a socket that isn't connected refuses.
const KINDS: &[Step] = &[
    (Call::Socket(1, 2, 9), Fails(EAFNOSUPPORT)),
    (Call::Socket(10, 1, 0), Fails(EAFNOSUPPORT)),
    (Call::Socket(2, 2, 0), Fails(EINVAL)),
    (Call::Socket(2, 0, 0), Fails(EINVAL)),
    (Call::Socket(2, 0x11, 0), Fails(EINVAL)),
    (Call::Socket(2, 0x401, 0), Fails(EINVAL)),
    (Call::Socket(2, 1, 17), Fails(EINVAL)),
    (STREAM, Gives(3)),
    (Call::Socket(2, 0x80801, 6), Gives(4)),
    (Call::Accept(3, 0, 0), Fails(EINVAL)),
    (Call::Getpeername(3, 16), Fails(ENOTCONN)),
    (Call::Shutdown(3, 3), Fails(EINVAL)),
    (Call::Shutdown(3, 0), Fails(ENOTCONN)),
    (Call::Setsockopt(3), Gives(0)),
    (Call::Getsockname(3, 0), Writes(b"\x10\0\0\0")),
    (Call::Getsockname(4, 3), Writes(b"\x02\0\0\x10\0\0\0")),
];

static KINDS_OF_SOCKETS: &[Turn] = &[
    Turn::First(KINDS),
    Turn::See(Sight::Flags(4, 0x802)),
    Turn::See(Sight::Cloexec(4, true)),
    Turn::Second(&[(STREAM, Gives(3))]),
];

#[test]
fn kinds_of_sockets(rt: HostRuntime) -> Result<(), Fail> {
    follow(&rt, KINDS_OF_SOCKETS)
}

static NO_NUMBER_COMES_BEFORE_NO_DESCRIPTOR: &[Turn] = &[
    Turn::Change(Change::FillFrom(3)),
    Turn::Change(Change::SetMade(1)),
    Turn::First(&[(STREAM, Fails(EMFILE))]),
    Turn::Change(Change::SetMade(0xFFFF_FFFC)),
    Turn::First(&[(STREAM, Fails(ENFILE))]),
    Turn::Change(Change::SetMade(0xFFFF_FFFB)),
    Turn::First(&[(STREAM, Fails(EMFILE))]),
];

#[test]
fn no_number_comes_before_no_descriptor(rt: HostRuntime) -> Result<(), Fail> {
    follow(&rt, NO_NUMBER_COMES_BEFORE_NO_DESCRIPTOR)
}

/// Each call on a descriptor that isn't there, whatever else is wrong of it.
const ON_NO_DESCRIPTOR: &[Step] = &[
    (Call::Bind(9, 0, b""), Fails(EBADF)),
    (Call::Listen(9, 1), Fails(EBADF)),
    (Call::Accept(9, 0, 0), Fails(EBADF)),
    (Call::Connect(9, 0, b""), Fails(EBADF)),
    (Call::Getsockname(9, 16), Fails(EBADF)),
    (Call::Getpeername(9, 16), Fails(EBADF)),
    (Call::Setsockopt(9), Fails(EBADF)),
    (Call::Shutdown(9, 3), Fails(EBADF)),
];

/// Each call on a descriptor of something else.
const ON_NO_SOCKET: &[Step] = &[
    (Call::Bind(0, 0, b""), Fails(ENOTSOCK)),
    (Call::Listen(0, 1), Fails(ENOTSOCK)),
    (Call::Accept(0, 0, 0), Fails(ENOTSOCK)),
    (Call::Connect(0, 0, b""), Fails(ENOTSOCK)),
    (Call::Getsockname(0, 16), Fails(ENOTSOCK)),
    (Call::Getpeername(0, 16), Fails(ENOTSOCK)),
    (Call::Setsockopt(0), Fails(ENOTSOCK)),
    (Call::Shutdown(0, 3), Fails(ENOTSOCK)),
];

static WHAT_IS_NO_SOCKET: &[Turn] = &[
    Turn::First(ON_NO_DESCRIPTOR),
    Turn::First(ON_NO_SOCKET),
    Turn::Change(Change::PutEnd(0, ChannelKind::Pipe)),
    Turn::First(ON_NO_SOCKET),
    Turn::Change(Change::Put(0, Object::Counter { value: 0 })),
    Turn::First(ON_NO_SOCKET),
];

#[test]
fn what_is_no_socket(rt: HostRuntime) -> Result<(), Fail> {
    follow(&rt, WHAT_IS_NO_SOCKET)
}

const ON_A_PAIR: &[Step] = &[
    (Call::Bind(5, 16, OWN_80), Fails(EINVAL)),
    (Call::Listen(5, 1), Fails(EINVAL)),
    (Call::Accept(5, 0, 0), Fails(EINVAL)),
    (Call::Connect(5, 0, b""), Fails(EISCONN)),
    (Call::Shutdown(5, 3), Fails(EINVAL)),
    (Call::Setsockopt(5), Gives(0)),
    (Call::Getsockname(5, 16), Writes(b"\x01\0\x02\0\0\0")),
    (Call::Getpeername(5, 1), Writes(b"\x01\x02\0\0\0")),
];

const ON_DATAGRAMS: &[Step] = &[
    (Call::Bind(5, 16, OWN_80), Fails(EINVAL)),
    (Call::Listen(5, 1), Fails(EOPNOTSUPP)),
    (Call::Accept(5, 0, 0), Fails(EINVAL)),
    (Call::Connect(5, 0, b""), Fails(EOPNOTSUPP)),
    (Call::Shutdown(5, 3), Fails(EOPNOTSUPP)),
    (Call::Setsockopt(5), Gives(0)),
    (Call::Getsockname(5, 16), Writes(b"\x01\0\x02\0\0\0")),
    (Call::Getpeername(5, 16), Writes(b"\x01\0\x02\0\0\0")),
];

const PEER: DescId = DescId { pid: FIRST, num: 9 };

static ENDS_OF_PAIRS: &[Turn] = &[
    Turn::Change(Change::PutEnd(5, ChannelKind::Pair)),
    Turn::First(ON_A_PAIR),
    Turn::Change(Change::Put(5, Object::Datagram { peer: PEER })),
    Turn::First(ON_DATAGRAMS),
];

#[test]
fn ends_of_pairs(rt: HostRuntime) -> Result<(), Fail> {
    follow(&rt, ENDS_OF_PAIRS)
}
