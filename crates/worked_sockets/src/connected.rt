// Sockets that are bound, listeners, and connections.
use crate::asking::Want::{Fails, Gives, Waits, Writes};
use crate::asking::{
    ANY_80, BEYOND_80, Call, LOOP_80, NO_PORT, OF_FAMILY_10, OTHER_80, OWN_80, OWN_258, STREAM,
    Step,
};
use crate::turns::{Change, Sight, Turn, follow};
use std::test::Fail;
use sys_abi::errors::{
    EADDRINUSE, EADDRNOTAVAIL, EAFNOSUPPORT, EAGAIN, ECONNREFUSED, EINVAL, EISCONN, EMFILE, ENFILE,
    ENOTCONN,
};

const BINDS: &[Step] = &[
    (STREAM, Gives(3)),
    (STREAM, Gives(4)),
    (Call::Bind(3, 16, ANY_80), Gives(0)),
    (Call::Bind(3, 16, OF_FAMILY_10), Fails(EINVAL)),
    (Call::Bind(4, 15, OF_FAMILY_10), Fails(EINVAL)),
    (Call::Bind(4, 16, OF_FAMILY_10), Fails(EAFNOSUPPORT)),
    (Call::Bind(4, 16, OTHER_80), Fails(EADDRNOTAVAIL)),
    (Call::Bind(4, 16, BEYOND_80), Fails(EADDRNOTAVAIL)),
    (Call::Bind(4, 16, ANY_80), Fails(EADDRINUSE)),
    (Call::Bind(4, 16, LOOP_80), Fails(EADDRINUSE)),
    (Call::Bind(4, 16, OWN_80), Fails(EADDRINUSE)),
    (Call::Bind(4, 17, OWN_258), Gives(0)),
    (
        Call::Getsockname(3, 16),
        Writes(b"\x02\0\0P\x0A\0\0\x04\0\0\0\0\0\0\0\0\x10\0\0\0"),
    ),
    (
        Call::Getsockname(4, 5),
        Writes(b"\x02\0\x01\x02\x0A\x10\0\0\0"),
    ),
    (
        Call::Getsockname(4, 0x8000_0000),
        Writes(b"\x02\0\x01\x02\x0A\0\0\x04\0\0\0\0\0\0\0\0\x10\0\0\0"),
    ),
];

/// The port is used on the first process's host alone.
const ELSEWHERE: &[Step] = &[(STREAM, Gives(3)), (Call::Bind(3, 16, LOOP_80), Gives(0))];

static BOTH_BIND: &[Turn] = &[Turn::First(BINDS), Turn::Second(ELSEWHERE)];

#[test]
fn binds(rt: HostRuntime) -> Result<(), Fail> {
    follow(&rt, BOTH_BIND)
}

/// Port 32768 of 10.0.0.4, the first automatic one.
const AUTOMATIC: &[u8] = &[2, 0, 0x80, 0, 10, 0, 0, 4, 0, 0, 0, 0, 0, 0, 0, 0];

/// 3 listens at the first automatic port, and 4 connects from the second, which stays used while the
/// connection waits.
const TAKES_PORTS: &[Step] = &[
    (STREAM, Gives(3)),
    (STREAM, Gives(4)),
    (Call::Listen(3, 1), Gives(0)),
    (Call::Connect(4, 16, AUTOMATIC), Gives(0)),
    (Call::Getsockname(4, 4), Writes(b"\x02\0\x80\x01\x10\0\0\0")),
];

const BINDS_THEN: &[Step] = &[
    (STREAM, Gives(4)),
    (Call::Bind(4, 16, NO_PORT), Gives(0)),
    (Call::Getsockname(4, 4), Writes(b"\x02\0\x80\x02\x10\0\0\0")),
];

static AUTOMATIC_PORTS: &[Turn] = &[
    Turn::First(TAKES_PORTS),
    Turn::Change(Change::Close(4)),
    Turn::First(BINDS_THEN),
];

#[test]
fn automatic_ports(rt: HostRuntime) -> Result<(), Fail> {
    follow(&rt, AUTOMATIC_PORTS)
}

const LISTENS: &[Step] = &[
    (STREAM, Gives(3)),
    (STREAM, Gives(4)),
    (Call::Bind(3, 16, OWN_80), Gives(0)),
    (Call::Listen(3, 0), Gives(0)),
    (Call::Listen(3, 5), Fails(EINVAL)),
    (Call::Bind(3, 16, OWN_258), Fails(EINVAL)),
    (Call::Bind(4, 16, OWN_80), Fails(EADDRINUSE)),
    (Call::Getsockname(3, 4), Writes(b"\x02\0\0P\x10\0\0\0")),
    (Call::Getpeername(3, 16), Fails(ENOTCONN)),
    (Call::Shutdown(3, 3), Fails(EINVAL)),
    (Call::Shutdown(3, 0), Fails(ENOTCONN)),
    (Call::Bind(4, 16, OWN_258), Gives(0)),
    (Call::Listen(4, 0xFFFF_FFFF), Gives(0)),
];

static LISTENERS: &[Turn] = &[
    Turn::First(LISTENS),
    Turn::See(Sight::Backlog(80, 1)),
    Turn::See(Sight::Backlog(258, 128)),
];

#[test]
fn listeners(rt: HostRuntime) -> Result<(), Fail> {
    follow(&rt, LISTENERS)
}

/// 3 listens at port 80 with a backlog of 1; 4 and 5 are sockets, 5 with O_NONBLOCK.
const LISTENING: &[Step] = &[
    (STREAM, Gives(3)),
    (STREAM, Gives(4)),
    (Call::Socket(2, 0x801, 0), Gives(5)),
    (Call::Bind(3, 16, OWN_80), Gives(0)),
    (Call::Listen(3, 1), Gives(0)),
];

/// Then 4 is connected to 3, from port 258, and waits there.
const CONNECTED: &[Step] = &[
    (STREAM, Gives(3)),
    (STREAM, Gives(4)),
    (Call::Socket(2, 0x801, 0), Gives(5)),
    (Call::Bind(3, 16, OWN_80), Gives(0)),
    (Call::Listen(3, 1), Gives(0)),
    (Call::Bind(4, 16, OWN_258), Gives(0)),
    (Call::Connect(4, 16, LOOP_80), Gives(0)),
];

const WRONG_CONNECTS: &[Step] = &[
    (Call::Connect(3, 15, OF_FAMILY_10), Fails(EISCONN)),
    (Call::Connect(4, 15, OF_FAMILY_10), Fails(EINVAL)),
    (Call::Connect(4, 16, OF_FAMILY_10), Fails(EAFNOSUPPORT)),
    (Call::Connect(4, 16, OWN_258), Fails(ECONNREFUSED)),
    (Call::Connect(4, 16, OTHER_80), Fails(ECONNREFUSED)),
    (Call::Connect(4, 16, BEYOND_80), Fails(ECONNREFUSED)),
    (Call::Connect(4, 16, ANY_80), Gives(0)),
    (Call::Connect(4, 0, b""), Fails(EISCONN)),
];

static ERRORS_OF_CONNECT: &[Turn] = &[Turn::First(LISTENING), Turn::First(WRONG_CONNECTS)];

#[test]
fn errors_of_connect(rt: HostRuntime) -> Result<(), Fail> {
    follow(&rt, ERRORS_OF_CONNECT)
}

const FROM_ANOTHER_HOST: &[Step] = &[(STREAM, Gives(3)), (Call::Connect(3, 16, OWN_80), Gives(0))];

const BY_AN_AUTOMATIC_PORT: &[Step] = &[(
    Call::Accept(3, 0x1000, 16),
    Writes(b"\x02\0\x80\0\x0A\0\0\x05\0\0\0\0\0\0\0\0\x10\0\0\0"),
)];

static ANOTHER_HOST_CONNECTS: &[Turn] = &[
    Turn::First(LISTENING),
    Turn::Second(FROM_ANOTHER_HOST),
    Turn::First(BY_AN_AUTOMATIC_PORT),
];

#[test]
fn another_host_connects(rt: HostRuntime) -> Result<(), Fail> {
    follow(&rt, ANOTHER_HOST_CONNECTS)
}

const AT_A_FULL_QUEUE: &[Step] = &[
    (Call::Connect(5, 16, OWN_80), Fails(EAGAIN)),
    (Call::Connect(6, 16, OWN_80), Waits),
    (Call::Accept(3, 0, 0), Gives(7)),
    (Call::Connect(6, 16, OWN_80), Gives(0)),
    (Call::Accept(3, 0, 0), Writes(b"")),
    (Call::Accept(3, 0, 0), Waits),
];

static A_FULL_QUEUE: &[Turn] = &[
    Turn::First(CONNECTED),
    Turn::First(&[(STREAM, Gives(6))]),
    Turn::See(Sight::AcceptReady(3, true)),
    Turn::See(Sight::ConnectReady(5, true)),
    Turn::See(Sight::ConnectReady(6, false)),
    Turn::First(AT_A_FULL_QUEUE),
    Turn::See(Sight::AcceptReady(3, false)),
];

#[test]
fn a_full_queue(rt: HostRuntime) -> Result<(), Fail> {
    follow(&rt, A_FULL_QUEUE)
}

const NOBODY_WAITS: &[Step] = &[
    (Call::Accept(3, 0, 0), Waits),
    (Call::Accept(4, 0, 0), Fails(EINVAL)),
    (Call::Listen(5, 9), Gives(0)),
    (Call::Accept(5, 0, 0), Fails(EAGAIN)),
];

static NOBODY_WAITS_TO_BE_ACCEPTED: &[Turn] = &[
    Turn::First(LISTENING),
    Turn::First(NOBODY_WAITS),
    Turn::Change(Change::FillFrom(6)),
    Turn::First(&[(Call::Accept(3, 0, 0), Fails(EMFILE))]),
];

#[test]
fn nobody_waits_to_be_accepted(rt: HostRuntime) -> Result<(), Fail> {
    follow(&rt, NOBODY_WAITS_TO_BE_ACCEPTED)
}

const WITHOUT_CHANNELS: &[Step] = &[
    (Call::Connect(5, 16, OWN_258), Fails(ECONNREFUSED)),
    (Call::Connect(5, 16, OWN_80), Fails(ENFILE)),
];

static NO_CHANNEL_COMES_BEFORE_WAITING: &[Turn] = &[
    Turn::First(CONNECTED),
    Turn::CopyConnection,
    Turn::First(WITHOUT_CHANNELS),
];

#[test]
fn no_channel_comes_before_waiting(rt: HostRuntime) -> Result<(), Fail> {
    follow(&rt, NO_CHANNEL_COMES_BEFORE_WAITING)
}

const NAMES: &[Step] = &[
    (
        Call::Accept(3, 0x1000, 6),
        Writes(b"\x02\0\x01\x02\x0A\0\x10\0\0\0"),
    ),
    (Call::Getsockname(6, 4), Writes(b"\x02\0\0P\x10\0\0\0")),
    (Call::Getpeername(6, 4), Writes(b"\x02\0\x01\x02\x10\0\0\0")),
    (Call::Getpeername(4, 4), Writes(b"\x02\0\0P\x10\0\0\0")),
];

static NAMES_OF_BOTH_SIDES: &[Turn] = &[
    Turn::First(CONNECTED),
    Turn::First(NAMES),
    Turn::See(Sight::Flags(6, 2)),
];

#[test]
fn names_of_both_sides(rt: HostRuntime) -> Result<(), Fail> {
    follow(&rt, NAMES_OF_BOTH_SIDES)
}

/// The client shuts its side down in each way, after both sides have sent.
static SHUTDOWNS: &[&[Turn]] = &[
    &[
        Turn::First(CONNECTED),
        Turn::Change(Change::Send),
        Turn::First(&[(Call::Shutdown(4, 0), Gives(0))]),
        Turn::See(Sight::Left(0, false, false, b"hello")),
        Turn::See(Sight::Left(1, false, true, b"")),
    ],
    &[
        Turn::First(CONNECTED),
        Turn::Change(Change::Send),
        Turn::First(&[(Call::Shutdown(4, 1), Gives(0))]),
        Turn::See(Sight::Left(0, true, false, b"hello")),
        Turn::See(Sight::Left(1, false, false, b"hello")),
    ],
    &[
        Turn::First(CONNECTED),
        Turn::Change(Change::Send),
        Turn::First(&[(Call::Shutdown(4, 2), Gives(0))]),
        Turn::See(Sight::Left(0, true, false, b"hello")),
        Turn::See(Sight::Left(1, false, true, b"")),
    ],
];

#[test]
fn shutdowns(rt: HostRuntime) -> Result<(), Fail> {
    for turns in SHUTDOWNS {
        follow(&rt, turns)?;
    }
    Ok(())
}
