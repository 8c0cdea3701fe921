// A kernel part of two processes on two hosts, the calls of the tests, and what they answer.
use plain_machine::{FIRST_PID, PlainKernel};
use plain_sockets::connections::{accept, connect};
use plain_sockets::sockets::{
    bind, getpeername, getsockname, listen, setsockopt, shutdown, socket,
};
use plain_tables::answer::{Answer, Attempt, RowResult};
use std::alloc::{AllocError, Global};
use std::process::Abort;
use sys_abi::{Reply, VPid};

/// On host 3, whose address is 10.0.0.4.
pub const FIRST: VPid = VPid(FIRST_PID);

/// On host 4, whose address is 10.0.0.5.
pub const SECOND: VPid = VPid(FIRST_PID + 1);

pub const NO_PORT: &[u8] = &[2, 0, 0, 0, 0, 0, 0, 0, 0, 0, 0, 0, 0, 0, 0, 0];

/// Port 80 of 0.0.0.0, 127.0.0.1, 10.0.0.4, 10.0.0.5 and 10.0.0.17.
pub const ANY_80: &[u8] = &[2, 0, 0, 80, 0, 0, 0, 0, 0, 0, 0, 0, 0, 0, 0, 0];

pub const LOOP_80: &[u8] = &[2, 0, 0, 80, 127, 0, 0, 1, 7, 7, 7, 7, 7, 7, 7, 7];

pub const OWN_80: &[u8] = &[2, 0, 0, 80, 10, 0, 0, 4, 0, 0, 0, 0, 0, 0, 0, 0];

pub const OTHER_80: &[u8] = &[2, 0, 0, 80, 10, 0, 0, 5, 0, 0, 0, 0, 0, 0, 0, 0];

pub const BEYOND_80: &[u8] = &[2, 0, 0, 80, 10, 0, 0, 17, 0, 0, 0, 0, 0, 0, 0, 0];

/// Port 258 of 10.0.0.4.
pub const OWN_258: &[u8] = &[2, 0, 1, 2, 10, 0, 0, 4, 0, 0, 0, 0, 0, 0, 0, 0];

/// Of another family.
pub const OF_FAMILY_10: &[u8] = &[10, 0, 0, 80, 10, 0, 0, 5, 0, 0, 0, 0, 0, 0, 0, 0];

/// A call, with what it reads.
#[derive(Clone, Copy)]
pub enum Call {
    /// The domain, the type and the protocol.
    Socket(u32, u32, u32),
    Bind(u32, u32, &'static [u8]),
    Listen(u32, u32),
    /// The last number here and of the names is the room for an address.
    Accept(u32, u32, u32),
    Connect(u32, u32, &'static [u8]),
    Getsockname(u32, u32),
    Getpeername(u32, u32),
    Setsockopt(u32),
    Shutdown(u32, u32),
}

/// What a call answers: a number, bytes, or an error; or it waits.
#[derive(Clone, Copy)]
pub enum Want {
    Gives(u32),
    Writes(&'static [u8]),
    Fails(u16),
    Waits,
}

pub type Step = (Call, Want);

pub const STREAM: Call = Call::Socket(2, 1, 0);

/// Two processes, each with descriptors 0, 1 and 2 of the console.
pub fn two_processes(alloc: Global) -> Result<Box<PlainKernel>, AllocError> {
    let mut kernel = Box::new(alloc, PlainKernel::empty(alloc))?;
    add_processes(&mut kernel, alloc)?;
    Ok(kernel)
}

fn add_processes(kernel: &mut PlainKernel, alloc: Global) -> Result<(), AllocError> {
    kernel.add_process(alloc, FIRST.0, 3)?;
    kernel.add_process(alloc, SECOND.0, 4)
}

/// Calls of a process answer what they should, one after the other.
pub fn ask(
    rt: &(impl Abort + AllocGlobal),
    kernel: &mut PlainKernel,
    p: VPid,
    steps: &[Step],
) -> Result<(), AllocError> {
    for step in steps {
        holds(rt, answers(kernel, rt.alloc(), p, step)?);
    }
    Ok(())
}

/// Whether the call answers what it should.
fn answers(
    kernel: &mut PlainKernel,
    alloc: Global,
    p: VPid,
    step: &Step,
) -> Result<bool, AllocError> {
    let (call, want) = *step;
    let attempt = serve(kernel, alloc, p, call)?;
    Ok(meets(&attempt, want))
}

fn meets(attempt: &Attempt, want: Want) -> bool {
    match attempt {
        Attempt::Gives(answer) => is_answer(answer, want),
        Attempt::Fails(error) => match want {
            Want::Fails(number) => error.0 == number,
            _ => false,
        },
        Attempt::NotReady => match want {
            Want::Waits => true,
            _ => false,
        },
    }
}

fn is_answer(answer: &Answer, want: Want) -> bool {
    match want {
        Want::Gives(number) => answer.reply == Reply::Value(number),
        Want::Writes(bytes) => answer.bytes.as_slice() == bytes,
        _ => false,
    }
}

fn serve(kernel: &mut PlainKernel, alloc: Global, p: VPid, call: Call) -> RowResult {
    match call {
        Call::Socket(domain, kind, protocol) => socket(kernel, alloc, p, domain, kind, protocol),
        Call::Bind(fd, length, given) => bind(kernel, alloc, p, fd, length, given),
        Call::Listen(fd, backlog) => listen(kernel, alloc, p, fd, backlog),
        Call::Accept(fd, at, room) => accept(kernel, alloc, p, fd, at, &room.to_le_bytes()),
        Call::Connect(fd, length, given) => connect(kernel, alloc, p, fd, length, given),
        Call::Getsockname(fd, room) => getsockname(kernel, alloc, p, fd, &room.to_le_bytes()),
        Call::Getpeername(fd, room) => getpeername(kernel, alloc, p, fd, &room.to_le_bytes()),
        Call::Setsockopt(fd) => setsockopt(kernel, alloc, p, fd),
        Call::Shutdown(fd, how) => shutdown(kernel, alloc, p, fd, how),
    }
}

/// Asserts it.
pub fn holds(rt: &impl Abort, is_so: bool) {
    assert!(rt; is_so);
}
