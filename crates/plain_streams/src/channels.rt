//! Pipes and pairs.
ghost use Rattle.std.specs.Prelude.{◌≡◌, ◌==◌, ◌&&◌, ◌++◌, true, false, IfOk, OnOk};
ghost use Rattle.sys_abi.specs.declared.errors.TheConstants.{EMFILE};
ghost use Rattle.sys_abi.specs.declared.reply.Reply.TheVariants.{Value};
ghost use Rattle.plain_process.specs.Attempts.{found};
ghost use Rattle.plain_process.specs.Memory.{low_bytes};
ghost use Rattle.plain_tables.specs.declared.answer.Attempt.TheVariants as an_attempt;
ghost use Rattle.plain_machine.specs.Making.{has_channel_room};
ghost use Rattle.plain_machine.specs.Rows.Channels as rows;
ghost use Rattle.plain_machine.specs.Answers.{RowTold, KeepsUnlessGives};

use crate::made::{
    add_datagrams, add_ends, are_making_flags, has_channel_room, has_cloexec, number_bytes,
    status_flags,
};
use plain_machine::PlainKernel;
use plain_machine::new_end::NewEnd;
use plain_tables::ChannelKind;
use plain_tables::answer::{Answer, Attempt, RowResult};
use std::alloc::{AllocError, Global};
use sys_abi::errors::{EAFNOSUPPORT, EINVAL, EMFILE, ENFILE, EOPNOTSUPP};
use sys_abi::flags::{O_RDWR, O_WRONLY};
use sys_abi::{Reply, VPid};

/// The types of pairs (`man 2 socketpair`).
const STREAMS: u32 = 1;

const DATAGRAMS: u32 = 2;

/// The free descriptor and the next free one; EMFILE unless there are two.
#[tactic(auto, unfolding(plain_machine::specs::Rows::Channels::two_free, plain_process::specs::Attempts::and_then, plain_process::specs::Attempts::found))]
fn two_free(kernel: &PlainKernel, p: VPid) -> Option<(u32, u32)>
    ensures { rows.two_free kernel.now p ≡ found result EMFILE }
{
    let Some(first) = kernel.free_from(p, 0) else {
        return None;
    };
    let Some(second) = kernel.free_from(p, first + 1) else {
        return None;
    };
    Some((first, second))
}

/// An answer of the numbers of two descriptors.
fn numbers(alloc: Global, fds: (u32, u32)) -> Result<Attempt, AllocError>
    ensures { IfOk result (λ attempt. attempt ≡ an_attempt.Gives (record {
      reply = Value 0;
      bytes = low_bytes 4 fds.0 ++ low_bytes 4 fds.1;
      is_shown = false;
    })) }
{
    Ok(Attempt::Gives(Answer {
        reply: Reply::Value(0),
        bytes: number_bytes(alloc, fds.0, fds.1)?,
        is_shown: false,
    }))
}

/// pipe2 (`man 2 pipe2`).
#[tactic(auto, unfolding(plain_machine::specs::Rows::Channels::pipe2_row, plain_process::specs::Attempts::and_then, plain_process::specs::Attempts::need, plain_process::specs::Attempts::found))]
pub fn pipe2(kernel: &mut PlainKernel, alloc: Global, p: VPid, flags: u32) -> RowResult
    ensures row { IfOk result (RowTold (rows.pipe2_row kernel.old p flags) kernel.new) }
    ensures kept { IfOk result (λ attempt. KeepsUnlessGives attempt kernel.old kernel.new) }
{
    if !are_making_flags(flags) {
        return Ok(Attempt::fails(EINVAL));
    }
    if !has_channel_room(kernel, p) {
        return Ok(Attempt::fails(ENFILE));
    }
    let Some(fds) = two_free(kernel, p) else {
        return Ok(Attempt::fails(EMFILE));
    };
    add_pipe(kernel, alloc, p, flags, fds)?;
    numbers(alloc, fds)
}

fn add_pipe(
    kernel: &mut PlainKernel,
    alloc: Global,
    p: VPid,
    flags: u32,
    fds: (u32, u32),
) -> Result<(), AllocError>
    requires { has_channel_room kernel.old p ≡ true }
    ensures { OnOk result (kernel.new ≡ rows.with_pipe kernel.old p flags fds.0 fds.1) }
{
    let reader = NewEnd {
        fd: fds.0,
        side: 1,
        flags: status_flags(0, flags),
    };
    let writer = NewEnd {
        fd: fds.1,
        side: 0,
        flags: status_flags(O_WRONLY, flags),
    };
    add_ends(
        kernel,
        alloc,
        p,
        ChannelKind::Pipe,
        has_cloexec(flags),
        reader,
        writer,
    )
}

/// socketpair (`man 2 socketpair`).
#[tactic(auto, unfolding(plain_machine::specs::Rows::Channels::socketpair_row, plain_process::specs::Attempts::and_then, plain_process::specs::Attempts::need))]
pub fn socketpair(
    kernel: &mut PlainKernel,
    alloc: Global,
    p: VPid,
    domain: u32,
    socket_type: u32,
    protocol: u32,
) -> RowResult
    ensures row { IfOk result (RowTold (rows.socketpair_row kernel.old p domain socket_type protocol) kernel.new) }
    ensures kept { IfOk result (λ attempt. KeepsUnlessGives attempt kernel.old kernel.new) }
{
    if domain == 2 {
        return Ok(Attempt::fails(EOPNOTSUPP));
    }
    if domain != 1 {
        return Ok(Attempt::fails(EAFNOSUPPORT));
    }
    if !is_pair(socket_type, protocol) {
        return Ok(Attempt::fails(EINVAL));
    }
    if socket_type % 16 == STREAMS {
        stream_pair(kernel, alloc, p, socket_type)
    } else {
        datagram_pair(kernel, alloc, p, socket_type)
    }
}

fn is_pair(socket_type: u32, protocol: u32) -> bool
    ensures { result ≡ (rows.is_pair_type socket_type && (protocol == 0)) }
{
    is_pair_type(socket_type) && protocol == 0
}

/// Streams or datagrams, with flags.
fn is_pair_type(socket_type: u32) -> bool
    ensures { result ≡ rows.is_pair_type socket_type }
{
    let kind = socket_type % 16;
    (kind == STREAMS || kind == DATAGRAMS) && are_making_flags(socket_type - kind)
}

#[tactic(auto, unfolding(plain_machine::specs::Rows::Channels::stream_pair, plain_process::specs::Attempts::and_then, plain_process::specs::Attempts::need, plain_process::specs::Attempts::found))]
fn stream_pair(kernel: &mut PlainKernel, alloc: Global, p: VPid, flags: u32) -> RowResult
    ensures row { IfOk result (RowTold (rows.stream_pair kernel.old p flags) kernel.new) }
    ensures kept { IfOk result (λ attempt. KeepsUnlessGives attempt kernel.old kernel.new) }
{
    if !has_channel_room(kernel, p) {
        return Ok(Attempt::fails(ENFILE));
    }
    let Some(fds) = two_free(kernel, p) else {
        return Ok(Attempt::fails(EMFILE));
    };
    add_stream_pair(kernel, alloc, p, flags, fds)?;
    numbers(alloc, fds)
}

fn add_stream_pair(
    kernel: &mut PlainKernel,
    alloc: Global,
    p: VPid,
    flags: u32,
    fds: (u32, u32),
) -> Result<(), AllocError>
    requires { has_channel_room kernel.old p ≡ true }
    ensures { OnOk result (kernel.new ≡ rows.with_stream_pair kernel.old p flags fds.0 fds.1) }
{
    let status = status_flags(O_RDWR, flags);
    let first = NewEnd {
        fd: fds.0,
        side: 0,
        flags: status,
    };
    let second = NewEnd {
        fd: fds.1,
        side: 1,
        flags: status,
    };
    add_ends(
        kernel,
        alloc,
        p,
        ChannelKind::Pair,
        has_cloexec(flags),
        first,
        second,
    )
}

#[tactic(auto, unfolding(plain_machine::specs::Rows::Channels::datagram_pair, plain_process::specs::Attempts::and_then, plain_process::specs::Attempts::need, plain_process::specs::Attempts::found))]
fn datagram_pair(kernel: &mut PlainKernel, alloc: Global, p: VPid, flags: u32) -> RowResult
    ensures row { IfOk result (RowTold (rows.datagram_pair kernel.old p flags) kernel.new) }
    ensures kept { IfOk result (λ attempt. KeepsUnlessGives attempt kernel.old kernel.new) }
{
    if !kernel.has_numbers(p) {
        return Ok(Attempt::fails(ENFILE));
    }
    let Some(fds) = two_free(kernel, p) else {
        return Ok(Attempt::fails(EMFILE));
    };
    let status = status_flags(O_RDWR, flags);
    add_datagrams(kernel, alloc, p, has_cloexec(flags), status, fds.0, fds.1)?;
    numbers(alloc, fds)
}
