ghost use Rattle.std.specs.Prelude.{◌≡◌, ◌∷◌, []};
ghost use Rattle.plain_process.specs.Buffers as buffers;

use call_table::Request;
use call_table::sys_abi::flags::{CLONE_CHILD_SETTID, CLONE_PARENT_SETTID};
use call_table::sys_abi::transfer::TRANSFER_LIMIT;
use call_table::sys_abi::{CloneForm, clone_form};

/// So many bytes of a process's memory, from an address on.
#[derive(Clone, Copy)]
pub struct Span {
    pub address: u32,
    pub length: u32,
}

/// What a call reads from its process's memory.
#[derive(Clone, Copy)]
pub enum Source {
    Nothing,
    Bytes(Span),
    /// A text up to its first zero byte.
    Text(u32),
}

/// What a call's answer may write there: at most two spans, in order.
#[derive(Clone, Copy)]
pub struct Spans {
    pub first: Option<Span>,
    pub second: Option<Span>,
}

fn span_at(address: u32, length: u32) -> Span
    ensures { result ≡ buffers.span address length }
{
    Span {
        address,
        length: length.min(65_536),
    }
}

fn unless_zero(address: u32, source: Source) -> Source
    requires { buffers.IsShort source }
    ensures source { result ≡ buffers.unless_zero address source }
    ensures short { buffers.IsShort result }
{
    if address == 0 {
        Source::Nothing
    } else {
        source
    }
}

/// What the call reads.
#[tactic(auto, unfolding(crate::specs::Buffers::reads_of))]
pub fn reads_of(request: &Request) -> Source
    ensures source { result ≡ buffers.reads_of request.now }
    ensures short { buffers.IsShort result }
{
    match *request {
        Request::Futex {
            address,
            operation,
            ..
        } if operation == 0 || operation == 128 => { Source::Bytes(span_at(address, 4)) }
        Request::RtSigaction { action, .. } => unless_zero(
            action,
            Source::Bytes(span_at(action, 16)),
        ),
        Request::RtSigprocmask { set, .. } => unless_zero(set, Source::Bytes(span_at(set, 8))),
        Request::Unlinkat { path, .. } => Source::Text(path),
        Request::Openat { path, .. } => Source::Text(path),
        Request::Write { buffer, count, .. } => Source::Bytes(span_at(buffer, count)),
        Request::Bind {
            address,
            length,
            ..
        } => Source::Bytes(span_at(address, length)),
        Request::Connect {
            address,
            length,
            ..
        } => Source::Bytes(span_at(address, length)),
        Request::Accept {
            address,
            length,
            ..
        } => unless_zero(address, Source::Bytes(span_at(length, 4))),
        Request::Getsockname { length, .. } => Source::Bytes(span_at(length, 4)),
        Request::Getpeername { length, .. } => Source::Bytes(span_at(length, 4)),
        _ => Source::Nothing,
    }
}

/// Where the call finds the length of the address that it writes, if it does.
#[tactic(auto, unfolding(crate::specs::Buffers::length_place))]
pub fn length_place(request: &Request) -> Option<u32>
    ensures { result ≡ buffers.length_place request.now }
{
    match *request {
        Request::Accept { length, .. } => Some(length),
        Request::Getsockname { length, .. } => Some(length),
        Request::Getpeername { length, .. } => Some(length),
        _ => None,
    }
}

const NO_SPANS: Spans = Spans {
    first: None,
    second: None,
};

fn one(at: Span) -> Spans
    ensures { buffers.listed result ≡ at ∷ [] }
{
    Spans {
        first: Some(at),
        second: None,
    }
}

fn one_unless_zero(address: u32, length: u32) -> Spans
    ensures { buffers.listed result ≡ buffers.span_unless_zero address length }
{
    if address == 0 {
        NO_SPANS
    } else {
        one(span_at(address, length))
    }
}

fn address_spans(address: u32, length: u32, size: u32) -> Spans
    ensures { buffers.listed result ≡ buffers.address_spans address length size }
{
    Spans {
        first: Some(span_at(address, size)),
        second: Some(span_at(length, 4)),
    }
}

fn span_if(is_wanted: bool, address: u32) -> Option<Span>
    ensures { buffers.optional result ≡ buffers.span_if is_wanted address }
{
    if is_wanted {
        Some(span_at(address, 4))
    } else {
        None
    }
}

fn thread_spans(flags: u32, parent_tid: u32, child_tid: u32) -> Spans
    ensures { buffers.listed result ≡ buffers.thread_spans flags parent_tid child_tid }
{
    Spans {
        first: span_if(flags / CLONE_PARENT_SETTID % 2 == 1, parent_tid),
        second: span_if(flags / CLONE_CHILD_SETTID % 2 == 1, child_tid),
    }
}

/// What the call's answer may write, where `size` is the length of the address that it writes.
#[tactic(auto, unfolding(crate::specs::Buffers::writes_of))]
pub fn writes_of(request: &Request, size: u32) -> Spans
    ensures { buffers.listed result ≡ buffers.writes_of request.now size }
{
    match *request {
        Request::RtSigaction { old_action, .. } => one_unless_zero(old_action, 16),
        Request::RtSigprocmask { old_set, .. } => one_unless_zero(old_set, 8),
        Request::Pipe2 { fds, .. } => one(span_at(fds, 8)),
        Request::Socketpair { fds, .. } => one(span_at(fds, 8)),
        Request::Read { buffer, count, .. } => one(span_at(buffer, count)),
        Request::Accept {
            address,
            length,
            ..
        } => {
            if address == 0 {
                NO_SPANS
            } else {
                address_spans(address, length, size)
            }
        }
        Request::Getsockname {
            address,
            length,
            ..
        } => address_spans(address, length, size),
        Request::Getpeername {
            address,
            length,
            ..
        } => address_spans(address, length, size),
        Request::Clone {
            flags,
            parent_tid,
            child_tid,
            ..
        } => thread_spans(flags, parent_tid, child_tid),
        Request::Wait4 { status, .. } => one_unless_zero(status, 4),
        _ => NO_SPANS,
    }
}

fn clone_fills(flags: u32, parent_tid: u32, child_tid: u32, form: Option<CloneForm>) -> Spans
    ensures { buffers.listed result ≡ buffers.clone_fills flags parent_tid child_tid form }
{
    match form {
        Some(CloneForm::Fork) => Spans {
            first: span_if(flags / CLONE_PARENT_SETTID % 2 == 1, parent_tid),
            second: None,
        },
        _ => thread_spans(flags, parent_tid, child_tid),
    }
}

/// What the call's answer fills of that, in its own process.
#[tactic(auto, unfolding(crate::specs::Buffers::fills_of))]
pub fn fills_of(request: &Request, size: u32) -> Spans
    ensures { buffers.listed result ≡ buffers.fills_of request.now size }
{
    match *request {
        Request::Clone {
            flags,
            parent_tid,
            child_tid,
            ..
        } => clone_fills(flags, parent_tid, child_tid, clone_form(flags)),
        _ => writes_of(request, size),
    }
}
