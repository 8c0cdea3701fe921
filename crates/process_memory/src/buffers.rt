ghost use Rattle.std.specs.Prelude.{◌≡◌, ◌≢◌, ◌≤◌, ◌↔◌, Some, None, is_some, true, Err, OnOk, OnErr};
ghost use Rattle.std.specs.List.{list_all};
ghost use Rattle.plain_process.specs.Buffers as buffers;
ghost use Rattle.plain_process.specs.Memory.{bytes_at, with_bytes};
ghost use Rattle.plain_process.specs.Put.{with_spans};
ghost use Rattle.plain_process.specs.declared.memory.Right.TheVariants.{Read as ToRead};
ghost use Rattle.sys_abi.specs.declared.transfer.TheConstants.{TRANSFER_LIMIT};
ghost use Rattle.process_memory.specs.Lending.{IsSpanOf, IsTextLength, CanHold, CanTake};

use call_table::Request;
use guest_mem::Space;
use plain_process::{Right, Source, Span, Spans, fills_of, length_place, reads_of, writes_of};
use sys_abi::Transfer;
use thiserror::Error;

/// Why a call's bytes were not lent.
#[derive(Clone, Copy, Debug, Error)]
pub enum LendFault {
    /// A buffer of the call is not readable or writable as it needs (EFAULT).
    #[error("a buffer of the call can't be read or written")]
    Fault,
    /// Memory was wanted. Nothing wants memory while it lends yet.
    #[error("out of memory")]
    Memory,
}

/// How many bytes a path has at most, its zero byte included.
const PATH_LIMIT: u32 = 256;

/// How many bytes the text at an address has, its zero byte included and at most `PATH_LIMIT`; none where one
/// of them can't be read.
fn text_length(space: &Space, address: u32) -> Option<u32>
    ensures { IsTextLength space.now address result (buffers.text_at space.now address 256) }
{
    for length in 0..PATH_LIMIT {
        if !space.is_readable(address, length + 1) {
            return None;
        }
        let Some(byte) = space.byte_with(Right::Read, address + length) else {
            return None;
        };
        if byte == 0 {
            return Some(length + 1);
        }
    }
    Some(PATH_LIMIT)
}

/// The span of the bytes that the source names; none where one of them can't be read.
pub fn readable_span(space: &Space, source: Source) -> Option<Span>
    requires { buffers.IsShort source }
    ensures { IsSpanOf space.now result (buffers.bytes_of space.now source) }
{
    match source {
        Source::Nothing => Some(Span {
            address: 0,
            length: 0,
        }),
        Source::Bytes(at) => {
            if space.is_readable(at.address, at.length) {
                Some(at)
            } else {
                None
            }
        }
        Source::Text(address) => match text_length(space, address) {
            Some(length) => Some(Span { address, length }),
            None => None,
        },
    }
}

fn can_write(space: &Space, at: Option<Span>) -> bool
    ensures { result ≡ list_all (buffers.can_write space.now) (buffers.optional at) }
{
    match at {
        None => true,
        Some(at) => space.is_writable(at.address, at.length),
    }
}

/// Whether each of the spans can be written.
pub fn can_write_all(space: &Space, spans: Spans) -> bool
    ensures { result ≡ list_all (buffers.can_write space.now) (buffers.listed spans) }
{
    can_write(space, spans.first) && can_write(space, spans.second)
}

/// The length of the address that the call writes, 0 where it writes none.
#[tactic(auto, unfolding(plain_process::specs::Buffers::size_of))]
fn size_of(space: &Space, request: &Request) -> u32
    ensures { result ≡ buffers.size_of space.now request.now }
{
    match length_place(request) {
        None => 0,
        Some(place) => space.load(place, 4).unwrap_or(0),
    }
}

/// The spans that the call's answer may write.
pub fn written_spans(space: &Space, request: &Request) -> Spans
    ensures { buffers.listed result ≡ buffers.written_spans space.now request.now }
{
    writes_of(request, size_of(space, request))
}

/// The spans that the call's answer fills.
pub fn filled_spans(space: &Space, request: &Request) -> Spans
    ensures { buffers.listed result ≡ buffers.filled_spans space.now request.now }
{
    fills_of(request, size_of(space, request))
}

pub fn put_bytes(space: &mut Space, address: u32, bytes: &[u8])
    requires { CanHold space.old address bytes.now }
    ensures { space.new ≡ with_bytes space.old address bytes.now }
{
    match space.copy_in(address, bytes) {
        Ok(()) => {}
        Err(_) => unreachable!(),
    }
}

/// Puts the bytes of an answer where the call asked for them: into the first span, and where there are two,
/// the last ones into the second.
pub fn put_answer(space: &mut Space, spans: Spans, bytes: &[u8])
    requires { CanTake space.old (buffers.listed spans) bytes.now }
    ensures { space.new ≡ with_spans space.old (buffers.listed spans) bytes.now }
{
    match (spans.first, spans.second) {
        (Some(at), Some(next)) => {
            let front = bytes.len().saturating_sub(next.length as usize);
            put_bytes(space, at.address, &bytes[..front]);
            put_bytes(space, next.address, &bytes[front..]);
        }
        (Some(at), None) => put_bytes(space, at.address, bytes),
        (None, Some(at)) => put_bytes(space, at.address, bytes),
        (None, None) => {}
    }
}

/// Copies what the call reads into the transfer.
pub fn lend_from(space: &Space, request: &Request, transfer: &mut Transfer) -> Result<(), LendFault>
    ensures ok { OnOk result (buffers.lent space.now request.now ≡ Some transfer.new) }
    ensures fault { (result ≡ Err LendFault.Fault) ↔ (buffers.lent space.now request.now ≡ None) }
    ensures memory { result ≢ Err LendFault.Memory }
    ensures err { OnErr result (transfer.new ≡ transfer.old) }
{
    let Some(at) = readable_span(space, reads_of(request)) else {
        return Err(LendFault::Fault);
    };
    if !can_write_all(space, written_spans(space, request)) {
        return Err(LendFault::Fault);
    }
    copy_span(space, at, transfer);
    Ok(())
}

/// The transfer holds the bytes of the span alone.
fn copy_span(space: &Space, at: Span, transfer: &mut Transfer)
    requires readable { is_some (bytes_at space.now ToRead at.address at.length) ≡ true }
    requires short { at.length ≤ TRANSFER_LIMIT }
    ensures { bytes_at space.now ToRead at.address at.length ≡ Some transfer.new }
{
    transfer.clear();
    match space.copy_out(at.address, transfer, at.length) {
        Ok(()) => {}
        Err(_) => unreachable!(),
    }
}
