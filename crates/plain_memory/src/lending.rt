ghost use Rattle.std.specs.Prelude.{◌≡◌, ◌≤◌, length, IfOk, IfSome};
ghost use Rattle.std.specs.List.{list_all};
ghost use Rattle.sys_abi.specs.declared.transfer.TheConstants.{TRANSFER_LIMIT};
ghost use Rattle.plain_process.specs.Buffers as words;

use crate::memory::{byte_at, bytes_at, has_bytes, load};
use call_table::Request;
use plain_process::buffers::{Source, Span, Spans, fills_of, length_place, reads_of, writes_of};
use plain_process::memory::{Frame, Right};
use std::alloc::{AllocError, Global};
use views::list_of::ListOf;
use views::number_map::NumberMap;

/// How many bytes a path has at most, its zero byte included.
const PATH_LIMIT: u32 = 256;

/// The bytes of a text up to its first zero byte and that byte, where each of them can be read.
fn text_at(
    alloc: Global,
    memory: &NumberMap<Frame>,
    address: u32,
) -> Result<Option<ListOf<u8>>, AllocError>
    ensures { IfOk result (λ text. text ≡ words.text_at memory.now address words.PATH_LIMIT) }
{
    let mut text = ListOf::new(alloc);
    for i in 0..PATH_LIMIT {
        let Some(byte) = byte_at(memory, Right::Read, address as u64 + i as u64) else {
            return Ok(None);
        };
        text.push(byte)?;
        if byte == 0 {
            return Ok(Some(text));
        }
    }
    Ok(Some(text))
}

/// The bytes that a source names, where each of them can be read.
fn bytes_of(
    alloc: Global,
    memory: &NumberMap<Frame>,
    source: Source,
) -> Result<Option<ListOf<u8>>, AllocError>
    ensures { IfOk result (λ bytes. bytes ≡ words.bytes_of memory.now source) }
{
    match source {
        Source::Nothing => Ok(Some(ListOf::new(alloc))),
        Source::Bytes(at) => bytes_at(alloc, memory, Right::Read, at.address, at.length),
        Source::Text(address) => text_at(alloc, memory, address),
    }
}

/// The same of a source that is short, which gives no more bytes than a call moves.
fn short_bytes_of(
    alloc: Global,
    memory: &NumberMap<Frame>,
    source: Source,
) -> Result<Option<ListOf<u8>>, AllocError>
    requires { words.IsShort source }
    ensures bytes { IfOk result (λ bytes. bytes ≡ words.bytes_of memory.now source) }
    ensures short { IfOk result (λ bytes. IfSome bytes (λ read. length read ≤ TRANSFER_LIMIT)) }
{
    let bytes = bytes_of(alloc, memory, source)?;
    Ok(bytes)
}

/// The length of the address that the call writes, 0 where it writes none.
#[tactic(auto, unfolding(plain_process::specs::Buffers::size_of))]
fn size_of(memory: &NumberMap<Frame>, request: &Request) -> u32
    ensures { result ≡ words.size_of memory.now request.now }
{
    match length_place(request) {
        None => 0,
        Some(place) => load(memory, place, 4).unwrap_or(0),
    }
}

/// The spans that the call's answer may write.
pub fn written_spans(memory: &NumberMap<Frame>, request: &Request) -> Spans
    ensures { words.listed result ≡ words.written_spans memory.now request.now }
{
    writes_of(request, size_of(memory, request))
}

/// The spans that the call's answer fills.
pub fn filled_spans(memory: &NumberMap<Frame>, request: &Request) -> Spans
    ensures { words.listed result ≡ words.filled_spans memory.now request.now }
{
    fills_of(request, size_of(memory, request))
}

fn can_write(memory: &NumberMap<Frame>, at: Option<Span>) -> bool
    ensures { result ≡ list_all (words.can_write memory.now) (words.optional at) }
{
    match at {
        None => true,
        Some(at) => has_bytes(memory, Right::Write, at.address, at.length),
    }
}

fn can_write_all(memory: &NumberMap<Frame>, spans: Spans) -> bool
    ensures { result ≡ list_all (words.can_write memory.now) (words.listed spans) }
{
    can_write(memory, spans.first) && can_write(memory, spans.second)
}

/// The bytes that a call reads, none where some buffer isn't readable or writable as needed (EFAULT).
#[tactic(auto, unfolding(plain_process::specs::Buffers::lent, plain_process::specs::Buffers::given_of))]
pub fn lent(
    alloc: Global,
    memory: &NumberMap<Frame>,
    request: &Request,
) -> Result<Option<ListOf<u8>>, AllocError>
    ensures given { IfOk result (λ given. given ≡ words.lent memory.now request.now) }
    ensures short { IfOk result (λ given. IfSome given (λ bytes. length bytes ≤ TRANSFER_LIMIT)) }
{
    let given = short_bytes_of(alloc, memory, reads_of(request))?;
    if !can_write_all(memory, written_spans(memory, request)) {
        return Ok(None);
    }
    Ok(given)
}
