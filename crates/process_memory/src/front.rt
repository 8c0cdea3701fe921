ghost use Rattle.std.specs.Prelude.{◌≡◌, ◌↔◌, ℕ, List, Some, None, is_some, true, IfSome};
ghost use Rattle.plain_process.specs.Buffers as buffers;
ghost use Rattle.plain_process.specs.Memory.{bytes_at};
ghost use Rattle.plain_process.specs.declared.memory.Right.TheVariants.{Read as ToRead};
ghost use Rattle.process_memory.specs.Lending.{IsFrontOf};

use crate::buffers::{can_write_all, readable_span, written_spans};
use call_table::{Given, Request};
use guest_mem::Space;
use plain_process::{Right, Span, reads_of};

/// How many bytes of what a call reads tell whether it waits.
const FRONT_SIZE: u32 = 16;

/// The front of what a call reads, None where one of its buffers is not readable or writable as it needs.
pub fn front_from(space: &Space, request: &Request) -> Option<Given>
    ensures fault { (result ≡ None) ↔ (buffers.lent space.now request.now ≡ None) }
    ensures front { IfSome result (λ front. (given : List ℕ)
        → buffers.lent space.now request.now ≡ Some given → IsFrontOf given front) }
{
    let at = readable_span(space, reads_of(request))?;
    if !can_write_all(space, written_spans(space, request)) {
        return None;
    }
    Some(front_of_span(space, at))
}

/// The first bytes of the span, with zeros where it has fewer.
fn front_of_span(space: &Space, at: Span) -> Given
    requires { is_some (bytes_at space.now ToRead at.address at.length) ≡ true }
    ensures { (given : List ℕ) → bytes_at space.now ToRead at.address at.length ≡ Some given
        → IsFrontOf given result }
{
    let mut front = [0; FRONT_SIZE as usize];
    let count = at.length.min(FRONT_SIZE);
    if !space.is_readable(at.address, count) {
        unreachable!();
    }
    for index in 0..count {
        let byte = space.byte_with(Right::Read, at.address + index);
        front[index as usize] = byte.unwrap_or(0);
    }
    front
}
