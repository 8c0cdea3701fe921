//! Bytes out of the front of a ring. Each run of bytes is copied whole.
ghost use Rattle.std.specs.Prelude.{◌≡◌, ◌+◌, ◌≤◌, ◌++◌, length, take, drop};
ghost use Rattle.virt_ids.specs.OfSysAbi.declared.transfer.TheConstants.{TRANSFER_LIMIT};
ghost use Rattle.circular_buffer.specs.Buffer.{buffer};

use circular_buffer::HeapCircularBuffer;
use virt_ids::sys_abi::Transfer;

pub(crate) type Ring = HeapCircularBuffer<u8>;

/// The first `count` bytes, of two runs of them.
fn split_at_count<'a>(front: &'a [u8], back: &'a [u8], count: usize) -> (&'a [u8], &'a [u8])
    requires { count ≤ length front.now + length back.now }
    ensures bytes { result.0.now ++ result.1.now ≡ take count (front.now ++ back.now) }
    ensures len { length result.0.now + length result.1.now ≡ count }
{
    if count <= front.len() {
        (&front[..count], &back[..0])
    } else {
        (front, &back[..count - front.len()])
    }
}

/// Puts the first `count` bytes in the place of what the transfer holds. The queue keeps them.
pub(crate) fn copy_front(from: &Ring, count: usize, xfer: &mut Transfer)
    requires { (count ≤ length from.now.items) × (count ≤ TRANSFER_LIMIT) }
    ensures { xfer.new ≡ take count from.now.items }
{
    let (front, back) = from.as_slices();
    let (front, back) = split_at_count(front, back, count);
    xfer.clear();
    xfer.put(front);
    xfer.put(back);
}

/// Moves the first `count` bytes in the place of what the transfer holds.
pub(crate) fn take_front(from: &mut Ring, count: usize, xfer: &mut Transfer)
    requires { (count ≤ length from.old.items) × (count ≤ TRANSFER_LIMIT) }
    ensures taken { from.new ≡ buffer (drop count from.old.items) from.old.capacity }
    ensures given { xfer.new ≡ take count from.old.items }
{
    copy_front(from, count, xfer);
    from.truncate_front(from.len() - count);
}
