//! The values of event counters (`man 2 eventfd`).
ghost use Rattle.std.specs.Prelude.{◌≡◌, ◌==◌, ◌&&◌, ◌-◌, ◌^◌, ◌≤◌, ℕ, nat_le, not, true, length, None, Some};
ghost use Rattle.std.specs.FinMap as map;
ghost use Rattle.fd_tables.specs.declared.description.Object.TheVariants as object;
ghost use Rattle.plain_process.specs.Memory.{little_endian};
ghost use Rattle.plain_machine.specs.declared.kernel.PlainKernel.{PlainKernel};
ghost use Rattle.plain_machine.specs.Kernel.{with_object};
ghost use Rattle.plain_machine.specs.Transfers.Counters as words;
ghost use Rattle.plain_tables.specs.declared.description.Object.TheVariants.{Counter};
ghost use Rattle.host_processes.specs.OfHostTables.Serves.{Serves, ByNumber, same};
ghost use Rattle.host_processes.specs.OfHostTables.Stands.{Given, Stands};
ghost use Rattle.host_processes.specs.HandedOn.{seen_held};

use fd_book::Object;
use host_processes::{Attempt, Held, Kernel};
use sys_abi::errors::EINVAL;
use sys_abi::{Errno, Transfer};

/// How many bytes a counter is read and written as.
const COUNTER_SIZE: u32 = 8;

/// A read of a counter of that value, which becomes 0. Takes no memory.
pub fn read_counter(
    kernel: &mut Kernel,
    held: Held,
    value: u64,
    count: u32,
    transfer: &mut Transfer,
) -> Attempt
    requires there { map.get kernel.old.book.descriptions held.desc ≡ Some held.description }
    requires counter { held.description.object ≡ object.Counter value }
    ensures row { (g : Given) (k : PlainKernel) → Stands g None kernel.old k
        → Serves ByNumber same g kernel.old kernel.new transfer.old transfer.new result
        (words.read_counter k (seen_held g kernel.old held) value count) }
    ensures nodes { kernel.new.net.nodes ≡ kernel.old.net.nodes }
    ensures next { kernel.new.procs.next ≡ kernel.old.procs.next }
{
    if count < COUNTER_SIZE {
        return Attempt::Fails(Errno(EINVAL));
    }
    put_value(kernel, held, 0);
    transfer.clear();
    transfer.put(&value.to_le_bytes());
    Attempt::Gives(COUNTER_SIZE)
}

/// A write that adds what the transfer holds to a counter of that value. Takes no memory.
pub fn write_counter(
    kernel: &mut Kernel,
    held: Held,
    value: u64,
    count: u32,
    transfer: &Transfer,
) -> Attempt
    requires there { map.get kernel.old.book.descriptions held.desc ≡ Some held.description }
    requires counter { held.description.object ≡ object.Counter value }
    requires takes { words.takes_more value count transfer.now ≡ true }
    ensures row { (g : Given) (k : PlainKernel) → Stands g None kernel.old k
        → Serves ByNumber same g kernel.old kernel.new transfer.now transfer.now result
        (words.write_counter k (seen_held g kernel.old held) value count transfer.now) }
    ensures nodes { kernel.new.net.nodes ≡ kernel.old.net.nodes }
    ensures next { kernel.new.procs.next ≡ kernel.old.procs.next }
{
    let added = number_added(transfer.as_slice());
    if !may_add(count, added) {
        return Attempt::Fails(Errno(EINVAL));
    }
    put_value(kernel, held, value + added);
    Attempt::Gives(COUNTER_SIZE)
}

/// The counter has this value in the place of what it had.
fn put_value(kernel: &mut Kernel, held: Held, value: u64)
    requires { map.get kernel.old.book.descriptions held.desc ≡ Some held.description }
    ensures stands { (before : ℕ) → held.description.object ≡ object.Counter before
        → (g : Given) (k : PlainKernel) → Stands g None kernel.old k
        → Stands g None kernel.new (with_object k (seen_held g kernel.old held) (Counter value)) }
    ensures nodes { kernel.new.net.nodes ≡ kernel.old.net.nodes }
    ensures next { kernel.new.procs.next ≡ kernel.old.procs.next }
{
    kernel.book.set_object(held.desc, Object::Counter { value });
}

/// Whether there are 8 bytes, and some counter can take their number.
fn may_add(count: u32, added: u64) -> bool
    ensures { result ≡ (nat_le words.COUNTER_SIZE count && not (added == 2 ^ 64 - 1)) }
{
    count >= COUNTER_SIZE && added != u64::MAX
}

/// The number that the first 8 bytes spell, the lowest first.
fn number_added(bytes: &[u8]) -> u64
    ensures { result ≡ words.number_added bytes.now }
{
    number_of(&bytes[..bytes.len().min(8)])
}

fn number_of(bytes: &[u8]) -> u64
    requires { length bytes.now ≤ 8 }
    ensures { result ≡ little_endian bytes.now }
{
    let mut number: u64 = 0;
    for i in 0..bytes.len() {
        number = number * 256 + bytes[bytes.len() - 1 - i] as u64;
    }
    number
}
