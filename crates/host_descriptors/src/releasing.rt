//! What goes with a description that is gone.
ghost use Rattle.std.specs.Prelude.{◌≡◌, ◌<◌, None, []};
ghost use Rattle.std.specs.FinMap as map;
ghost use Rattle.host_tables.specs.OfPlainTables.Closing.{without_unkept};
ghost use Rattle.host_tables.specs.OfPlainTables.Objects.{has_name};
ghost use Rattle.host_tables.specs.OfPlainMachine.declared.kernel.PlainKernel.{PlainKernel};
ghost use Rattle.host_tables.specs.OfPlainMachine.Channels.{close_side};
ghost use Rattle.host_tables.specs.Stands.{Given, Stands};
ghost use Rattle.host_descriptors.specs.LetGo.{HasLetGo};

use fd_book::Object;
use host_tables::{Files, Kernel};
use sys_abi::ConnId;

/// What the object names goes with its description, which is not there any more. Takes no memory.
pub fn let_go(kernel: &mut Kernel, object: Object)
    ensures { HasLetGo kernel.old kernel.new object }
{
    match object {
        Object::File { number, offset: _ } => forget_unkept(kernel, number),
        Object::Stream { conn, side } => close_end(kernel, conn, side),
        Object::Listener { at } => kernel.net.close_listener(at),
        Object::Datagram { queue, side } => kernel.datagrams.close_end(queue, side),
        Object::Console | Object::Socket | Object::Counter { value: _ } => {}
    }
}

/// A file goes where it has no name and no description.
fn forget_unkept(kernel: &mut Kernel, number: u32)
    ensures { (g : Given) (k : PlainKernel) → Stands g None kernel.old k → map.get kernel.old.files.names [] ≡ None
        → Stands g None kernel.new (record k { files = without_unkept k.names k.descriptions k.files number }) }
{
    if kernel.book.has_file(number) {
        return;
    }
    if is_named(&kernel.files, number) {
        return;
    }
    kernel.files.forget(number);
}

fn is_named(files: &Files, number: u32) -> bool
    ensures { map.get files.now.names [] ≡ None → result ≡ has_name files.now.names number }
{
    files.whole();
    match files.name(number) {
        Some(name) => !name.is_empty(),
        None => false,
    }
}

/// Closes an end of a channel, whose side is 0 or 1.
fn close_end(kernel: &mut Kernel, conn: ConnId, side: u8)
    ensures { (g : Given) (k : PlainKernel) → Stands g None kernel.old k → side < 2
        → Stands g None kernel.new (close_side k conn side) }
{
    if side > 1 {
        return;
    }
    kernel.net.close_end(conn, side);
}
