//! What goes with a description that is gone.
ghost use Rattle.std.specs.Prelude.{◌≡◌, ◌<◌, ◌^◌, length, IfSome, IfNone};
ghost use Rattle.std.specs.FinMap as map;
ghost use Rattle.wire_net.specs.Networks.{waiting_at};
ghost use Rattle.host_descriptors.specs.LetGo.{HasLetGo, closed_of};
ghost use Rattle.wrap_ends.specs.Forgetting.{HasForgotten, ends_after, ids_after, queue_of, without_waiting};

use conn_table::ConnTable;
use fd_book::Object;
use host_descriptors::let_go;
use host_tables::System;
use sys_abi::{DescId, RealAddr};
use virt_ids::Ids;
use wire_net::Net;

/// What a change of the book left to do: with the description that lost its last descriptor goes what it was
/// of, and what the pairs and the table of channels have of that. Takes no memory.
pub(crate) fn release(system: &mut System, lost: Option<DescId>, object: Option<Object>)
    ensures goes { IfSome (closed_of lost object) (λ closed.
        HasLetGo system.old.kernel system.new.kernel closed.object) }
    ensures forgets { IfSome (closed_of lost object) (HasForgotten system.old system.new) }
    ensures stays { IfNone (closed_of lost object) (system.new ≡ system.old) }
    ensures pids { system.new.ids.pids ≡ system.old.ids.pids }
{
    let Some(desc) = lost else {
        return;
    };
    let Some(object) = object else {
        return;
    };
    forget_place(&mut system.ids, &system.conns, desc, object);
    forget_ends(&mut system.conns, &system.kernel.net, object);
    system.conns.drop_name(desc);
    let_go(&mut system.kernel, object);
}

/// The address at which the description listened is paired no more.
fn forget_place(ids: &mut Ids, conns: &ConnTable, desc: DescId, object: Object)
    ensures gone { ids.new ≡ ids_after conns.now.names ids.old desc object }
    ensures pids { ids.new.pids ≡ ids.old.pids }
{
    let Object::Listener { at: _ } = object else {
        return;
    };
    let Some(address) = conns.name(desc) else {
        return;
    };
    ids.drop_addr(address);
}

/// The end of a channel closes, or those of the connections that wait.
fn forget_ends(conns: &mut ConnTable, net: &Net, object: Object)
    ensures { length (queue_of net.now.listeners object) < 2 ^ 32 → conns.new
        ≡ record conns.old { conns = ends_after net.now.listeners conns.old.conns object } }
{
    match object {
        Object::Stream { conn, side } => conns.drop_end(conn, side),
        Object::Listener { at } => forget_waiting(conns, net, at),
        Object::Console
        | Object::File {
            number: _,
            offset: _,
        }
        | Object::Socket
        | Object::Datagram { queue: _, side: _ }
        | Object::Counter { value: _ } => {}
    }
}

/// Nobody will accept the connections that wait there.
fn forget_waiting(conns: &mut ConnTable, net: &Net, at: RealAddr)
    ensures { length (waiting_at (map.get net.now.listeners at)) < 2 ^ 32 → conns.new ≡ record conns.old {
      conns = without_waiting conns.old.conns (waiting_at (map.get net.now.listeners at));
    } }
{
    for place in 0..u32::MAX {
        let Some(conn) = net.queued(at, place) else {
            return;
        };
        conns.drop_end(conn, 1);
    }
}
