ghost use Rattle.std.specs.Prelude.{◌≡◌, ◌<◌, ◌≤◌, ◌↔◌, Ok, Err, find, is_some, true, false, IsSome, OnOk, OnErr};
ghost use Rattle.std.specs.Option.{option_copied};
ghost use Rattle.std.specs.List.{list_any};
ghost use Rattle.std.specs.Ordering.{eq_by_cmp};
ghost use Rattle.std.specs.FinMap as map;
ghost use Rattle.id_maps.specs.OfSysAbi.Orders.{address_cmp};
ghost use Rattle.conn_table.specs.Conns as conns;
ghost use Rattle.conn_table.specs.Unsupported as unsupported;

use crate::conn::Conn;
use crate::conn_fault::ConnFault;
use crate::unsupported::least_unsupported;
use id_maps::sys_abi::{ConnId, DescId, Fd, Kind, Maker, VPid, VirtAddr};
use id_maps::{ByConn, ByDesc, ByPid};
use std::alloc::{AllocError, Global};

/// The channels, the addresses of sockets and listeners, and the makers of all processes. A socket that is
/// not bound has the address of its host with the port 0.
#[derive(Drop)]
pub struct ConnTable {
    conns: ByConn<Conn>,
    names: ByDesc<VirtAddr>,
    makers: ByPid<Maker>,
}

impl ConnTable {
    /// The empty table, which holds no memory yet.
    pub fn new(alloc: Global) -> ConnTable
        ensures { result ≡ record { conns = map.empty; names = map.empty; makers = map.empty } }
    {
        ConnTable {
            conns: ByConn::new(alloc),
            names: ByDesc::new(alloc),
            makers: ByPid::new(alloc),
        }
    }

    /// Adds a channel under its name.
    pub fn add(&mut self, c: Conn) -> Result<(), ConnFault>
        ensures taken { (result ≡ Err ConnFault.Taken) ↔ IsSome (map.get self.old.conns c.id) }
        ensures ok { OnOk result (self.new ≡ record self.old { conns = map.insert self.old.conns c.id c }) }
        ensures err { OnErr result (self.new ≡ self.old) }
    {
        if self.conns.contains_key(c.id) {
            return Err(ConnFault::Taken);
        }
        self.conns.insert(c.id, c)?;
        Ok(())
    }

    pub fn get(&self, id: ConnId) -> Option<&Conn>
        ensures { option_copied result ≡ map.get self.now.conns id }
    {
        self.conns.get(id)
    }

    /// The least channel above this one, or the least of all where none is given.
    pub fn next_conn(&self, above: Option<ConnId>) -> Option<ConnId>
        ensures { result ≡ find (conns.is_above above) (map.keys self.now.conns) }
    {
        self.conns.next_above(above)
    }

    /// Closes a side of a channel. The channel goes when its last open end is closed. Where there is no such
    /// channel, or no such side, nothing changes.
    pub fn drop_end(&mut self, id: ConnId, side: u8)
        ensures closed { side < 2 → self.new ≡ record self.old { conns = conns.after_end side self.old.conns id } }
        ensures none { 2 ≤ side → self.new ≡ self.old }
    {
        if side > 1 {
            return;
        }
        if !close_end(&mut self.conns, id, side) {
            self.conns.remove(id);
        }
    }

    /// Whether an end of a channel, a socket or a listener has the address, to which nobody else can be bound
    /// then. The port 0, which sockets have that are not bound, is not asked for.
    pub fn port_used(&self, a: VirtAddr) -> bool
        ensures { result ≡ conns.is_used a self.now.conns self.now.names }
    {
        is_address_of_end(&self.conns, a) || is_address_of_name(&self.names, a)
    }

    /// The least process and descriptor of the rows whose kind no image of a checkpoint holds: the end of a
    /// datagram pair, or an event counter.
    pub fn first_unsupported(&self, rows: &[(VPid, Fd, Kind)]) -> Option<(VPid, Fd, Kind)>
        ensures { unsupported.IsLeastUnsupported rows.now result }
    {
        least_unsupported(rows)
    }

    /// Gives a socket or listener its address, in place of the one that it has.
    pub fn set_name(&mut self, d: DescId, a: VirtAddr) -> Result<(), AllocError>
        ensures ok { OnOk result (self.new ≡ record self.old { names = map.insert self.old.names d a }) }
        ensures err { OnErr result (self.new ≡ self.old) }
    {
        self.names.insert(d, a)?;
        Ok(())
    }

    pub fn name(&self, d: DescId) -> Option<VirtAddr>
        ensures { result ≡ map.get self.now.names d }
    {
        self.names.get(d).copied()
    }

    pub fn drop_name(&mut self, d: DescId)
        ensures { self.new ≡ record self.old { names = map.remove self.old.names d } }
    {
        self.names.remove(d);
    }

    /// Sets the maker of a process. It takes no memory where the process has one.
    pub fn set_maker(&mut self, p: VPid, m: Maker) -> Result<(), AllocError>
        ensures ok { OnOk result (self.new ≡ record self.old { makers = map.insert self.old.makers p m }) }
        ensures err { OnErr result (self.new ≡ self.old) }
        ensures changed { IsSome (map.get self.old.makers p) → result ≡ Ok tt }
    {
        if change_maker(&mut self.makers, p, m) {
            return Ok(());
        }
        self.makers.insert(p, m)?;
        Ok(())
    }

    pub fn maker(&self, p: VPid) -> Option<Maker>
        ensures { result ≡ map.get self.now.makers p }
    {
        self.makers.get(p).copied()
    }

    pub fn drop_maker(&mut self, p: VPid)
        ensures { self.new ≡ record self.old { makers = map.remove self.old.makers p } }
    {
        self.makers.remove(p);
    }
}

/// Closes a side of a channel, and tells whether the channel has an open end then, or isn't there.
fn close_end(channels: &mut ByConn<Conn>, id: ConnId, side: u8) -> bool
    requires { side < 2 }
    ensures open { result ≡ conns.stays_open side (map.get channels.old id) }
    ensures closed { channels.new ≡ conns.with_closed side channels.old id }
{
    let Some(conn) = channels.get_mut(id) else {
        return true;
    };
    *conn = conn.without_end(side);
    conn.is_open()
}

/// Whether an end of a channel has the address.
fn is_address_of_end(channels: &ByConn<Conn>, a: VirtAddr) -> bool
    ensures { result ≡ list_any (conns.has_address a) (map.values channels.now) }
{
    channels.values().any(|conn| conn.has_address(a))
}

/// Whether a socket or listener has the address.
fn is_address_of_name(names: &ByDesc<VirtAddr>, a: VirtAddr) -> bool
    ensures { result ≡ list_any (eq_by_cmp address_cmp a) (map.values names.now) }
{
    names.values().any(|own| a.cmp(own).is_eq())
}

/// Changes the maker of a process, if it has one.
fn change_maker(makers: &mut ByPid<Maker>, p: VPid, m: Maker) -> bool
    ensures has { result ≡ is_some (map.get makers.old p) }
    ensures yes { result ≡ true → makers.new ≡ map.insert makers.old p m }
    ensures no { result ≡ false → makers.new ≡ makers.old }
{
    let Some(maker) = makers.get_mut(p) else {
        return false;
    };
    *maker = m;
    true
}
