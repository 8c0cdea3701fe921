ghost use Rattle.std.specs.Prelude.{◌≡◌, ◌<◌};
ghost use Rattle.conn_table.specs.Conns as conns;

use id_maps::sys_abi::{ConnId, VirtAddr};

/// A channel without its bytes. Side 0 of an internet connection is the client's, side 0 of a pipe writes.
#[derive(Clone, Copy, Debug, PartialEq, Eq)]
pub struct Conn {
    pub id: ConnId,
    /// 0 a pair of stream ends, 1 an internet connection, 2 a pipe.
    pub kind: u8,
    /// The address of each side, where it has one.
    pub addr: [Option<VirtAddr>; 2],
    /// Whether each side is open.
    pub open_ends: [bool; 2],
}

impl Conn {
    /// Whether an end is open.
    pub fn is_open(&self) -> bool
        ensures { result ≡ conns.is_open self.now }
    {
        self.open_ends.iter().any(|open| *open)
    }

    /// Whether an end, open or closed, has the address.
    pub fn has_address(&self, address: VirtAddr) -> bool
        ensures { result ≡ conns.has_address address self.now }
    {
        self.addr.iter().any(|end| is_at(*end, address))
    }

    /// The channel with this side closed.
    pub fn without_end(self, side: u8) -> Conn
        requires { side < 2 }
        ensures { result ≡ conns.without_end side self }
    {
        let mut open_ends = self.open_ends;
        open_ends[side as usize] = false;
        Conn { open_ends, ..self }
    }
}

fn is_at(end: Option<VirtAddr>, address: VirtAddr) -> bool
    ensures { result ≡ conns.is_at address end }
{
    match end {
        None => false,
        Some(own) => address.cmp(&own).is_eq(),
    }
}
