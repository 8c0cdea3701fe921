ghost use Rattle.std.specs.Prelude.{◌≡◌};
ghost use Rattle.std.specs.FinMap as map;

use crate::inbox::Inbox;
use id_maps::sys_abi::DescId;
use id_maps::views::number_map::NumberMap;
use std::alloc::Global;
use std::marker::Model;

/// An end of a datagram pair (`man 2 socketpair`): its description, whether it is open, and what waits to be
/// read there.
#[derive(Drop)]
pub struct DatagramEnd {
    pub desc: DescId,
    pub is_open: bool,
    pub inbox: Inbox,
}

/// A datagram pair.
#[derive(Drop)]
pub struct DatagramPair {
    pub first: DatagramEnd,
    pub second: DatagramEnd,
}

/// All datagram pairs.
#[derive(Drop)]
pub struct DatagramPairs {
    pub(crate) alloc: Global,
    pub(crate) pairs: NumberMap<DatagramPair>,
}

impl Model for DatagramPairs {
    ghost use Rattle.std.specs.FinMap as map;
    ghost use Rattle.std.specs.Ordering.{nat_cmp};
    ghost use Rattle.std.specs.Coded.{coded_ℕ};
    ghost use Rattle.conn_table.specs.declared.pairs.DatagramPair.{DatagramPair};
    ghost use Rattle.conn_table.specs.contracts.pairs.DatagramPair as pair;

    ghost Value = { map.FinMap nat_cmp DatagramPair };

    ghost coded = { map.code coded_ℕ pair.the_row.coded };

    ghost view = { λ a. a.pairs };
}

impl DatagramPairs {
    /// No pairs. It holds no memory yet.
    pub fn new(alloc: Global) -> DatagramPairs
        ensures { result ≡ map.empty }
    {
        DatagramPairs {
            alloc,
            pairs: NumberMap::new(alloc),
        }
    }
}
