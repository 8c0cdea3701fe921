//! The close of an end. A pair is gone when its last open end is closed.
ghost use Rattle.std.specs.Prelude.{◌≡◌};
ghost use Rattle.std.specs.FinMap as map;
ghost use Rattle.conn_table.specs.Pairs as words;

use crate::inbox::Inbox;
use crate::pairs::{DatagramEnd, DatagramPair, DatagramPairs};
use id_maps::views::number_map::NumberMap;
use std::alloc::Global;

impl DatagramPairs {
    /// Closes the end of a side, 0 or else 1, if the pair is there: what waits to be read there is gone, and
    /// the other end still knows its description. Takes no memory.
    pub fn close_end(&mut self, number: u32, side: u8)
        ensures { self.new ≡ words.after_close side self.old number }
    {
        drop_end(&mut self.pairs, self.alloc, number, side);
    }
}

/// Closes an end of a pair, which is gone where no end of it is open then.
fn drop_end(pairs: &mut NumberMap<DatagramPair>, alloc: Global, number: u32, side: u8)
    ensures { pairs.new ≡ words.after_close side pairs.old number }
{
    if !close_end(pairs, alloc, number, side) {
        pairs.remove(number);
    }
}

/// Closes an end of a pair, and tells whether the pair has an open end then, or isn't there.
fn close_end(pairs: &mut NumberMap<DatagramPair>, alloc: Global, number: u32, side: u8) -> bool
    ensures open { result ≡ words.stays_open side (map.get pairs.old number) }
    ensures closed { pairs.new ≡ words.with_closed side pairs.old number }
{
    let Some(pair) = pairs.get_mut(number) else {
        return true;
    };
    pair.close(alloc, side)
}

impl DatagramPair {
    /// Closes the end of a side, 0 or else 1. Answers whether an end is open then.
    fn close(&mut self, alloc: Global, side: u8) -> bool
        ensures open { result ≡ words.is_open (words.without_end side self.old) }
        ensures closed { self.new ≡ words.without_end side self.old }
    {
        if side == 0 {
            self.first.close(alloc);
            return self.second.is_open;
        }
        self.second.close(alloc);
        self.first.is_open
    }
}

impl DatagramEnd {
    fn close(&mut self, alloc: Global)
        ensures { self.new ≡ words.closed_end self.old }
    {
        self.is_open = false;
        self.inbox = Inbox::new(alloc);
    }
}
