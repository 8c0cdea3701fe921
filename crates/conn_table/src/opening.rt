//! A new pair.
ghost use Rattle.std.specs.Prelude.{◌≡◌, ◌-◌, ◌^◌, None, IfSome, OnOk, OnErr};
ghost use Rattle.std.specs.FinMap as map;
ghost use Rattle.conn_table.specs.Openings as words;

use crate::inbox::Inbox;
use crate::pairs::{DatagramEnd, DatagramPair, DatagramPairs};
use id_maps::sys_abi::DescId;
use id_maps::views::number_map::NumberMap;
use std::alloc::{AllocError, Global};

impl DatagramPairs {
    /// The lowest number that no pair has, None where 2^32 - 1 pairs have one each, which no machine has the
    /// memory for.
    pub fn lowest_number(&self) -> Option<u32>
        ensures found { IfSome result (words.IsLowestNumber self.now) }
        ensures none { result ≡ None → words.AreTaken self.now (2 ^ 32 - 1) }
    {
        lowest_among(&self.pairs)
    }

    /// Makes a pair of these descriptions under the number, with both ends open (`man 2 socketpair`). After a
    /// failed allocation all is as before.
    pub fn insert(&mut self, number: u32, first: DescId, second: DescId) -> Result<(), AllocError>
        requires { map.get self.old number ≡ None }
        ensures ok { OnOk result (self.new ≡ map.insert self.old number (words.new_pair first second)) }
        ensures err { OnErr result (self.new ≡ self.old) }
    {
        let pair = DatagramPair {
            first: DatagramEnd::new(self.alloc, first),
            second: DatagramEnd::new(self.alloc, second),
        };
        self.pairs.insert(number, pair)?;
        Ok(())
    }
}

impl DatagramEnd {
    /// An open end, at which nothing waits.
    fn new(alloc: Global, desc: DescId) -> DatagramEnd
        ensures { result ≡ words.new_end desc }
    {
        DatagramEnd {
            desc,
            is_open: true,
            inbox: Inbox::new(alloc),
        }
    }
}

fn lowest_among(pairs: &NumberMap<DatagramPair>) -> Option<u32>
    ensures found { IfSome result (words.IsLowestNumber pairs.now) }
    ensures none { result ≡ None → words.AreTaken pairs.now (2 ^ 32 - 1) }
{
    for number in 0..u32::MAX {
        if !pairs.contains_key(number) {
            return Some(number);
        }
    }
    None
}
