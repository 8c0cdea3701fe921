//! Messages through datagram pairs.
ghost use Rattle.std.specs.Prelude.{◌≡◌, length, option_map, option_and_then, OnOk, OnErr};
ghost use Rattle.std.specs.FinMap as map;
ghost use Rattle.conn_table.specs.Messages as words;
ghost use Rattle.conn_table.specs.Pairs.{end_of};

use crate::pairs::{DatagramEnd, DatagramPair, DatagramPairs};
use id_maps::sys_abi::DescId;
use id_maps::views::list_of::ListOf;
use id_maps::views::number_map::NumberMap;
use std::alloc::AllocError;

impl DatagramPairs {
    /// The description of the end of a side, 0 or else 1, if the pair is there.
    pub fn desc_at(&self, number: u32, side: u8) -> Option<DescId>
        ensures { result ≡ option_map (λ pair. (end_of side pair).desc) (map.get self.now number) }
    {
        match self.pairs.get(number) {
            Some(pair) => Some(pair.end(side).desc),
            None => None,
        }
    }

    /// How many messages wait at the end of a side, 0 or else 1, if the pair is there.
    pub fn waiting(&self, number: u32, side: u8) -> Option<usize>
        ensures { result ≡ option_map (λ pair. length (end_of side pair).inbox) (map.get self.now number) }
    {
        match self.pairs.get(number) {
            Some(pair) => Some(pair.end(side).inbox.len()),
            None => None,
        }
    }

    /// Puts a message behind those that wait at the end of a side, 0 or else 1, if the pair is there
    /// (`man 2 send`). After want of memory the pairs are as before.
    pub fn send(&mut self, number: u32, side: u8, bytes: &[u8]) -> Result<(), AllocError>
        ensures ok { OnOk result (self.new ≡ words.at_pair (words.with_sent side bytes.now) self.old number) }
        ensures err { OnErr result (self.new ≡ self.old) }
    {
        let message = ListOf::from_vec(Vec::from_slice(self.alloc, bytes)?);
        push_at(&mut self.pairs, number, side, message)
    }

    /// Takes out the oldest message that waits at the end of a side, 0 or else 1 (`man 2 recv`). Takes no
    /// memory.
    pub fn receive(&mut self, number: u32, side: u8) -> Option<ListOf<u8>>
        ensures message { result ≡ option_and_then (words.first_message side) (map.get self.old number) }
        ensures rest { self.new ≡ words.at_pair (words.without_first side) self.old number }
    {
        pop_at(&mut self.pairs, number, side)
    }
}

fn push_at(
    pairs: &mut NumberMap<DatagramPair>,
    number: u32,
    side: u8,
    message: ListOf<u8>,
) -> Result<(), AllocError>
    ensures ok { OnOk result (pairs.new ≡ words.at_pair (words.with_sent side message) pairs.old number) }
    ensures err { OnErr result (pairs.new ≡ pairs.old) }
{
    let Some(pair) = pairs.get_mut(number) else {
        return Ok(());
    };
    pair.push(side, message)
}

fn pop_at(pairs: &mut NumberMap<DatagramPair>, number: u32, side: u8) -> Option<ListOf<u8>>
    ensures message { result ≡ option_and_then (words.first_message side) (map.get pairs.old number) }
    ensures rest { pairs.new ≡ words.at_pair (words.without_first side) pairs.old number }
{
    let Some(pair) = pairs.get_mut(number) else {
        return None;
    };
    pair.pop(side)
}

impl DatagramPair {
    fn end(&self, side: u8) -> &DatagramEnd
        ensures { result.now ≡ end_of side self.now }
    {
        if side == 0 {
            return &self.first;
        }
        &self.second
    }

    fn push(&mut self, side: u8, message: ListOf<u8>) -> Result<(), AllocError>
        ensures ok { OnOk result (self.new ≡ words.with_sent side message self.old) }
        ensures err { OnErr result (self.new ≡ self.old) }
    {
        if side == 0 {
            return self.first.inbox.push_last(message);
        }
        self.second.inbox.push_last(message)
    }

    fn pop(&mut self, side: u8) -> Option<ListOf<u8>>
        ensures message { result ≡ words.first_message side self.old }
        ensures rest { self.new ≡ words.without_first side self.old }
    {
        if side == 0 {
            return self.first.inbox.pop_first();
        }
        self.second.inbox.pop_first()
    }
}
