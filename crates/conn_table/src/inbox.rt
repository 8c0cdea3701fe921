ghost use Rattle.std.specs.Prelude.{◌≡◌, [], ◌∷◌, ◌++◌, length, drop, slice_get, OnOk, OnErr};

use id_maps::views::list_of::ListOf;
use std::alloc::{AllocError, Global};
use std::collections::VecDeque;
use std::marker::Model;

/// The messages that wait at an end of a datagram pair, oldest first.
#[derive(Drop)]
pub struct Inbox {
    messages: VecDeque<ListOf<u8>>,
}

impl Model for Inbox {
    ghost use Rattle.std.specs.Prelude.{List, ℕ};

    ghost Value = { List (List ℕ) };

    ghost view = { λ a. a.messages.items };
}

impl Inbox {
    pub fn new(alloc: Global) -> Inbox
        ensures { result ≡ [] }
    {
        Inbox {
            messages: VecDeque::new(alloc),
        }
    }

    pub fn len(&self) -> usize
        ensures { result ≡ length self.now }
    {
        self.messages.len()
    }

    /// Puts a message behind the others. After a failed allocation the inbox is as before.
    pub(crate) fn push_last(&mut self, message: ListOf<u8>) -> Result<(), AllocError>
        ensures ok { OnOk result (self.new ≡ self.old ++ message ∷ []) }
        ensures err { OnErr result (self.new ≡ self.old) }
    {
        self.messages.push_back(message)?;
        Ok(())
    }

    /// Takes out the oldest message.
    pub(crate) fn pop_first(&mut self) -> Option<ListOf<u8>>
        ensures first { result ≡ slice_get self.old 0 }
        ensures rest { self.new ≡ drop 1 self.old }
    {
        self.messages.pop_front()
    }
}
