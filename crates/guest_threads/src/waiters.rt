ghost use Rattle.std.specs.Prelude.{◌≡◌, ◌==◌, [], ◌∷◌, ◌++◌, IfOk, OnOk, OnErr};
ghost use Rattle.std.specs.List.{list_any};
ghost use Rattle.plain_process.specs.Threads as words;

use plain_process::Waiter;
use plain_process::threads::{first_waiter, remove_waiter};
use std::alloc::{AllocError, Global};
use std::marker::Model;
use views::list_of::ListOf;

/// Who waits on the words of a process, in waking order.
#[derive(Drop)]
pub struct Waiters {
    waiters: Vec<Waiter>,
}

impl Model for Waiters {
    ghost use Rattle.std.specs.Prelude.{List};
    ghost use Rattle.plain_process.specs.declared.user_part.Waiter.{Waiter};

    ghost Value = { List Waiter };

    ghost view = { λ w. w.waiters.items };
}

impl Waiters {
    /// Nobody waits.
    pub fn new(alloc: Global) -> Waiters
        ensures { result ≡ [] }
    {
        Waiters {
            waiters: Vec::new(alloc),
        }
    }

    /// These wait, in their own buffer.
    pub fn of_list(list: ListOf<Waiter>) -> Waiters
        ensures { result ≡ list }
    {
        Waiters {
            waiters: list.into_vec(),
        }
    }

    /// A copy of them.
    pub fn to_list(&self, alloc: Global) -> Result<ListOf<Waiter>, AllocError>
        ensures { IfOk result (λ list. list ≡ self.now) }
    {
        Ok(ListOf::from_vec(self.waiters.as_slice().to_vec(alloc)?))
    }

    /// Whether the thread waits.
    pub fn contains(&self, t: u32) -> bool
        ensures { result ≡ list_any (λ waiter. waiter.tid == t) self.now }
    {
        self.waiters.iter().any(|waiter| waiter.tid == t)
    }

    /// Who has waited longest on the word at an address.
    pub fn first_on(&self, address: u32) -> Option<Waiter>
        ensures { result ≡ words.first_waiter address self.now }
    {
        first_waiter(self.waiters.as_slice(), address)
    }

    /// One more waits, after the others.
    pub fn push(&mut self, waiter: Waiter) -> Result<(), AllocError>
        ensures ok { OnOk result (self.new ≡ self.old ++ waiter ∷ []) }
        ensures err { OnErr result (self.new ≡ self.old) }
    {
        self.waiters.push(waiter)?;
        Ok(())
    }

    /// The thread waits no more. Takes no memory.
    pub fn remove(&mut self, t: u32)
        ensures { self.new ≡ words.without_waiter t self.old }
    {
        remove_waiter(&mut self.waiters, t);
    }
}
