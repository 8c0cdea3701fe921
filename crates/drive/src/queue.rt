ghost use Rattle.std.specs.Prelude.{◌≡◌, ◌↔◌, ◌<◌, [], ◌∷◌, ◌++◌, length, IsTrue, IfOk, IfSome, None};

use std::alloc::{AllocError, Global};
use std::marker::Model;

/// How many numbers a queue holds at most: there are so many processes, and fewer threads of one.
pub const QUEUE_LIMIT: usize = 128;

/// The numbers of those whose turn is still to come, in order. Its room is taken once, so that a round takes
/// no memory.
#[derive(Drop)]
pub struct Queue {
    numbers: Vec<u32>,
}

impl Model for Queue {
    ghost use Rattle.std.specs.Prelude.{ℕ, ◌≤◌, List, vec_capacity};
    ghost use Rattle.drive.specs.declared.queue.TheConstants.{QUEUE_LIMIT};

    ghost Value = { List ℕ };

    ghost view = { λ q. q.numbers.items };

    ghost invariant = { λ q. QUEUE_LIMIT ≤ vec_capacity q.numbers };
}

impl Queue {
    /// Nobody.
    pub fn new(alloc: Global) -> Result<Queue, AllocError>
        ensures { IfOk result (λ queue. queue ≡ []) }
    {
        Ok(Queue {
            numbers: Vec::with_capacity(alloc, QUEUE_LIMIT)?,
        })
    }

    /// Whether nobody is left.
    pub fn is_empty(&self) -> bool
        ensures { IsTrue result ↔ (self.now ≡ []) }
    {
        self.numbers.is_empty()
    }

    pub fn clear(&mut self)
        ensures { self.new ≡ [] }
    {
        self.numbers.clear();
    }

    /// Puts a number at the end. Takes no memory.
    pub fn push(&mut self, number: u32)
        requires { length self.old < QUEUE_LIMIT }
        ensures { self.new ≡ self.old ++ number ∷ [] }
    {
        self.numbers.push_reserved(number);
    }

    /// Takes the first number.
    pub fn pop(&mut self) -> Option<u32>
        ensures some { IfSome result (λ number. self.old ≡ number ∷ self.new) }
        ensures none { result ≡ None → (self.old ≡ []) × (self.new ≡ []) }
    {
        if self.numbers.is_empty() {
            return None;
        }
        Some(self.numbers.remove(0))
    }
}
