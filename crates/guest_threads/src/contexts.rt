ghost use Rattle.std.specs.Prelude.{◌≡◌, ◌-◌, ◌<◌, [], ◌∷◌, ◌++◌, length, take, IfOk};
ghost use Rattle.views.specs.Limits.{CONTEXT_LIMIT as LIMIT};
ghost use Rattle.plain_process.specs.Rows.Handlers.{last_context};

use plain_process::Context;
use plain_process::deliveries::CONTEXT_LIMIT;
use std::alloc::{AllocError, Global};
use std::marker::Model;
use views::list_of::ListOf;

/// The contexts that the handlers of a thread interrupted, oldest first, with room for 64.
#[derive(Drop)]
pub struct Contexts {
    saved: Vec<Context>,
}

impl Model for Contexts {
    ghost use Rattle.std.specs.Prelude.{◌≤◌, List, vec_capacity};
    ghost use Rattle.plain_process.specs.declared.user_part.Context.{Context};

    ghost Value = { List Context };

    ghost view = { λ c. c.saved.items };

    ghost invariant = { λ c. 64 ≤ vec_capacity c.saved };
}

impl Contexts {
    /// No contexts yet.
    pub fn new(alloc: Global) -> Result<Contexts, AllocError>
        ensures { IfOk result (λ contexts. contexts ≡ []) }
    {
        Ok(Contexts {
            saved: Vec::with_capacity(alloc, CONTEXT_LIMIT)?,
        })
    }

    /// These contexts, in their own buffer where that has the room.
    pub fn of_list(list: ListOf<Context>) -> Result<Contexts, AllocError>
        ensures { IfOk result (λ contexts. contexts ≡ list) }
    {
        let mut saved = list.into_vec();
        saved.reserve_exact(CONTEXT_LIMIT.saturating_sub(saved.len()))?;
        Ok(Contexts { saved })
    }

    /// A copy of them, with room for 64 too.
    pub fn copy(&self, alloc: Global) -> Result<Contexts, AllocError>
        ensures { IfOk result (λ copy. copy ≡ self.now) }
    {
        let mut saved = Vec::with_capacity(alloc, CONTEXT_LIMIT)?;
        saved.extend_from_slice(self.saved.as_slice())?;
        Ok(Contexts { saved })
    }

    pub fn len(&self) -> usize
        ensures { result ≡ length self.now }
    {
        self.saved.len()
    }

    /// A copy of them.
    pub fn to_list(&self, alloc: Global) -> Result<ListOf<Context>, AllocError>
        ensures { IfOk result (λ list. list ≡ self.now) }
    {
        Ok(ListOf::from_vec(self.saved.as_slice().to_vec(alloc)?))
    }

    /// Puts a context after the others. Takes no memory.
    pub fn push(&mut self, context: Context)
        requires { length self.old < LIMIT }
        ensures { self.new ≡ self.old ++ context ∷ [] }
    {
        self.saved.push_reserved(context);
    }

    /// Takes out the last one.
    pub fn pop(&mut self) -> Option<Context>
        ensures last { result ≡ last_context self.old }
        ensures rest { self.new ≡ take (length self.old - 1) self.old }
    {
        self.saved.pop()
    }
}
