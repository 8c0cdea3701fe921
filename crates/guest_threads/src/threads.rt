ghost use Rattle.std.specs.Prelude.{◌≡◌, ◌-◌, ◌<◌, ◌≤◌, ◌↔◌, ◌∷◌, ◌++◌, ℕ, [], Some, None, length, map as each, max, find, is_some, option_map, option_and_then, IsTrue, IfSome, IfOk, OnOk, OnErr};
ghost use Rattle.std.specs.Option.{option_copied};
ghost use Rattle.std.specs.FinMap as map;
ghost use Rattle.views.specs.NumberMap.{is_above};
ghost use Rattle.image_process.specs.UserParts.{thread_entry};
ghost use Rattle.views.specs.Limits.{CONTEXT_LIMIT};
ghost use Rattle.plain_process.specs.Local.{with_clear_tid};
ghost use Rattle.plain_process.specs.Rows.Handlers.{last_context, with_mask};
ghost use Rattle.plain_process.specs.Steps.{with_regs};
ghost use Rattle.plain_process.specs.declared.user_part.ThreadPart.{ThreadPart};
ghost use Rattle.plain_process.specs.Threads.{child_thread};
ghost use Rattle.plain_process.specs.Twins.{alone};
ghost use Rattle.guest_threads.specs.Rows.{part_of};
ghost use Rattle.guest_threads.specs.Threads.{at_thread, with_contexts, earlier, fresh};

use crate::contexts::Contexts;
use crate::images::{rows_of, thread_images};
use crate::rows::{
    Row, count, next_above, pop_context, push_context, put_row, remove_row, row_of, set_clear_tid,
    set_mask, set_regs,
};
use crate::twins::{only_row, settle_only};
use image_process::ThreadImage;
use plain_process::{Context, Regs};
use std::alloc::{AllocError, Global};
use std::marker::Model;
use views::list_of::ListOf;

/// The threads of a process by their numbers, each with room for 64 saved contexts, and the room for one more
/// or for none.
#[derive(Drop)]
pub struct Threads {
    rows: Vec<Row>,
    spare: Option<Contexts>,
}

impl Model for Threads {
    ghost use Rattle.std.specs.Prelude.{◌≡◌, ◌+◌, ◌≤◌, [], vec_len, vec_capacity, IfSome};
    ghost use Rattle.guest_threads.specs.Rows.{threads_of, IsRising};
    ghost use Rattle.guest_threads.specs.Threads.{ThreadTable, table_code, count_of};

    ghost Value = { ThreadTable };

    ghost coded = { table_code };

    ghost view = { λ t. record { threads = threads_of t.rows.items; spare = count_of t.spare } };

    // The numbers rise. For the spare one there is a row, and it is empty.
    ghost invariant = { λ t. IsRising t.rows.items
        × (vec_len t.rows + count_of t.spare ≤ vec_capacity t.rows)
        × IfSome t.spare (λ contexts. contexts ≡ []) };
}

impl Threads {
    /// No threads and no room, which holds no memory yet.
    #[tactic(auto, unfolding(crate::specs::Rows::threads_of, crate::specs::Rows::IsRising))]
    pub fn new(alloc: Global) -> Threads
        ensures { result ≡ record { threads = map.empty; spare = 0 } }
    {
        Threads {
            rows: Vec::new(alloc),
            spare: None,
        }
    }

    /// The threads of an image, in room of their own. Of two threads of one number the earlier one counts.
    pub fn of_images(alloc: Global, images: ListOf<ThreadImage>) -> Result<Threads, AllocError>
        ensures { IfOk result (λ threads. threads ≡ record { threads = map.from_entries (each thread_entry images); spare = 0 }) }
    {
        Ok(Threads {
            rows: rows_of(alloc, images)?,
            spare: None,
        })
    }

    /// Copies of the threads, in rising order of their numbers.
    pub fn images(&self, alloc: Global) -> Result<ListOf<ThreadImage>, AllocError>
        ensures { IfOk result (λ images. each thread_entry images ≡ map.entries self.now.threads) }
    {
        thread_images(alloc, self.rows.as_slice())
    }

    fn row(&self, t: u32) -> Option<&Row>
        ensures { option_map part_of (option_copied result) ≡ map.get self.now.threads t }
    {
        row_of(self.rows.as_slice(), t)
    }

    /// Whether there is a thread of this number.
    pub fn contains(&self, t: u32) -> bool
        ensures { result ≡ is_some (map.get self.now.threads t) }
    {
        self.row(t).is_some()
    }

    /// How many threads there are.
    pub fn len(&self) -> usize
        ensures { result ≡ map.len self.now.threads }
    {
        count(self.rows.as_slice())
    }

    /// Whether there is no thread.
    pub fn is_empty(&self) -> bool
        ensures { IsTrue result ↔ (map.len self.now.threads ≡ 0) }
    {
        self.len() == 0
    }

    /// The least number above this one, or the least of all where none is given.
    pub fn next_above(&self, above: Option<u32>) -> Option<u32>
        ensures { result ≡ find (is_above above) (map.keys self.now.threads) }
    {
        next_above(self.rows.as_slice(), above)
    }

    /// The registers of a thread, if it is there.
    pub fn regs(&self, t: u32) -> Option<Regs>
        ensures { result ≡ option_map (λ thread. thread.regs) (map.get self.now.threads t) }
    {
        let row = self.row(t)?;
        Some(row.regs)
    }

    /// The signal mask of a thread, if it is there.
    pub fn mask(&self, t: u32) -> Option<u32>
        ensures { result ≡ option_map (λ thread. thread.mask) (map.get self.now.threads t) }
    {
        let row = self.row(t)?;
        Some(row.mask)
    }

    /// The address of the word that a thread's end clears, 0 where it clears none, if the thread is there.
    pub fn clear_tid(&self, t: u32) -> Option<u32>
        ensures { result ≡ option_map (λ thread. thread.clear_tid) (map.get self.now.threads t) }
    {
        let row = self.row(t)?;
        Some(row.clear_tid)
    }

    /// How many contexts a thread has saved, if it is there.
    pub fn context_count(&self, t: u32) -> Option<usize>
        ensures { result ≡ option_map (λ thread. length thread.contexts) (map.get self.now.threads t) }
    {
        let row = self.row(t)?;
        Some(row.contexts.len())
    }

    /// Sets the registers of a thread, if it is there. Like the other changes it takes no memory.
    pub fn set_regs(&mut self, t: u32, regs: Regs)
        ensures { self.new ≡ at_thread self.old t (λ thread. with_regs thread regs) }
    {
        set_regs(self.rows.as_mut_slice(), t, regs);
    }

    /// Sets the signal mask of a thread, if it is there.
    pub fn set_mask(&mut self, t: u32, mask: u32)
        ensures { self.new ≡ at_thread self.old t (λ thread. with_mask thread mask) }
    {
        set_mask(self.rows.as_mut_slice(), t, mask);
    }

    /// Sets the address of the word that a thread's end clears, if the thread is there.
    pub fn set_clear_tid(&mut self, t: u32, place: u32)
        ensures { self.new ≡ at_thread self.old t (λ thread. with_clear_tid thread place) }
    {
        set_clear_tid(self.rows.as_mut_slice(), t, place);
    }

    /// Saves a context of a thread after its earlier ones, if it is there.
    pub fn push_context(&mut self, t: u32, context: Context)
        requires { IfSome (map.get self.old.threads t) (λ thread. length thread.contexts < CONTEXT_LIMIT) }
        ensures { self.new ≡ at_thread self.old t (λ thread. with_contexts thread (thread.contexts ++ context ∷ [])) }
    {
        push_context(self.rows.as_mut_slice(), t, context);
    }

    /// Takes out the last context that a thread saved, if there is one.
    pub fn pop_context(&mut self, t: u32) -> Option<Context>
        ensures last { result ≡ option_and_then (λ thread. last_context thread.contexts) (map.get self.old.threads t) }
        ensures rest { self.new ≡ at_thread self.old t (λ thread. with_contexts thread (earlier thread.contexts)) }
    {
        pop_context(self.rows.as_mut_slice(), t)
    }

    /// Makes room for one more thread, if there is none.
    pub fn reserve(&mut self, alloc: Global) -> Result<(), AllocError>
        ensures ok { OnOk result (self.new ≡ record self.old { spare = max 1 self.old.spare }) }
        ensures err { OnErr result (self.new ≡ self.old) }
    {
        if self.spare.is_some() {
            return Ok(());
        }
        let contexts = Contexts::new(alloc)?;
        self.rows.reserve(1)?;
        self.spare = Some(contexts);
        Ok(())
    }

    /// Adds a thread into the room that is there.
    pub fn insert(&mut self, t: u32, regs: Regs, mask: u32, clear_tid: u32)
        requires free { map.get self.old.threads t ≡ None }
        requires spare { 1 ≤ self.old.spare }
        ensures { self.new ≡ record { threads = map.insert self.old.threads t (fresh regs mask clear_tid); spare = self.old.spare - 1 } }
    {
        if let Some(contexts) = self.spare.take() {
            let row = Row {
                number: t,
                regs,
                mask,
                clear_tid,
                contexts,
            };
            let _ = put_row(&mut self.rows, row);
        }
    }

    /// A copy of one thread alone, with room of its own, if it is there.
    pub fn twin(&self, alloc: Global, t: u32) -> Result<Threads, AllocError>
        ensures { IfOk result (λ twin. twin ≡ record { threads = alone t (map.get self.now.threads t); spare = 0 }) }
    {
        match self.row(t) {
            None => Ok(Threads::new(alloc)),
            Some(row) => Ok(Threads {
                rows: only_row(alloc, t, row)?,
                spare: None,
            }),
        }
    }

    /// The one thread that is there goes on as a fork's child with this number, behind the call with these
    /// arguments.
    pub fn settle(&mut self, number: u32, flags: u32, stack: u32, tls: u32, child_tid: u32)
        ensures threads { (t : ℕ) (caller : ThreadPart) → self.old.threads ≡ alone t (Some caller)
            → self.new.threads ≡ alone number (Some (child_thread caller flags stack tls child_tid)) }
        ensures spare { self.new.spare ≡ self.old.spare }
    {
        settle_only(
            self.rows.as_mut_slice(),
            number,
            flags,
            stack,
            tls,
            child_tid,
        );
    }

    /// The thread is gone. The room is as before.
    pub fn remove(&mut self, t: u32)
        ensures { self.new ≡ record self.old { threads = map.remove self.old.threads t } }
    {
        remove_row(&mut self.rows, t);
    }
}
