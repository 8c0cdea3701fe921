//! The row of a fork's child: a copy of its caller's, which then gets the child's number.
ghost use Rattle.std.specs.Prelude.{◌≡◌, ℕ, Some, IfOk};
ghost use Rattle.plain_process.specs.declared.user_part.ThreadPart.{ThreadPart};
ghost use Rattle.plain_process.specs.Threads.{child_thread};
ghost use Rattle.plain_process.specs.Twins.{alone};
ghost use Rattle.guest_threads.specs.Rows.{entry_of, part_of, threads_of, IsRising};

use crate::rows::Row;
use plain_process::threads::{after_call, new_clear_tid, new_regs};
use std::alloc::{AllocError, Global};

/// A copy of a row alone, for a thread of this number, with room of its own for saved contexts.
#[tactic(auto, unfolding(crate::specs::Rows::threads_of, crate::specs::Rows::IsRising))]
pub fn only_row(alloc: Global, t: u32, row: &Row) -> Result<Vec<Row>, AllocError>
    ensures threads { IfOk result (λ rows. threads_of rows.items ≡ alone t (Some (part_of row.now))) }
    ensures rising { IfOk result (λ rows. IsRising rows.items) }
{
    let mut rows = Vec::new(alloc);
    rows.push(copy_of(alloc, t, row)?)?;
    Ok(rows)
}

fn copy_of(alloc: Global, t: u32, row: &Row) -> Result<Row, AllocError>
    ensures { IfOk result (λ copy. entry_of copy ≡ (t, part_of row.now)) }
{
    Ok(Row {
        number: t,
        regs: row.regs,
        mask: row.mask,
        clear_tid: row.clear_tid,
        contexts: row.contexts.copy(alloc)?,
    })
}

impl Row {
    /// The thread goes on as a fork's child with this number, behind the call with these arguments.
    fn settle(&mut self, number: u32, flags: u32, stack: u32, tls: u32, child_tid: u32)
        ensures { entry_of self.new ≡ (number, child_thread (part_of self.old) flags stack tls child_tid) }
    {
        self.number = number;
        self.regs = new_regs(after_call(self.regs, 0), flags, stack, tls);
        self.clear_tid = new_clear_tid(flags, child_tid);
    }
}

/// The one thread that is there goes on as a fork's child with this number.
pub fn settle_only(rows: &mut [Row], number: u32, flags: u32, stack: u32, tls: u32, child_tid: u32)
    requires { IsRising rows.old }
    ensures threads { (t : ℕ) (caller : ThreadPart) → threads_of rows.old ≡ alone t (Some caller)
        → threads_of rows.new ≡ alone number (Some (child_thread caller flags stack tls child_tid)) }
    ensures rising { IsRising rows.new }
{
    if rows.len() == 1 {
        rows[0].settle(number, flags, stack, tls, child_tid);
    }
}
