ghost use Rattle.std.specs.Prelude.{◌≡◌, ◌==◌, ◌<◌, ◌≤◌, ◌+◌, ◌∷◌, ◌++◌, [], find, slice_get, length, vec_len, vec_capacity, option_map, option_and_then, IsOk, OnOk, OnErr, IfSome};
ghost use Rattle.std.specs.Option.{option_copied};
ghost use Rattle.std.specs.FinMap as map;
ghost use Rattle.views.specs.Limits.{CONTEXT_LIMIT};
ghost use Rattle.plain_process.specs.Local.{with_clear_tid};
ghost use Rattle.plain_process.specs.Rows.Handlers.{last_context, with_mask};
ghost use Rattle.plain_process.specs.Steps.{with_regs};
ghost use Rattle.views.specs.NumberMap.{is_above};
ghost use Rattle.guest_threads.specs.Rows.{part_of, threads_of, place, IsRising, IsIndex};
ghost use Rattle.guest_threads.specs.Threads.{changed, with_contexts, earlier};

use crate::contexts::Contexts;
use plain_process::{Context, Regs};
use std::alloc::AllocError;

/// A thread of a process with its number.
#[derive(Drop)]
pub struct Row {
    pub number: u32,
    pub regs: Regs,
    pub mask: u32,
    pub clear_tid: u32,
    pub contexts: Contexts,
}

fn find_row(rows: &[Row], t: u32) -> Option<&Row>
    ensures { option_copied result ≡ find (λ row. row.number == t) rows.now }
{
    rows.iter().find(|row| row.number == t)
}

/// The row of a thread, if it is there.
pub fn row_of(rows: &[Row], t: u32) -> Option<&Row>
    ensures { option_map part_of (option_copied result) ≡ map.get (threads_of rows.now) t }
{
    find_row(rows, t)
}

/// Where the row of a thread stands, or belongs: after those with lower numbers.
fn place_of(rows: &[Row], t: u32) -> usize
    ensures place { result ≡ place t rows.now }
    ensures within { result ≤ length rows.now }
{
    for (place, row) in rows.iter().enumerate() {
        if row.number >= t {
            return place;
        }
    }
    rows.len()
}

/// How many threads there are.
#[tactic(auto, using(crate::proofs::RowLaws::counts))]
pub fn count(rows: &[Row]) -> usize
    requires { IsRising rows.now }
    ensures { result ≡ map.len (threads_of rows.now) }
{
    rows.len()
}

/// The least number above this one, or the least of all where none is given.
pub fn next_above(rows: &[Row], above: Option<u32>) -> Option<u32>
    requires { IsRising rows.now }
    ensures { result ≡ find (is_above above) (map.keys (threads_of rows.now)) }
{
    let row = next_row(rows, above)?;
    Some(row.number)
}

fn next_row(rows: &[Row], above: Option<u32>) -> Option<&Row>
    ensures { option_copied result ≡ find (λ row. is_above above row.number) rows.now }
{
    match above {
        None => rows.first(),
        Some(above) => rows.iter().find(|row| above < row.number),
    }
}

fn row_at(rows: &[Row], place: usize) -> Option<&Row>
    ensures { option_copied result ≡ slice_get rows.now place }
{
    rows.get(place)
}

/// Where the row of a thread stands, if it is there.
fn index_of(rows: &[Row], t: u32) -> Option<usize>
    requires { IsRising rows.now }
    ensures index { IsIndex t rows.now result }
    ensures within { IfSome result (λ index. index < length rows.now) }
{
    let place = place_of(rows, t);
    let row = row_at(rows, place)?;
    if row.number == t { Some(place) } else { None }
}

/// Puts the row in its place, or in that of the one of its number.
pub fn put_row(rows: &mut Vec<Row>, row: Row) -> Result<(), AllocError>
    requires { IsRising rows.old.items }
    ensures ok { OnOk result (threads_of rows.new.items ≡ map.insert (threads_of rows.old.items) row.number (part_of row)) }
    ensures rising { IsRising rows.new.items }
    ensures err { OnErr result (rows.new.items ≡ rows.old.items) }
    ensures capacity { vec_capacity rows.old ≤ vec_capacity rows.new }
    ensures len { vec_len rows.new ≤ vec_len rows.old + 1 }
    ensures succeeds { vec_len rows.old < vec_capacity rows.old → IsOk result }
{
    match index_of(rows, row.number) {
        Some(index) => {
            rows[index] = row;
            Ok(())
        }
        None => {
            let place = place_of(rows, row.number);
            rows.insert(place, row)?;
            Ok(())
        }
    }
}

/// The row of a thread is gone. Takes no memory.
pub fn remove_row(rows: &mut Vec<Row>, t: u32)
    requires { IsRising rows.old.items }
    ensures threads { threads_of rows.new.items ≡ map.remove (threads_of rows.old.items) t }
    ensures rising { IsRising rows.new.items }
    ensures len { vec_len rows.new ≤ vec_len rows.old }
    ensures capacity { vec_capacity rows.new ≡ vec_capacity rows.old }
{
    rows.retain(|row| row.number != t);
}

pub fn set_regs(rows: &mut [Row], t: u32, regs: Regs)
    requires { IsRising rows.old }
    ensures threads { threads_of rows.new ≡ changed (threads_of rows.old) t (λ thread. with_regs thread regs) }
    ensures rising { IsRising rows.new }
{
    if let Some(index) = index_of(rows, t) {
        rows[index].regs = regs;
    }
}

pub fn set_mask(rows: &mut [Row], t: u32, mask: u32)
    requires { IsRising rows.old }
    ensures threads { threads_of rows.new ≡ changed (threads_of rows.old) t (λ thread. with_mask thread mask) }
    ensures rising { IsRising rows.new }
{
    if let Some(index) = index_of(rows, t) {
        rows[index].mask = mask;
    }
}

pub fn set_clear_tid(rows: &mut [Row], t: u32, place: u32)
    requires { IsRising rows.old }
    ensures threads { threads_of rows.new ≡ changed (threads_of rows.old) t (λ thread. with_clear_tid thread place) }
    ensures rising { IsRising rows.new }
{
    if let Some(index) = index_of(rows, t) {
        rows[index].clear_tid = place;
    }
}

/// Saves a context of a thread, if it is there. Takes no memory.
pub fn push_context(rows: &mut [Row], t: u32, context: Context)
    requires rising { IsRising rows.old }
    requires few { IfSome (map.get (threads_of rows.old) t) (λ thread. length thread.contexts < CONTEXT_LIMIT) }
    ensures threads { threads_of rows.new ≡ changed (threads_of rows.old) t (λ thread. with_contexts thread (thread.contexts ++ context ∷ [])) }
    ensures rising { IsRising rows.new }
{
    if let Some(index) = index_of(rows, t) {
        rows[index].contexts.push(context);
    }
}

/// Takes out the last context that the thread saved.
pub fn pop_context(rows: &mut [Row], t: u32) -> Option<Context>
    requires { IsRising rows.old }
    ensures last { result ≡ option_and_then (λ thread. last_context thread.contexts) (map.get (threads_of rows.old) t) }
    ensures threads { threads_of rows.new ≡ changed (threads_of rows.old) t (λ thread. with_contexts thread (earlier thread.contexts)) }
    ensures rising { IsRising rows.new }
{
    match index_of(rows, t) {
        Some(index) => rows[index].contexts.pop(),
        None => None,
    }
}
