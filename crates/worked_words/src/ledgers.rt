//! Ledgers that one thread and two threads add to.
ghost use Rattle.std.specs.Prelude.{◌≡◌, ◌==◌, ℕ, true, is_some, Some, IfOk};
ghost use Rattle.std.specs.FinMap as map;
ghost use Rattle.turn_cell.specs.Turns.{is_held};
ghost use Rattle.turn_cell.specs.Views.{cell_of, held_by};

use crate::asserting::holds;
use std::alloc::{AllocError, Global};
use std::process::Abort;
use std::sync::Wait;
use std::test::Fail;
use std::thread::{Threads, join};
use turn_cell::{Act, Pass, TurnCell, Turned};
use views::list_of::ListOf;
use views::number_map::NumberMap;

/// Who added, in order, and how often each did.
#[derive(Drop)]
struct Ledger {
    entries: ListOf<u32>,
    counts: NumberMap<u32>,
}

impl Turned for Ledger {
    type Entry = u32;

    type Part = u32;

    ghost history = { λ l. l.entries };

    ghost parts = { λ l. l.counts };
}

#[derive(Clone, Copy)]
struct Add {
    number: u32,
}

impl Act<Ledger> for Add {
    type Out = Result<(), AllocError>;

    ghost changes = { λ a n. n == a.number };

    ghost fits = { λ _ _. Unit {0} };

    ghost does = { λ _ before after _. (n x : ℕ) → map.get before.counts n ≡ Some x → is_some (map.get after.counts n) ≡ true };

    fn act(self, state: &mut Ledger) -> Result<(), AllocError> {
        let count = one_more(&state.counts, self.number);
        state.entries.push(self.number)?;
        state.counts.insert(self.number, count)?;
        Ok(())
    }
}

fn one_more(counts: &NumberMap<u32>, number: u32) -> u32 {
    match counts.get(number) {
        Some(count) => count.wrapping_add(1),
        None => 1,
    }
}

/// Adds so many entries by a number that the pass holds. It answers false where memory was wanted.
fn add_many<R: Wait>(
    rt: &R,
    cell: &TurnCell<Ledger>,
    pass: Pass<Ledger>,
    number: u32,
    times: u32,
) -> (Pass<Ledger>, bool)
    requires cell { cell_of pass.seat ≡ cell.now.table.shared.table_id }
    requires holds { is_held (held_by pass.seat) number ≡ true }
    ensures cell { cell_of result.0.seat ≡ cell_of pass.seat }
    ensures holds { is_held (held_by result.0.seat) number ≡ true }
{
    let mut pass = pass;
    let mut all = true;
    for _ in 0..times {
        let (next, answer) = cell.turn(rt, pass, Add { number });
        pass = next;
        all &= answer.is_ok();
    }
    (pass, all)
}

/// A ledger of two numbers, at which nothing was added.
fn empty_ledger(alloc: Global) -> Result<Ledger, AllocError>
    ensures { IfOk result (λ l. (is_held l.counts 7 ≡ true) × (is_held l.counts 9 ≡ true)) }
{
    let mut counts = NumberMap::new(alloc);
    counts.insert(7, 0)?;
    counts.insert(9, 0)?;
    Ok(Ledger {
        entries: ListOf::new(alloc),
        counts,
    })
}

struct TwoPasses {
    cell: TurnCell<Ledger>,
    seven: Pass<Ledger>,
    nine: Pass<Ledger>,
}

/// A cell of that ledger, with a pass for each number.
fn two_passes(alloc: Global) -> Result<TwoPasses, Fail>
    ensures cells { IfOk result (λ two. (cell_of two.seven.seat ≡ two.cell.table.shared.table_id) × (cell_of two.nine.seat ≡ two.cell.table.shared.table_id)) }
    ensures holds { IfOk result (λ two. (is_held (held_by two.seven.seat) 7 ≡ true) × (is_held (held_by two.nine.seat) 9 ≡ true)) }
{
    let ledger = empty_ledger(alloc)?;
    let (cell, pass) = match TurnCell::new(alloc, ledger) {
        Ok(made) => made,
        Err(_) => return Err(Fail::from("no memory")),
    };
    let (seven, nine) = cell.split(&(), pass, 9);
    Ok(TwoPasses { cell, seven, nine })
}

fn entered(rt: &impl Abort, ledger: &Ledger, want: &[u32]) {
    assert!(rt; ledger.entries.as_slice() == want);
}

/// How often each of the two numbers was added.
fn counted(rt: &impl Abort, ledger: &Ledger, sevens: u32, nines: u32) {
    holds(rt, ledger.counts.get(7).copied() == Some(sevens));
    holds(rt, ledger.counts.get(9).copied() == Some(nines));
}

#[test]
fn one_thread_takes_turns_with_two_passes(rt: HostRuntime) -> Result<(), Fail> {
    let TwoPasses { cell, seven, nine } = two_passes(rt.alloc())?;
    let (seven, added) = add_many(&rt, &cell, seven, 7, 2);
    let (nine, also) = add_many(&rt, &cell, nine, 9, 1);
    let (seven, again) = add_many(&rt, &cell, seven, 7, 1);
    let pass = cell.join(&rt, seven, nine);
    let ledger = cell.close(&rt, pass);
    holds(&rt, added && also && again);
    entered(&rt, &ledger, &[7, 7, 9, 7]);
    counted(&rt, &ledger, 3, 1);
    Ok(())
}

/// Two threads, each with a pass of its own. Both add a hundred entries.
fn add_in_threads<R: Threads + Wait + Sync>(
    rt: &R,
    two: TwoPasses,
) -> (TurnCell<Ledger>, Pass<Ledger>, bool)
    requires cells { (cell_of two.seven.seat ≡ two.cell.table.shared.table_id) × (cell_of two.nine.seat ≡ two.cell.table.shared.table_id) }
    requires holds { (is_held (held_by two.seven.seat) 7 ≡ true) × (is_held (held_by two.nine.seat) 9 ≡ true) }
    ensures cell { cell_of result.1.seat ≡ result.0.table.shared.table_id }
{
    let TwoPasses { cell, seven, nine } = two;
    let shared = &cell;
    let ((seven, some), (nine, others)) = join(
        rt,
        move || -> (Pass<Ledger>, bool)
            requires { (cell_of seven.seat ≡ shared.now.table.shared.table_id) × (is_held (held_by seven.seat) 7 ≡ true) }
            ensures { cell_of result.0.seat ≡ shared.entry.now.table.shared.table_id }
        { add_many(rt, shared, seven, 7, 100) },
        move || -> (Pass<Ledger>, bool)
            requires { (cell_of nine.seat ≡ shared.now.table.shared.table_id) × (is_held (held_by nine.seat) 9 ≡ true) }
            ensures { cell_of result.0.seat ≡ shared.entry.now.table.shared.table_id }
        { add_many(rt, shared, nine, 9, 100) },
    );
    let pass = cell.join(rt, seven, nine);
    (cell, pass, some && others)
}

#[test]
fn two_threads_add_to_one_history(rt: HostRuntime) -> Result<(), Fail> {
    let two = two_passes(rt.alloc())?;
    let (cell, pass, all) = add_in_threads(&rt, two);
    let ledger = cell.close(&rt, pass);
    holds(&rt, all);
    holds(&rt, ledger.entries.len() == 200);
    counted(&rt, &ledger, 100, 100);
    Ok(())
}
