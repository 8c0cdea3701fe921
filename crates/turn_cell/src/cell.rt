ghost use Rattle.std.specs.Prelude.{◌≡◌, ℕ, true, [], ◌∷◌, List, Some, None, IfOk, IfErr};
ghost use Rattle.std.specs.FinMap as map;
ghost use mathlib.Core.List.{IsPrefix};
ghost use Rattle.turn_cell.specs.Turns.{is_held, HoldsAll, IsTurn, Knows, longer, merged, only, own};
ghost use Rattle.turn_cell.specs.Views.{cell_of, held_by, seen_by, newcomer, with_turn, HasIt};
ghost use Rattle.turn_cell.specs.declared.view.Turn.TheVariants.{Holds};

use crate::law::Law;
use crate::pass::Pass;
use crate::steps::{Both, Compare, Cut, Numbered, Open, Release, Shut, Take};
use crate::turned::{Act, Turned};
use crate::view::View;
use atomic_table::{Seat, Table};
use crossbeam_utils::Backoff;
use std::alloc::{AllocError, Global};
use std::marker::Brand;
use std::sync::Wait;

const FREE: u64 = 0;

const TAKEN: u64 = 1;

/// A value that changes in turns.
#[derive(Drop)]
pub struct TurnCell<S: Turned> {
    table: Table<Option<S>, View<S::Entry, S::Part>, (), Law<S>, Global>,
    ghost counts: { (table.shared.table_id.words ≡ 1) × (table.shared.table_id.slots ≡ 1) },
}

impl<S: Turned> TurnCell<S> {
    /// A cell with this value, and the pass that has seen all of its history and holds all of its numbers.
    /// Where there is no memory for it the value comes back.
    pub fn new(alloc: Global, state: S) -> Result<(TurnCell<S>, Pass<S>), (S, AllocError)>
        ensures cell { IfOk result (λ made. cell_of made.1.seat ≡ made.0.table.shared.table_id) }
        ensures seen { IfOk result (λ made. seen_by made.1.seat ≡ S.history state) }
        ensures held { IfOk result (λ made. held_by made.1.seat ≡ S.parts state) }
        ensures back { IfErr result (λ refused. refused.0 ≡ state) }
    {
        let (table, seat) = match Table::vacant(alloc, &[TAKEN], 1, &()) {
            Ok(made) => made,
            Err(_) => return Err((state, AllocError)),
        };
        let (cell, seat) = TurnCell::open(table, seat);
        let pass = cell.put_back(seat, state);
        Ok((cell, pass))
    }

    /// A cell whose first pass has its turn, and which has no value yet.
    fn open(
        table: Table<Option<S>, View<S::Entry, S::Part>, (), Law<S>, Global>,
        mut seat: Seat<Option<S>, View<S::Entry, S::Part>>,
    ) -> (TurnCell<S>, Seat<Option<S>, View<S::Entry, S::Part>>)
        requires counts { (table.shared.table_id.words ≡ 1) × (table.shared.table_id.slots ≡ 1) }
        requires cell { cell_of seat ≡ table.shared.table_id }
        requires first { seat.me ≡ (newcomer, []) }
        ensures cell { cell_of result.1 ≡ result.0.table.shared.table_id }
        ensures turn { result.1.me ≡ (with_turn newcomer (Holds [] map.empty), (0, None) ∷ []) }
    {
        table.shared.load::<Open>(&mut seat, 0);
        (TurnCell { table }, seat)
    }

    /// Does one act on the value, once it is this pass's turn. The pass that comes back has seen the history
    /// with the act. It holds the numbers that it held, but for those under which nothing stands any more,
    /// and each at which something stands that had nothing before.
    pub fn turn<A: Act<S>, R: Wait>(&self, rt: &R, pass: Pass<S>, act: A) -> (Pass<S>, A::Out)
        requires cell { cell_of pass.seat ≡ self.now.table.shared.table_id }
        requires holds { HoldsAll (held_by pass.seat) (A.changes act) }
        requires fits { (state : S) → Knows (seen_by pass.seat) (held_by pass.seat) (S.history state) (S.parts state) → A.fits act state }
        ensures cell { cell_of result.0.seat ≡ cell_of pass.seat }
        ensures turn { IsTurn S.history S.parts (A.changes act) (A.does act) (seen_by pass.seat) (held_by pass.seat) (seen_by result.0.seat) (held_by result.0.seat) result.1 }
    {
        let (seat, mut state) = self.take(rt, pass);
        let answer = act.act(&mut state);
        (self.put_back(seat, state), answer)
    }

    /// Cuts a number off. The second pass holds it alone, and both have seen what the one had.
    pub fn split<R>(&self, rt: &R, pass: Pass<S>, number: u32) -> (Pass<S>, Pass<S>)
        requires cell { cell_of pass.seat ≡ self.now.table.shared.table_id }
        requires holds { is_held (held_by pass.seat) number ≡ true }
        ensures cell { (cell_of result.0.seat ≡ cell_of pass.seat) × (cell_of result.1.seat ≡ cell_of pass.seat) }
        ensures seen { (seen_by result.0.seat ≡ seen_by pass.seat) × (seen_by result.1.seat ≡ seen_by pass.seat) }
        ensures kept { held_by result.0.seat ≡ map.remove (held_by pass.seat) number }
        ensures given { held_by result.1.seat ≡ only number (held_by pass.seat) }
    {
        let _ = rt;
        self.cut::<Brand>(pass, number)
    }

    fn cut<N: Numbered>(&self, pass: Pass<S>, number: u32) -> (Pass<S>, Pass<S>)
        requires cell { cell_of pass.seat ≡ self.now.table.shared.table_id }
        requires number { number ≡ N.number }
        ensures cell { (cell_of result.0.seat ≡ cell_of pass.seat) × (cell_of result.1.seat ≡ cell_of pass.seat) }
        ensures seen { (seen_by result.0.seat ≡ seen_by pass.seat) × (seen_by result.1.seat ≡ seen_by pass.seat) }
        ensures kept { held_by result.0.seat ≡ map.remove (held_by pass.seat) number }
        ensures given { held_by result.1.seat ≡ only number (held_by pass.seat) }
    {
        let Pass { mut seat } = pass;
        let given = self.table.shared.split_seat::<Cut<N>>(&mut seat);
        (Pass { seat }, Pass { seat: given })
    }

    /// Makes two passes one, which holds the numbers of both. Both had seen beginnings of what it has seen.
    pub fn join<R>(&self, rt: &R, keep: Pass<S>, gone: Pass<S>) -> Pass<S>
        requires keep { cell_of keep.seat ≡ self.now.table.shared.table_id }
        requires gone { cell_of gone.seat ≡ self.now.table.shared.table_id }
        ensures cell { cell_of result.seat ≡ cell_of keep.seat }
        ensures seen { seen_by result.seat ≡ longer (seen_by keep.seat) (seen_by gone.seat) }
        ensures begins { IsPrefix (seen_by keep.seat) (seen_by result.seat) × IsPrefix (seen_by gone.seat) (seen_by result.seat) }
        ensures held { held_by result.seat ≡ merged (held_by keep.seat) (held_by gone.seat) }
    {
        let _ = rt;
        let Pass { mut seat } = keep;
        let Pass { seat: other } = gone;
        self.table.shared.join_seat::<Both>(&mut seat, other);
        self.table.shared.load::<Compare>(&mut seat, 0);
        Pass { seat }
    }

    /// Gives the value out, once nobody has a turn any more. Its history begins with what the pass had seen,
    /// and what the pass holds stands there.
    pub fn close<R: Wait>(self, rt: &R, pass: Pass<S>) -> S
        requires cell { cell_of pass.seat ≡ self.table.shared.table_id }
        ensures { Knows (seen_by pass.seat) (held_by pass.seat) (S.history result) (S.parts result) }
    {
        let (mut seat, state) = self.take(rt, pass);
        self.table.shared.load::<Shut>(&mut seat, 0);
        let TurnCell { table } = self;
        let mut closed = table.close_with(seat);
        let nothing = closed.take(0);
        let None = nothing else { unreachable!() };
        closed.free();
        state
    }

    /// Takes the value out, once nobody has a turn.
    fn take<R: Wait>(&self, rt: &R, pass: Pass<S>) -> (Seat<Option<S>, View<S::Entry, S::Part>>, S)
        requires { cell_of pass.seat ≡ self.now.table.shared.table_id }
        ensures cell { cell_of result.0 ≡ cell_of pass.seat }
        ensures knew { Knows (seen_by pass.seat) (held_by pass.seat) (S.history result.1) (S.parts result.1) }
        ensures took { result.0.me ≡ (with_turn pass.seat.me.0 (Holds (S.history result.1) (S.parts result.1)), (0, None) ∷ []) }
    {
        let mut seat = self.wait(rt, pass);
        let taken = self.table.shared.exchange(&mut seat, 0, None);
        let Some(state) = taken else { unreachable!() };
        (seat, state)
    }

    /// Waits until nobody has a turn, and has it then.
    fn wait<R: Wait>(&self, rt: &R, pass: Pass<S>) -> Seat<Option<S>, View<S::Entry, S::Part>>
        requires { cell_of pass.seat ≡ self.now.table.shared.table_id }
        ensures cell { cell_of result ≡ cell_of pass.seat }
        ensures took { (x : S) × Knows (seen_by pass.seat) (held_by pass.seat) (S.history x) (S.parts x)
            × (result.me ≡ (with_turn pass.seat.me.0 (Holds (S.history x) (S.parts x)), (0, Some x) ∷ [])) }
    {
        let Pass { mut seat } = pass;
        let shared = &self.table.shared;
        let backoff = Backoff::new();
        for _ in rt.forever() {
            let found = shared.compare_exchange::<Take>(&mut seat, 0, FREE, TAKEN);
            if found == FREE {
                return seat;
            }
            backoff.snooze();
        }
        unreachable!()
    }

    /// Puts the value back, and ends the turn.
    fn put_back(&self, mut seat: Seat<Option<S>, View<S::Entry, S::Part>>, state: S) -> Pass<S>
        requires cell { cell_of seat ≡ self.now.table.shared.table_id }
        requires turn { HasIt S.history S.parts seat state }
        ensures cell { cell_of result.seat ≡ cell_of seat }
        ensures seen { seen_by result.seat ≡ S.history state }
        ensures held { (log : List S.Entry) (all : _) → seat.me.0.turn ≡ Holds log all → held_by result.seat ≡ own (held_by seat) all (S.parts state) }
    {
        let nothing = self.table.shared.exchange(&mut seat, 0, Some(state));
        let None = nothing else { unreachable!() };
        self.table.shared.store::<Release>(&mut seat, 0, FREE);
        Pass { seat }
    }
}
