ghost use Rattle.std.specs.Prelude.{◌≡◌, ◌<◌, ◌≤◌, ℕ, List, [], ◌∷◌, false, None, Some, IsErrOf, IfOk, IfSome, OnOk, option_map, map as each};
ghost use Rattle.std.specs.FinMap as map;
ghost use Rattle.views.specs.Faults.{IsFaultOf};
ghost use Rattle.plain_tables.specs.Tables.{pid};
ghost use Rattle.sys_abi.specs.declared.record.Record.{Record};
ghost use Rattle.plain_process.specs.Steps.{UserStep};
ghost use Rattle.plain_machine.specs.Records.{stands};
ghost use Rattle.checkpointer.specs.OfGuestProc.Guests.{ran_at};
ghost use Rattle.checkpointer.specs.HandedOn.{plain_of, user_at, IsDid, IsReady, IsTold};
ghost use Rattle.checkpointer.specs.HandedOn.{StandsAt};
ghost use Rattle.edge_io.specs.Sunk.{sunk};
ghost use Rattle.trace_log.specs.Turns.{Place, Upcoming, threads_in, turn_of, first_thread, first_turn, new_round, next_turn, same_turn, after_turn, due_at};
ghost use Rattle.drive.specs.Scheduling.{place_of, place_in, chosen, CanTake, CanTurn, IsCome, IsPast, IsToldOf, Notes, Spoils};

use crate::queue::Queue;
use checkpointer::{Computation, Did, Next, Ran, Stop};
use edge_io::Sink;
use std::alloc::{AllocError, Global};
use sys_abi::{Dir, Tid, VPid};
use trace_log::Trace;

/// A thread's turn in a round: what comes next in it, the signal that is delivered first or where the thread
/// stands, and whether the thread has run its quantum.
#[derive(Clone, Copy)]
pub struct Turn {
    pub process: VPid,
    pub thread: Tid,
    pub next: Next,
    pub has_run: bool,
}

/// How far a round has come.
#[derive(Clone, Copy)]
pub enum Come {
    /// It begins.
    NewRound,
    /// All bytes of a direction have arrived.
    Arrived,
    /// A record of this turn was made.
    Worked(Turn, Did),
}

/// What is due next.
#[derive(Clone, Copy)]
pub enum Chosen {
    /// All bytes of the direction arrive that are missing.
    Arrival(Dir),
    /// A thread has its turn.
    Turn(Turn),
}

/// What a record was.
#[derive(Clone, Copy)]
pub enum Made {
    /// An arrival.
    Arrival,
    /// A record of work.
    Work,
}

/// The rounds, as far as they have come: the threads of the process whose turn it is and the processes of the
/// round whose turn is still to come.
#[derive(Drop)]
pub struct Rounds {
    pub come: Come,
    pub threads: Queue,
    pub processes: Queue,
}

impl Rounds {
    /// Before the first round.
    pub fn new(alloc: Global) -> Result<Rounds, AllocError>
        ensures come { IfOk result (λ rounds. (g : _) → IsCome rounds g Upcoming.NewRound) }
        ensures told { IfOk result (λ rounds. (users : _) → IsToldOf rounds.come users) }
    {
        Ok(Rounds {
            come: Come::NewRound,
            threads: Queue::new(alloc)?,
            processes: Queue::new(alloc)?,
        })
    }

    /// Chooses what is due next, None where nothing is: nobody lives, or nobody can go on and no byte is
    /// missing. Takes no memory. Where a thread stands after its quantum it is told, and not looked at again.
    pub fn choose(&mut self, computation: &Computation) -> Option<Chosen>
        requires ready { IsReady computation.now }
        requires told { IsToldOf self.old.come (plain_of computation.now).users }
        ensures due { (upcoming : Upcoming) → IsCome self.old (plain_of computation.now) upcoming
            → chosen self.new (plain_of computation.now) result ≡ due_at (plain_of computation.now) upcoming }
        ensures can { IfSome result (CanTake (plain_of computation.now)) }
    {
        match self.come {
            Come::NewRound => self.round(computation),
            Come::Arrived => self.round(computation),
            Come::Worked(turn, did) => self.after(computation, turn, did),
        }
    }

    /// Makes the record that was chosen.
    pub fn take<O: Sink>(
        &mut self,
        alloc: Global,
        choice: Chosen,
        computation: &mut Computation,
        out: &mut O,
        trace: &mut Trace,
    ) -> Result<Made, Stop>
        requires ready { IsReady computation.old }
        requires can { CanTake (plain_of computation.old) choice }
        requires room { 0 < trace.old.room }
        ensures ok { IfOk result (λ made. (notes : Notes (plain_of computation.old) (plain_of computation.new)
            (chosen self.old (plain_of computation.old) (Some choice)) made trace.old trace.new
            (sunk (O.seen out.old).taken (O.seen out.new).taken))
            × IsPast self.new (plain_of computation.new)
            (chosen self.old (plain_of computation.old) (Some choice)) notes.noted) }
        ensures ready { OnOk result (IsReady computation.new) }
        ensures told { OnOk result (IsToldOf self.new.come (plain_of computation.new).users) }
        ensures failed { IsErrOf result Stop.Sink → Spoils (plain_of computation.old) (plain_of computation.new)
            (chosen self.old (plain_of computation.old) (Some choice)) trace.old trace.new
            (sunk (O.seen out.old).taken (O.seen out.new).taken) }
        ensures memory { IsErrOf result Stop.Memory →
            (trace.new ≡ trace.old) × ((O.seen out.new).taken ≡ (O.seen out.old).taken) }
        ensures same { IsErrOf result Stop.Memory → plain_of computation.new ≡ plain_of computation.old }
        ensures cause { IsFaultOf result Stop.Sink (O.seen out.old).faults (O.seen out.new).faults }
        ensures later { (O.seen out.old).faults ≤ (O.seen out.new).faults }
    {
        match choice {
            Chosen::Arrival(dir) => {
                computation.arrive(dir, trace);
                self.come = Come::Arrived;
                Ok(Made::Arrival)
            }
            Chosen::Turn(turn) => {
                let next = turn.next;
                match computation.work(alloc, turn.process, turn.thread, next, out, trace) {
                    Ok(did) => {
                        self.come = Come::Worked(turn, did);
                        Ok(Made::Work)
                    }
                    Err(stop) => Err(stop),
                }
            }
        }
    }

    /// What is due after a record of the turn.
    fn after(&mut self, computation: &Computation, turn: Turn, did: Did) -> Option<Chosen>
        requires ready { IsReady computation.now }
        requires told { IsTold (plain_of computation.now).users turn.process turn.thread did }
        ensures due { (r : Record) → IsDid did r → chosen self.new (plain_of computation.now) result
            ≡ after_turn (plain_of computation.now) (place_in self.old turn) r }
        ensures can { IfSome result (CanTake (plain_of computation.now)) }
    {
        match did {
            Did::Served => self.next_turn(computation, turn.process),
            Did::Ran(ran) => self.after_quantum(computation, turn, ran),
            Did::Delivered => match turn.next {
                Next::Deliver(_) => self.after_signal(computation, turn),
                Next::GoOn(_) => self.next_turn(computation, turn.process),
            },
        }
    }

    /// What is due after a quantum that left the thread there: the rest of its turn, where it stands at a
    /// call or a trap and can go on, or else what follows the turn.
    fn after_quantum(&mut self, computation: &Computation, turn: Turn, ran: Ran) -> Option<Chosen>
        requires ready { IsReady computation.now }
        requires stands { StandsAt (plain_of computation.now).users turn.process turn.thread.0 ran }
        ensures due { (r : Record) → IsDid (Did.Ran ran) r → chosen self.new (plain_of computation.now) result
            ≡ after_turn (plain_of computation.now) (place_in self.old turn) r }
        ensures can { IfSome result (CanTake (plain_of computation.now)) }
    {
        if !has_stopped(&ran) {
            return self.next_turn(computation, turn.process);
        }
        if !computation.goes_on_at(turn.process, turn.thread, &ran) {
            return self.next_turn(computation, turn.process);
        }
        Some(Chosen::Turn(Turn {
            next: Next::GoOn(ran),
            has_run: true,
            ..turn
        }))
    }

    /// The rest of a turn that began with a signal, where the thread can go on, or else what follows it.
    fn after_signal(&mut self, computation: &Computation, turn: Turn) -> Option<Chosen>
        requires { IsReady computation.now }
        ensures due { chosen self.new (plain_of computation.now) result
            ≡ same_turn (plain_of computation.now) (place_in self.old turn) false }
        ensures can { IfSome result (CanTake (plain_of computation.now)) }
    {
        let Some(ran) = computation.ready_at(turn.process, turn.thread) else {
            return self.next_turn(computation, turn.process);
        };
        Some(Chosen::Turn(Turn {
            next: Next::GoOn(ran),
            has_run: false,
            ..turn
        }))
    }

    /// The next turn of a thread of this process, of a process after it, or what a new round begins with.
    fn next_turn(&mut self, computation: &Computation, p: VPid) -> Option<Chosen>
        requires { IsReady computation.now }
        ensures due { (here : Place) → here.p ≡ p → here.threads ≡ self.old.threads
            → here.processes ≡ each pid self.old.processes
            → chosen self.new (plain_of computation.now) result ≡ next_turn (plain_of computation.now) here }
        ensures can { IfSome result (CanTake (plain_of computation.now)) }
    {
        if let Some(turn) = self.first_thread(computation, p) {
            return Some(Chosen::Turn(turn));
        }
        if let Some(turn) = self.first_turn(computation) {
            return Some(Chosen::Turn(turn));
        }
        self.round(computation)
    }

    /// What a new round begins with.
    fn round(&mut self, computation: &Computation) -> Option<Chosen>
        requires { IsReady computation.now }
        ensures due { chosen self.new (plain_of computation.now) result ≡ new_round (plain_of computation.now) }
        ensures can { IfSome result (CanTake (plain_of computation.now)) }
    {
        queue_processes(computation, &mut self.processes);
        if self.processes.is_empty() {
            return None;
        }
        if let Some(dir) = computation.first_missing() {
            return Some(Chosen::Arrival(dir));
        }
        let turn = self.first_turn(computation)?;
        Some(Chosen::Turn(turn))
    }

    /// The first turn of the processes whose turn is still to come in this round.
    fn first_turn(&mut self, computation: &Computation) -> Option<Turn>
        requires { IsReady computation.now }
        ensures turn { option_map (place_in self.new) result
            ≡ first_turn (plain_of computation.now) (each pid self.old.processes) }
        ensures can { IfSome result (CanTurn (plain_of computation.now)) }
        ensures come { self.new.come ≡ self.old.come }
    {
        while let Some(number) = self.processes.pop() {
            let p = VPid(number);
            queue_threads(computation, p, &mut self.threads);
            if let Some(turn) = self.first_thread(computation, p) {
                return Some(turn);
            }
        }
        None
    }

    /// The first turn of the threads of this process whose turn is still to come.
    fn first_thread(&mut self, computation: &Computation, p: VPid) -> Option<Turn>
        requires { IsReady computation.now }
        ensures turn { option_map (place_in self.new) result
            ≡ first_thread (plain_of computation.now) p (each pid self.old.processes) self.old.threads }
        ensures can { IfSome result (CanTurn (plain_of computation.now)) }
        ensures processes { self.new.processes ≡ self.old.processes }
        ensures come { self.new.come ≡ self.old.come }
    {
        while let Some(number) = self.threads.pop() {
            if let Some(turn) = turn_of(computation, p, Tid(number)) {
                return Some(turn);
            }
        }
        None
    }
}

/// The thread's turn, where a signal is to be delivered to it or it can go on.
fn turn_of(computation: &Computation, p: VPid, t: Tid) -> Option<Turn>
    requires { IsReady computation.now }
    ensures turn { (threads processes : List ℕ) → option_map (λ turn. place_of turn threads processes) result
        ≡ turn_of (plain_of computation.now) p t.0 threads (each pid processes) }
    ensures can { IfSome result (CanTurn (plain_of computation.now)) }
{
    if let Some(signal) = computation.due_signal(p, t) {
        return Some(Turn {
            process: p,
            thread: t,
            next: Next::Deliver(signal),
            has_run: false,
        });
    }
    let ran = computation.ready_at(p, t)?;
    Some(Turn {
        process: p,
        thread: t,
        next: Next::GoOn(ran),
        has_run: false,
    })
}

/// Whether a thread that stands there stands at a call or a trap.
fn has_stopped(ran: &Ran) -> bool
    ensures { (place : UserStep) → ran.now ≡ ran_at place → result ≡ stands place }
{
    match ran {
        Ran::Asks(_) => true,
        Ran::Trapped(_) => true,
        _ => false,
    }
}

/// The queue has all live processes, in rising order.
fn queue_processes(computation: &Computation, queue: &mut Queue)
    requires { IsReady computation.now }
    ensures { each pid queue.new ≡ map.keys (plain_of computation.now).users }
{
    queue.clear();
    for p in computation.guests.keys() {
        queue.push(p.0);
    }
}

/// The queue has all threads of the process, in rising order, and none where it doesn't live.
fn queue_threads(computation: &Computation, p: VPid, queue: &mut Queue)
    requires { IsReady computation.now }
    ensures { queue.new ≡ threads_in (user_at computation.now p) }
{
    queue.clear();
    let mut above = 0;
    while let Some(t) = computation.next_thread(p, above) {
        queue.push(t.0);
        above = t.0;
    }
}
