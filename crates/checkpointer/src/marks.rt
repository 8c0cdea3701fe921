ghost use Rattle.std.specs.Prelude.{◌≡◌, ℕ, ◌+◌, ◌*◌, ◌-◌, ◌^◌, ◌<◌, ◌≤◌, length, take, IsTrue};
ghost use Rattle.trace_log.specs.Spelling.{is_spellable};
ghost use Rattle.trace_log.specs.LogText.{after, after_all};
ghost use Rattle.trace_log.specs.Requests.{tally_after};
ghost use Rattle.trace_log.specs.Trace.{with_record};
ghost use Rattle.staged_cut.specs.HandedOn.{state_of, CanBegin};
ghost use Rattle.checkpointer.specs.Marks.{mark_of, marks_of, with_marks};

use crate::checkpointer::Checkpointer;
use staged_cut::Start;
use sys_abi::{Dir, Record};
use trace_log::Trace;

/// What the bytes of a direction pass between a cut and its outcome.
#[derive(Clone, Copy)]
pub enum Pass {
    /// They are drained.
    Drain,
    /// They are refilled.
    Refill,
}

/// The mark of it.
fn mark_of(passes: Pass, dir: Dir, n: u32) -> Record
    ensures { result ≡ mark_of passes dir n }
{
    match passes {
        Pass::Drain => Record::Drained { dir, n },
        Pass::Refill => Record::Refilled { dir, n },
    }
}

impl Checkpointer {
    /// Puts a mark on the trace.
    pub(crate) fn mark(&mut self, mark: Record, trace: &mut Trace)
        requires room { 0 < trace.old.room }
        requires spellable { IsTrue (is_spellable mark) }
        requires work { self.old.tally.work + 1 < 2 ^ 64 }
        ensures checkpointer { self.new ≡ record self.old { tally = tally_after self.old.tally mark } }
        ensures trace { trace.new ≡ with_record trace.old mark }
    {
        self.tally.pass(&mark);
        trace.append(mark);
    }

    /// Puts the marks of one kind on the trace, as far as it has room: of each direction how many bytes were
    /// drained, or are refilled.
    pub(crate) fn mark_all(&mut self, start: &Start, passes: Pass, trace: &mut Trace)
        requires ready { CanBegin start.now }
        requires work { self.old.tally.work + 1 < 2 ^ 64 }
        requires request { self.old.lines.request + 1 < 2 ^ 64 }
        requires drained { self.old.lines.drained + trace.old.room * 2 ^ 32 ≤ 2 ^ 64 }
        ensures checkpointer { self.new ≡ record self.old {
          lines = after_all self.old.lines (take trace.old.room (marks_of passes (state_of start.now)));
        } }
        ensures trace { trace.new ≡ with_marks trace.old (marks_of passes (state_of start.now)) }
        ensures drained { self.new.lines.drained + trace.new.room * 2 ^ 32
            ≤ self.old.lines.drained + trace.old.room * 2 ^ 32 }
    {
        for (dir, direction) in start.kernel.directions.iter() {
            if direction.left.is_empty() {
                continue;
            }
            if trace.room() == 0 {
                return;
            }
            self.mark_pass(mark_of(passes, *dir, direction.left.len() as u32), trace);
        }
    }

    /// Puts a mark on the trace behind which the lines of the log go on.
    fn mark_pass(&mut self, mark: Record, trace: &mut Trace)
        requires room { 0 < trace.old.room }
        requires spellable { IsTrue (is_spellable mark) }
        requires work { self.old.tally.work + 1 < 2 ^ 64 }
        requires request { self.old.lines.request + 1 < 2 ^ 64 }
        requires drained { self.old.lines.drained + 2 ^ 32 ≤ 2 ^ 128 }
        ensures checkpointer { self.new ≡ record self.old {
          tally = tally_after self.old.tally mark;
          lines = after self.old.lines mark;
        } }
        ensures trace { trace.new ≡ with_record trace.old mark }
        ensures more { self.new.lines.drained ≤ self.old.lines.drained + 2 ^ 32 }
    {
        self.mark(mark, trace);
        self.lines.pass(&mark);
    }
}
