ghost use Rattle.std.specs.Prelude.{◌≡◌, is_some, true};
ghost use Rattle.std.specs.FinMap as map;
ghost use Rattle.plain_tables.specs.Tables as words;

use crate::process::Process;
use id_maps::ByPid;
use id_maps::sys_abi::signals::{has_signal, with_signal, without_signal};
use id_maps::sys_abi::{Signal, VPid};
use plain_process::views::number_map::NumberMap;

impl Process {
    /// The signals that are pending for a thread.
    pub fn signals_of(&self, t: u32) -> u32
        ensures { result ≡ words.signals_of t self.now }
    {
        match self.threads.get(t) {
            Some(signals) => *signals,
            None => 0,
        }
    }

    fn take(&mut self, t: u32, s: Signal)
        ensures { self.new ≡ words.taken_from t s.0 self.old }
    {
        let signals = self.signals_of(t);
        if has_signal(signals, s) {
            set_signals(&mut self.threads, t, without_signal(signals, s));
        } else {
            self.pending = without_signal(self.pending, s);
        }
    }

    fn raise(&mut self, t: u32, s: Signal)
        requires { is_some (map.get self.old.threads t) ≡ true }
        ensures { self.new ≡ words.raised_at t s.0 self.old }
    {
        let signals = with_signal(self.signals_of(t), s);
        set_signals(&mut self.threads, t, signals);
    }

    fn raise_for_all(&mut self, s: Signal)
        ensures { self.new ≡ words.raised_for_all s.0 self.old }
    {
        self.pending = with_signal(self.pending, s);
    }
}

/// Puts other signals in the place of those that are pending for a thread.
fn set_signals(threads: &mut NumberMap<u32>, t: u32, signals: u32)
    requires { is_some (map.get threads.old t) ≡ true }
    ensures { threads.new ≡ map.insert threads.old t signals }
{
    if let Some(there) = threads.get_mut(t) {
        *there = signals;
    }
}

/// Takes a pending signal away from a process that is there. Takes no memory.
pub fn take_at(processes: &mut ByPid<Process>, p: VPid, t: u32, s: Signal)
    ensures { processes.new ≡ words.changed_at processes.old p (words.taken_from t s.0) }
{
    if let Some(process) = processes.get_mut(p) {
        process.take(t, s);
    }
}

/// Makes the signal pending for a thread that is there. Takes no memory.
pub fn raise_at(processes: &mut ByPid<Process>, p: VPid, t: u32, s: Signal)
    requires { words.has_thread_in t (map.get processes.old p) ≡ true }
    ensures { processes.new ≡ words.changed_at processes.old p (words.raised_at t s.0) }
{
    if let Some(process) = processes.get_mut(p) {
        process.raise(t, s);
    }
}

/// Makes the signal pending for a process that is there. Takes no memory.
pub fn raise_for_all_at(processes: &mut ByPid<Process>, p: VPid, s: Signal)
    ensures { processes.new ≡ words.changed_at processes.old p (words.raised_for_all s.0) }
{
    if let Some(process) = processes.get_mut(p) {
        process.raise_for_all(s);
    }
}
