//! What a wrapped kernel tells without a call.
ghost use Rattle.std.specs.Prelude.{◌≡◌, List, [], length, is_some, Some, IfSome, find, if◌then◌else◌};
ghost use Rattle.std.specs.FinMap as map;
ghost use Rattle.views.specs.Numbers.{Byte, ThreadNumber};
ghost use Rattle.plain_process.specs.Attempts.{Gives};
ghost use Rattle.plain_process.specs.Buffers.{lent};
ghost use Rattle.plain_process.specs.Memory.{Memory};
ghost use Rattle.plain_machine.specs.Attempts.{Served};
ghost use Rattle.plain_machine.specs.Kernel as plain;
ghost use Rattle.plain_machine.specs.Serve as calls;
ghost use Rattle.plain_machine.specs.Serve.{row};
ghost use Rattle.plain_machine.specs.Tests as tests;
ghost use Rattle.wrap_passing.specs.OfWrapNames.Changes.{missing_in};
ghost use Rattle.wrap_calls.specs.Console as consoles;
ghost use Rattle.wrap_calls.specs.Directions as directions;

use crate::wrapped::Wrapped;
use crate::{console, directions, living, ready};
use call_table::Request;
use sys_abi::{Dir, Tid, VPid};
use wrap_passing::looks::{lives, signals};

impl Wrapped {
    /// Whether a process lives.
    pub fn is_live(&self, p: VPid) -> bool
        ensures { result ≡ plain.is_live self.now p }
    {
        lives(&self.system, p)
    }

    /// Whether some process lives.
    pub fn has_life(&self) -> bool
        ensures { result ≡ tests.has_life self.now }
    {
        living::has_life(&self.system)
    }

    /// The signals that are pending for the thread or its process.
    pub fn pending(&self, p: VPid, t: Tid) -> u32
        ensures { result ≡ plain.pending self.now p t.0 }
    {
        signals(&self.system, p, t)
    }

    /// Whether a call of a thread doesn't wait, by the first 16 bytes that it reads, with zeros where it reads
    /// fewer. Takes no memory.
    pub fn is_ready(&self, p: VPid, t: Tid, request: &Request, front: &[u8]) -> bool
        ensures { result ≡ calls.is_ready self.now p t.0 request.now front.now }
    {
        ready::is_ready(&self.system, p, t, request, front)
    }

    /// How many bytes the call gives to the console, which is all that it reads: None where it is no write to
    /// a console that is open for writing.
    pub fn console_write(&self, p: VPid, request: &Request) -> Option<u32>
        ensures exact { result ≡ consoles.console_write self.now p request.now }
        ensures shown { (t : ThreadNumber) (given : List Byte) (served : Served)
            → row self.now p t request.now given ≡ Gives served
            → served.console ≡ (if is_some result then given else []) }
        ensures count { (memory : Memory) (given : List Byte) → lent memory request.now ≡ Some given
            → IfSome result (λ n. n ≡ length given) }
    {
        console::console_write(&self.system, p, request)
    }

    /// The least direction above this one, or the least of all where none is given.
    pub fn next_dir(&self, above: Option<Dir>) -> Option<Dir>
        ensures { result ≡ find (directions.is_above above) (map.keys self.now.directions) }
    {
        directions::next_dir(&self.system, above)
    }

    /// How many bytes of the direction are on the way.
    pub fn missing(&self, dir: Dir) -> u32
        ensures { result ≡ missing_in (map.get self.now.directions dir) }
    {
        directions::missing(&self.system, dir)
    }
}
