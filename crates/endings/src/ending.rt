ghost use Rattle.std.specs.Prelude.{◌≡◌, ◌<◌, ◌≤◌, ◌^◌, ◌⊎◌, ◌++◌, OnOk, OnErr};
ghost use Rattle.views.specs.Faults.{Rose, IsFaultOf};
ghost use Rattle.endings.specs.Log.{bad_program_line, damaged_line};
ghost use Rattle.edge_io.specs.Sunk.{sunk, Took, TookFront};
ghost use Rattle.endings.specs.Endings.{status_of, line_of, Concludes};

use crate::status::Status;
use edge_io::{Sink, SinkFault};
use elf32::ElfFault;
use image_format::Damage;
use itoa::Buffer;
use std::alloc::AllocError;

/// How a call came to its end, with what the last line of its log tells.
#[derive(Clone, Copy)]
pub enum Ending<'a> {
    Done,
    Usage,
    /// The input of this name could not be read.
    InputFault(&'a str),
    /// There is no input of this name.
    Missing(&'a str),
    /// The file of this name breaks a rule of its format.
    BadElf(&'a str, ElfFault),
    /// The files of the job have too many bytes together.
    TooBig,
    SinkFault,
    /// The folder of sets failed before the run.
    DiskFault,
    /// There is no set to restart from.
    NoSet,
    /// The set in this slot spells no state, first of all for what is at this place.
    Damaged(u32, Damage),
    /// The trace has this many records, and room for no more.
    Budget(u32),
    /// Somebody lives, and nobody can go on.
    Stuck,
    Memory,
}

impl<'a> From<AllocError> for Ending<'a> {
    ghost use Rattle.std.specs.Prelude.{◌≡◌};
    ghost use Rattle.endings.specs.declared.ending.Ending.TheVariants.{Memory};

    ghost from_gives = { λ _ ending. ending ≡ Memory };

    fn from(_error: AllocError) -> Ending<'a> {
        Ending::Memory
    }
}

impl Ending<'_> {
    pub fn status(self) -> Status
        ensures { result ≡ status_of self.entry }
    {
        match self {
            Ending::Done => Status::Done,
            Ending::Usage => Status::Usage,
            Ending::InputFault(_) => Status::InputFault,
            Ending::Missing(_) => Status::Missing,
            Ending::BadElf(_, _) => Status::BadElf,
            Ending::TooBig => Status::TooBig,
            Ending::SinkFault => Status::SinkFault,
            Ending::DiskFault => Status::DiskFault,
            Ending::NoSet => Status::NoSet,
            Ending::Damaged(_, _) => Status::Damaged,
            Ending::Budget(_) => Status::Budget,
            Ending::Stuck => Status::Stuck,
            Ending::Memory => Status::Memory,
        }
    }

    /// Puts the last line on the log. Where the log fails, the status is that of a sink's fault. Where a
    /// sink failed before, there is no line.
    pub fn conclude<L: Sink>(self, log: &mut L) -> Status
        ensures concludes { Concludes self.entry result (sunk (L.seen log.old).taken (L.seen log.new).taken) }
        ensures cause { result ≡ Status.SinkFault →
            (status_of self.entry ≡ Status.SinkFault) ⊎ Rose (L.seen log.old).faults (L.seen log.new).faults }
        ensures silent { status_of self.entry ≡ Status.SinkFault → log.new ≡ log.old }
    {
        match self.put_line(log) {
            Ok(()) => self.status(),
            Err(_) => Status::SinkFault,
        }
    }

    fn put_line<L: Sink>(self, log: &mut L) -> Result<(), SinkFault>
        ensures ok { OnOk result (Took (sunk (L.seen log.old).taken (L.seen log.new).taken)
            (line_of self.entry)) }
        ensures err { OnErr result (TookFront (sunk (L.seen log.old).taken (L.seen log.new).taken)
            (line_of self.entry)) }
        ensures cause { OnErr result (Rose (L.seen log.old).faults (L.seen log.new).faults) }
        ensures silent { status_of self.entry ≡ Status.SinkFault → log.new ≡ log.old }
    {
        match self {
            Ending::Done => put(log, "done\n"),
            Ending::Usage => put(log, "usage\n"),
            Ending::InputFault(name) => put_three(log, "input fault: ", name, "\n"),
            Ending::Missing(name) => put_three(log, "missing: ", name, "\n"),
            Ending::BadElf(name, fault) => put_fault(log, name, fault),
            Ending::TooBig => put(log, "files too large\n"),
            Ending::SinkFault => Ok(()),
            Ending::DiskFault => put(log, "disk fault\n"),
            Ending::NoSet => put(log, "no set\n"),
            Ending::Damaged(slot, damage) => put_damage(log, slot, damage),
            Ending::Budget(records) => {
                let mut number = Buffer::new();
                put_three(log, "budget spent: ", number.format(records), " records\n")
            }
            Ending::Stuck => put(log, "stuck\n"),
            Ending::Memory => put(log, "memory\n"),
        }
    }
}

/// Puts the line of a file that breaks a rule of its format.
fn put_fault<L: Sink>(log: &mut L, name: &str, fault: ElfFault) -> Result<(), SinkFault>
    ensures ok { OnOk result (Took (sunk (L.seen log.old).taken (L.seen log.new).taken)
        (bad_program_line name.now fault)) }
    ensures err { OnErr result (TookFront (sunk (L.seen log.old).taken (L.seen log.new).taken)
        (bad_program_line name.now fault)) }
    ensures cause { OnErr result (Rose (L.seen log.old).faults (L.seen log.new).faults) }
    ensures later { (L.seen log.old).faults ≤ (L.seen log.new).faults }
{
    put_three(log, "bad program: ", name, ": ")?;
    let mut number = Buffer::new();
    put_three(
        log,
        fault.reason.word(),
        " at ",
        number.format(fault.offset),
    )?;
    put(log, "\n")
}

/// Puts the line of a set that spells no state.
fn put_damage<L: Sink>(log: &mut L, slot: u32, damage: Damage) -> Result<(), SinkFault>
    ensures ok { OnOk result (Took (sunk (L.seen log.old).taken (L.seen log.new).taken)
        (damaged_line slot damage)) }
    ensures err { OnErr result (TookFront (sunk (L.seen log.old).taken (L.seen log.new).taken)
        (damaged_line slot damage)) }
    ensures cause { OnErr result (Rose (L.seen log.old).faults (L.seen log.new).faults) }
    ensures later { (L.seen log.old).faults ≤ (L.seen log.new).faults }
{
    let mut number = Buffer::new();
    put_three(log, "damaged: slot ", number.format(slot), " file ")?;
    let mut index = Buffer::new();
    let mut place = Buffer::new();
    put_three(
        log,
        index.format(damage.file),
        " at ",
        place.format(damage.offset),
    )?;
    put(log, "\n")
}

/// Puts three pieces, one after the other.
fn put_three<L: Sink>(log: &mut L, first: &str, second: &str, third: &str) -> Result<(), SinkFault>
    ensures ok { OnOk result (Took (sunk (L.seen log.old).taken (L.seen log.new).taken)
        (first.now ++ second.now ++ third.now)) }
    ensures err { OnErr result
        (TookFront (sunk (L.seen log.old).taken (L.seen log.new).taken)
        (first.now ++ second.now ++ third.now)) }
    ensures cause { OnErr result (Rose (L.seen log.old).faults (L.seen log.new).faults) }
    ensures later { (L.seen log.old).faults ≤ (L.seen log.new).faults }
{
    put(log, first)?;
    put(log, second)?;
    put(log, third)
}

fn put<L: Sink>(log: &mut L, piece: &str) -> Result<(), SinkFault>
    ensures ok { OnOk result (Took (sunk (L.seen log.old).taken (L.seen log.new).taken) piece.now) }
    ensures err { OnErr result (TookFront (sunk (L.seen log.old).taken (L.seen log.new).taken) piece.now) }
    ensures cause { OnErr result (Rose (L.seen log.old).faults (L.seen log.new).faults) }
    ensures later { (L.seen log.old).faults ≤ (L.seen log.new).faults }
    ensures small { (L.seen log.new).faults < 2 ^ 64 }
{
    log.put(piece.as_bytes())
}
