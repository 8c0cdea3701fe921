ghost use Rattle.std.specs.Prelude.{◌≡◌, ℕ, ◌-◌, ◌<◌, List, [], ◌∷◌, ◌++◌, ◌≤◌, Err, length, IsTrue, IfOk, IfSome, IfNone, OnOk, OnErr, take};
ghost use Rattle.std.specs.List.{list_all};
ghost use Rattle.trace_log.specs.Spelling.{is_spellable, HasSpelling, Spell, IsBadAt, BeginsWithNone, spelling};

use crate::fields::Fields;
use std::alloc::{AllocError, AllocFailed, Global};
use std::marker::Model;
use sys_abi::Record;
use thiserror::Error;

/// Why bytes were not read as a trace.
#[derive(Clone, Copy, Debug, PartialEq, Eq, Error)]
pub enum TraceFault {
    /// The place, in bytes from the start, of the first 16 bytes, or of the shorter rest, that
    /// spell no record.
    #[error("no record at byte {0}")]
    Bad(u64),
    #[error("out of memory")]
    Memory,
}

impl From<AllocError> for TraceFault {
    ghost use Rattle.std.specs.Prelude.{◌≡◌};
    ghost use Rattle.trace_log.specs.declared.trace.TraceFault.TheVariants.{Memory};

    ghost from_gives = { λ _ fault. fault ≡ Memory };

    fn from(_error: AllocError) -> TraceFault {
        TraceFault::Memory
    }
}

impl<T: Drop> From<AllocFailed<T>> for TraceFault {
    ghost use Rattle.std.specs.Prelude.{◌≡◌};
    ghost use Rattle.trace_log.specs.declared.trace.TraceFault.TheVariants.{Memory};

    ghost from_gives = { λ _ fault. fault ≡ Memory };

    fn from(_refused: AllocFailed<T>) -> TraceFault {
        TraceFault::Memory
    }
}

/// The records of a run in order, and room for further ones.
#[derive(Drop)]
pub struct Trace {
    records: Vec<Record>,
    room: u32,
}

impl Model for Trace {
    ghost use Rattle.std.specs.List.{list_all};
    ghost use Rattle.std.specs.Prelude.{◌+◌, ◌≤◌, IsTrue, vec_len, vec_capacity};
    ghost use Rattle.trace_log.specs.Spelling.{is_spellable};
    ghost use Rattle.trace_log.specs.Trace.{TraceState, trace_code};

    ghost Value = { TraceState };

    ghost coded = { trace_code };

    ghost view = { λ trace. record { records = trace.records.items; room = trace.room } };

    // The room is there, and each record has a spelling.
    ghost invariant = { λ trace. (vec_len trace.records + trace.room ≤ vec_capacity trace.records)
        × IsTrue (list_all is_spellable trace.records.items) };
}

impl Trace {
    /// No records, and no room.
    pub fn new(alloc: Global) -> Trace
        ensures { result ≡ record { records = []; room = 0 } }
    {
        Trace {
            records: Vec::new(alloc),
            room: 0,
        }
    }

    /// Makes room for `m` further records.
    pub fn reserve(&mut self, m: u32) -> Result<(), AllocError>
        ensures ok { OnOk result (self.new ≡ record self.old { room = m }) }
        ensures err { OnErr result (self.new ≡ self.old) }
    {
        self.records.reserve_exact(m as usize)?;
        self.room = m;
        Ok(())
    }

    /// For how many further records there is room.
    pub fn room(&self) -> u32
        ensures { result ≡ self.now.room }
    {
        self.room
    }

    /// Puts the record at the end, into room that is there. It takes no memory.
    pub fn append(&mut self, event: Record)
        requires room { 0 < self.old.room }
        requires spellable { IsTrue (is_spellable event) }
        ensures { self.new ≡ record self.old {
          records = self.old.records ++ event ∷ [];
          room = self.old.room - 1;
        } }
    {
        self.records.push(event).unwrap();
        self.room -= 1;
    }

    /// The records, in order.
    pub fn as_slice(&self) -> &[Record]
        ensures { result.now ≡ self.now.records }
    {
        self.records.as_slice()
    }

    /// The bytes of the trace's file.
    pub fn to_bytes(&self, alloc: Global) -> Result<Vec<u8>, AllocError>
        ensures { IfOk result (λ bytes. Spell self.now.records bytes.items) }
    {
        spell(alloc, self.records.as_slice())
    }

    /// The trace whose file has these bytes. It has no room.
    pub fn from_bytes(alloc: Global, bytes: &[u8]) -> Result<Trace, TraceFault>
        ensures ok { IfOk result (λ trace. Spell trace.records bytes.now) }
        ensures room { IfOk result (λ trace. trace.room ≡ 0) }
        ensures bad { (place : ℕ) → result ≡ Err (TraceFault.Bad place) → IsBadAt bytes.now place }

        // On the bytes of records it is Ok with them, or wants memory.
        ensures readable { (records : List Record) (place : ℕ) →
            Spell records bytes.now → result ≡ Err (TraceFault.Bad place) → ⊥ }
        ensures unique { (records : List Record) →
            Spell records bytes.now → IfOk result (λ trace. trace.records ≡ records) }
    {
        let mut records = Vec::with_capacity(alloc, bytes.len() / 16)?;
        let mut rest = bytes;
        while !rest.is_empty() {
            let Some(event) = first_record(rest) else {
                return Err(TraceFault::Bad((bytes.len() - rest.len()) as u64));
            };
            records.push(event)?;
            rest = &rest[16..];
        }
        Ok(Trace { records, room: 0 })
    }
}

/// The bytes that spell the records.
fn spell(alloc: Global, records: &[Record]) -> Result<Vec<u8>, AllocError>
    requires { IsTrue (list_all is_spellable records.now) }
    ensures { IfOk result (λ bytes. Spell records.now bytes.items) }
{
    let mut bytes = Vec::with_capacity(alloc, records.len().saturating_mul(16))?;
    for event in records {
        bytes.extend_from_slice(&Fields::of(event).bytes())?;
    }
    Ok(bytes)
}

/// The record that the bytes begin with, if any.
fn first_record(bytes: &[u8]) -> Option<Record>
    ensures some { IfSome result (λ event. HasSpelling event
        × (16 ≤ length bytes.now) × (spelling event ≡ take 16 bytes.now)) }
    ensures none { IfNone result (BeginsWithNone bytes.now) }
{
    let front = bytes.first_chunk::<16>()?;
    Fields::read(front).record()
}
