use crate::outcome::Outcome;
use std::alloc::{AllocError, Global};
use sys_abi::Record;

/// What a chain of runs keeps, a launch and restarts behind one another: the records of work up to
/// the last set of each, and the bytes on the console up to there.
#[derive(Drop)]
pub struct Chain {
    work: Vec<Record>,
    console: Vec<u8>,
}

/// How many records of work of a run are kept, and how many are lost.
#[derive(Clone, Copy)]
pub struct Kept {
    pub kept: usize,
    pub lost: usize,
}

impl Chain {
    pub fn new(alloc: Global) -> Self {
        Chain {
            work: Vec::new(alloc),
            console: Vec::new(alloc),
        }
    }

    /// Takes what a run did up to its last set. Each call behind that is taken to have written one
    /// byte.
    pub fn take_part(&mut self, outcome: &Outcome) -> Result<Kept, AllocError> {
        let (kept, lost) = split(outcome.records());
        self.take_work(kept)?;
        let console = outcome.console();
        let length = console.len().saturating_sub(calls(lost));
        self.console
            .extend_from_slice(console.get(..length).unwrap_or(console))?;
        Ok(Kept {
            kept: works(kept),
            lost: works(lost),
        })
    }

    /// Takes all that a run did.
    pub fn take_whole(&mut self, outcome: &Outcome) -> Result<Kept, AllocError> {
        self.take_work(outcome.records())?;
        self.console.extend_from_slice(outcome.console())?;
        Ok(Kept {
            kept: works(outcome.records()),
            lost: 0,
        })
    }

    fn take_work(&mut self, records: &[Record]) -> Result<(), AllocError> {
        for record in records {
            if is_work(record) {
                self.work.push(*record)?;
            }
        }
        Ok(())
    }

    /// Whether the chain did what this run does, which makes no set.
    pub fn is_like(&self, whole: &Outcome) -> bool {
        self.work.as_slice() == whole.records() && self.console.as_slice() == whole.console()
    }
}

/// The records up to the last complete set, and those behind.
fn split(records: &[Record]) -> (&[Record], &[Record]) {
    let mut place = 0;
    for (index, record) in records.iter().enumerate() {
        if matches!(record, Record::Complete { .. }) {
            place = index;
        }
    }
    match records.split_at_checked(place) {
        Some(parts) => parts,
        None => (records, &[]),
    }
}

/// How many of these records are work.
fn works(records: &[Record]) -> usize {
    records.iter().filter(|record| is_work(record)).count()
}

/// How many of these records are calls.
fn calls(records: &[Record]) -> usize {
    records
        .iter()
        .filter(|record| matches!(record, Record::Call { .. }))
        .count()
}

fn is_work(record: &Record) -> bool {
    matches!(
        record,
        Record::User { .. } | Record::Call { .. } | Record::Deliver { .. }
    )
}
