//! The plain kernel part, with the buffer of its calls.
use crate::serves::{Serves, first, lend};
use call_table::Request;
use plain_machine::PlainKernel;
use plain_rows::serve;
use plain_tables::answer::Answer;
use plain_tables::channel::Direction;
use std::alloc::{AllocError, Global};
use sys_abi::{Dir, Reply, Tid, Transfer, VPid};

/// The plain kernel part, with the buffer of its calls.
pub struct PlainBench {
    kernel: PlainKernel,
    transfer: Transfer,
}

// Written out, so that to other crates it is one call to drop a bench.
impl Drop for PlainBench {
    fn drop(self) {
        let PlainBench {
            kernel: _,
            transfer: _,
        } = self;
    }
}

impl PlainBench {
    /// One process.
    pub fn new(alloc: Global) -> Result<PlainBench, AllocError> {
        let transfer = Transfer::new(alloc)?;
        let kernel = first(alloc)?;
        Ok(PlainBench { kernel, transfer })
    }
}

impl Serves for PlainBench {
    fn call(
        &mut self,
        alloc: Global,
        p: VPid,
        request: &Request,
        given: &[u8],
    ) -> Result<Option<Reply>, AllocError> {
        if !self.kernel.is_live(p) {
            return Ok(None);
        }
        lend(&mut self.transfer, given);
        let given = self.transfer.as_slice();
        let answer = serve(&mut self.kernel, alloc, p, Tid(p.0), request, given)?;
        Ok(put_answer(&mut self.transfer, answer))
    }

    fn arrive(&mut self, dir: Dir, n: u32) {
        if let Some(direction) = self.kernel.directions.get_mut(dir) {
            bring(direction, n);
        }
    }
}

/// Puts the answer's bytes into the transfer.
fn put_answer(transfer: &mut Transfer, answer: Option<Answer>) -> Option<Reply> {
    let answer = answer?;
    lend(transfer, answer.bytes.as_slice());
    Some(answer.reply)
}

/// Has bytes of a direction arrive.
fn bring(direction: &mut Direction, n: u32) {
    let left = (direction.left.len() as u64).saturating_sub(direction.arrived);
    direction.arrived += (n as u64).min(left);
}
