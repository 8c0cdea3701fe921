//! What the kernels of a benchmark have in common.
ghost use Rattle.std.specs.Prelude.{IfOk};
ghost use Rattle.bench_kernels.specs.Owning as words;

use call_table::Request;
use plain_machine::{FIRST_PID, PlainKernel};
use std::alloc::{AllocError, Global};
use sys_abi::transfer::TRANSFER_LIMIT;
use sys_abi::{Dir, Reply, Transfer, VPid};

/// A kernel that serves calls.
pub trait Serves {
    /// Serves a call that the first thread of a process makes, which reads these bytes. None where it waits,
    /// and where the process doesn't live.
    fn call(
        &mut self,
        alloc: Global,
        p: VPid,
        request: &Request,
        given: &[u8],
    ) -> Result<Option<Reply>, AllocError>
        requires { words.MayMake request.now };

    /// Has so many bytes of a direction arrive, at most those that are on the way.
    fn arrive(&mut self, dir: Dir, n: u32);
}

/// Puts what a call reads into the transfer, of which it holds 65,536 bytes at most.
pub(crate) fn lend(transfer: &mut Transfer, given: &[u8])
    ensures { words.MayLend transfer.new }
{
    transfer.clear();
    transfer.put(&given[..given.len().min(TRANSFER_LIMIT)]);
}

/// The kernel part of one process.
pub(crate) fn first(alloc: Global) -> Result<PlainKernel, AllocError>
    ensures { IfOk result words.IsFirst }
{
    let mut kernel = PlainKernel::empty(alloc);
    kernel.add_process(alloc, FIRST_PID, 0)?;
    Ok(kernel)
}
