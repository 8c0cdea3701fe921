//! The kernel over real numbers, with the buffer of its calls.
ghost use Rattle.std.specs.Prelude.{◌≡◌, ◌<◌, true, IfOk};
ghost use Rattle.plain_machine.specs.Kernel.{is_live};
ghost use Rattle.bench_kernels.specs.Owning as words;

use crate::serves::{Serves, first, lend};
use crate::standing::{stood_by, wrap};
use call_table::Request;
use discovery::Directory;
use host_tables::{Hosts, KernelReply};
use plain_machine::PlainKernel;
use rebuild_system::rebuild;
use std::alloc::{AllocError, Global};
use std::marker::Model;
use sys_abi::{Dir, Reply, Tid, Transfer, VPid};
use wrap_calls::Wrapped;

/// The kernel over real numbers, with the buffer of its calls.
pub struct RealBench {
    kernel: Wrapped,
    transfer: Transfer,
}

// Written out, so that to other crates it is one call to drop a bench.
impl Drop for RealBench {
    fn drop(self) {
        let RealBench {
            kernel: _,
            transfer: _,
        } = self;
    }
}

impl Model for RealBench {
    ghost use Rattle.plain_machine.specs.declared.kernel.PlainKernel.{PlainKernel};
    ghost use Rattle.wrap_names.specs.Codes.{kernel_code};
    ghost use Rattle.bench_kernels.specs.Owning.{IsOwn};

    ghost Value = { PlainKernel };

    ghost coded = { kernel_code };

    ghost view = { λ b. b.kernel };

    ghost invariant = { λ b. IsOwn b.kernel };
}

impl RealBench {
    /// One process.
    pub fn new(alloc: Global) -> Result<RealBench, AllocError> {
        let transfer = Transfer::new(alloc)?;
        let kernel = wrapped(alloc)?;
        Ok(RealBench { kernel, transfer })
    }

    /// The kernel, for checkpoints.
    pub fn into_kernel(self) -> Wrapped {
        let RealBench {
            kernel,
            transfer: _,
        } = self;
        kernel
    }
}

/// One process over real numbers.
fn wrapped(alloc: Global) -> Result<Wrapped, AllocError>
    ensures { IfOk result words.IsOwn }
{
    let kernel = first(alloc)?;
    begun(alloc, &kernel)
}

/// The system that stands for the kernel part.
fn begun(alloc: Global, kernel: &PlainKernel) -> Result<Wrapped, AllocError>
    requires { words.IsFirst kernel.now }
    ensures { IfOk result words.IsOwn }
{
    let hosts = Hosts {
        nodes: 1,
        shift: 0,
        pid_base: 1000,
        port_base: 0,
    };
    let mut directory = Directory::new(alloc);
    let system = rebuild(alloc, kernel, &hosts, &mut directory)?;
    let stood = stood_by(kernel);
    Ok(wrap(system, kernel.next_id, &stood))
}

impl Serves for RealBench {
    fn call(
        &mut self,
        alloc: Global,
        p: VPid,
        request: &Request,
        given: &[u8],
    ) -> Result<Option<Reply>, AllocError> {
        if !self.kernel.is_live(p) {
            return Ok(None);
        }
        told(ask(&mut self.kernel, p, request, given, &mut self.transfer))
    }

    fn arrive(&mut self, dir: Dir, n: u32) {
        if dir.side < 2 {
            bring(&mut self.kernel, dir, n);
        }
    }
}

/// Serves a call.
fn ask(
    kernel: &mut Wrapped,
    p: VPid,
    request: &Request,
    given: &[u8],
    transfer: &mut Transfer,
) -> KernelReply
    requires own { words.IsOwn kernel.old }
    requires may { words.MayMake request.now }
    requires alive { is_live kernel.old p ≡ true }
    ensures { words.IsOwn kernel.new }
{
    lend(transfer, given);
    kernel.call(p, Tid(p.0), request, transfer)
}

/// Has bytes of a direction arrive.
fn bring(kernel: &mut Wrapped, dir: Dir, n: u32)
    requires own { words.IsOwn kernel.old }
    requires side { dir.side < 2 }
    ensures { words.IsOwn kernel.new }
{
    kernel.arrive(dir, n);
}

fn told(reply: KernelReply) -> Result<Option<Reply>, AllocError> {
    match reply {
        KernelReply::Done(value) => Ok(Some(Reply::Value(value))),
        KernelReply::Error(error) => Ok(Some(Reply::Error(error))),
        KernelReply::NotReady => Ok(None),
        KernelReply::Memory => Err(AllocError),
    }
}
