//! The start of a computation: plain values alone.
ghost use Rattle.std.specs.Prelude.{◌≡◌, ◌<◌, ◌≤◌, List, [], ◌∷◌, ◌++◌, length, All, IfOk, OnOk};
ghost use Rattle.plain_process.specs.Launches.{IsLaunched};
ghost use Rattle.plain_process.specs.Start.{Launched};
ghost use Rattle.plain_machine.specs.Start.{NamedFile};
ghost use Rattle.plain_machine.specs.Valid.{AreNamed};
ghost use Rattle.plain_machine.specs.declared.kernel.PlainKernel.{PlainKernel};
ghost use Rattle.plain_machine.specs.Kernels.{IsKernel};
ghost use Rattle.rebuild_tables.specs.Hosts.{IsHosts};
ghost use Rattle.rebuild_tables.specs.Rebuilt.{HasNoDatagrams};
ghost use Rattle.rebuild_system.specs.Restarts.{AllArrived};
ghost use Rattle.computation.specs.HandedOn.{IsWrapped};
ghost use Rattle.computation.specs.Computations.{plain_of, IsReady};

use crate::listing::listed;
use computation::{Computation, Guest, Wrapped};
use discovery::Directory;
use elf32::Program;
use host_tables::{Hosts, System};
use id_maps::ByPid;
use plain_machine::PlainKernel;
use rebuild_system::rebuild;
use std::alloc::{AllocError, Global};
use sys_abi::{Transfer, VPid};
use views::list_of::ListOf;

/// From where a computation begins: the kernel part of a plain state, and each live process's own part.
pub struct Start {
    pub kernel: PlainKernel,
    pub guests: ByPid<Guest>,
}

// Written out, so that to other crates it is one call to drop a start.
impl Drop for Start {
    fn drop(self) {
        let Start { kernel, guests: _ } = self;
        let_go(kernel);
    }
}

impl Start {
    ghost use Rattle.run_start.specs.Starts.{state_of, AreParts, CanBegin, IsStart};

    /// The start of a job without programs and files.
    pub fn empty(alloc: Global) -> Start
        ensures start { IsStart result [] [] }
        ensures ready { CanBegin result }
    {
        Start {
            kernel: PlainKernel::empty(alloc),
            guests: ByPid::new(alloc),
        }
    }

    /// Adds a named file to the start of a job without programs.
    pub fn add_file(&mut self, alloc: Global, name: &[u8], bytes: &[u8]) -> Result<(), AllocError>
        requires { (files : List NamedFile) × (IsStart self.old [] files
            × AreNamed (files ++ record { name = name.now; bytes = bytes.now } ∷ [])) }
        ensures start { OnOk result ((files : List NamedFile) → IsStart self.old [] files
            → IsStart self.new [] (files ++ record { name = name.now; bytes = bytes.now } ∷ [])) }
        ensures ready { OnOk result (CanBegin self.new) }
    {
        let name = copied(alloc, name)?;
        let bytes = copied(alloc, bytes)?;
        self.kernel.add_file(alloc, name, bytes)
    }

    /// Adds a program with its argument strings, on a host, to the start of a job.
    pub fn add_program(
        &mut self,
        alloc: Global,
        host: u32,
        program: &Program,
        arguments: &[u8],
    ) -> Result<(), AllocError>
        requires ready { CanBegin self.old }
        requires start { (programs : List Launched) × ((files : List NamedFile)
            × (IsStart self.old programs files × AreNamed files × All IsLaunched programs
            × (length programs < 128))) }
        requires launched { IsLaunched
            (record { host = host; program = program.now; arguments = arguments.now }) }
        requires some { 1 ≤ length arguments.now }
        requires few { length arguments.now ≤ 4096 }
        ensures start { OnOk result ((programs : List Launched) (files : List NamedFile)
            → IsStart self.old programs files → IsStart self.new
            (programs ++ record { host = host; program = program.now; arguments = arguments.now } ∷ []) files) }
        ensures ready { OnOk result (CanBegin self.new) }
    {
        let p = self.kernel.next_id;
        let guest = Guest::load(alloc, VPid(p), program, arguments)?;
        self.guests.insert(VPid(p), guest)?;
        self.kernel.add_process(alloc, p, host)
    }

    /// Each live process's own part.
    pub fn into_guests(self) -> ByPid<Guest>
        ensures { result ≡ self.guests }
    {
        let Start { kernel, guests } = self;
        let_go(kernel);
        guests
    }

    /// The computation on these hosts that begins at this state.
    pub fn begin(self, alloc: Global, hosts: &Hosts) -> Result<Computation, AllocError>
        requires can { CanBegin self }
        requires hosts { IsHosts hosts.now }
        ensures state { IfOk result (λ computation. plain_of computation ≡ state_of self) }
        ensures ready { IfOk result (λ computation. IsReady computation) }
    {
        let kernel = wrapped_on(alloc, &self.kernel, hosts)?;
        let transfer = Transfer::new(alloc)?;
        Ok(Computation {
            kernel,
            guests: self.into_guests(),
            transfer,
        })
    }

    /// The system on these hosts with which a run begins at this state, and the own part of each process that
    /// lives in it, under its number.
    pub fn into_system(
        self,
        alloc: Global,
        hosts: &Hosts,
    ) -> Result<(Wrapped, ListOf<(VPid, Guest)>), AllocError>
        requires can { CanBegin self }
        requires hosts { IsHosts hosts.now }
        ensures { IfOk result (λ parts. AreParts self parts.0 parts.1) }
    {
        let system = wrapped_on(alloc, &self.kernel, hosts)?;
        let guests = listed(alloc, self.into_guests())?;
        Ok((system, guests))
    }
}

/// The one place where a kernel part's tables are dropped.
fn let_go(_kernel: PlainKernel) {}

/// A system on these hosts that stands for the kernel part.
fn wrapped_on(alloc: Global, kernel: &PlainKernel, hosts: &Hosts) -> Result<Wrapped, AllocError>
    requires whole { IsKernel kernel.now }
    requires arrived { AllArrived kernel.now.directions }
    requires plain { HasNoDatagrams kernel.now.descriptions }
    requires hosts { IsHosts hosts.now }
    ensures { IfOk result (λ wrapped. wrapped ≡ kernel.now) }
{
    let mut directory = Directory::new(alloc);
    let system = rebuild(alloc, kernel, hosts, &mut directory)?;
    Ok(standing_for(system, kernel))
}

/// The system, which stands for the kernel part.
fn standing_for(system: System, kernel: &PlainKernel) -> Wrapped
    ghost part: { PlainKernel }
    requires { IsWrapped system kernel.now.next_id part }
    ensures { result ≡ part }
{
    Wrapped::new(system, kernel.next_id)
}

fn copied(alloc: Global, bytes: &[u8]) -> Result<ListOf<u8>, AllocError>
    ensures { IfOk result (λ copy. copy ≡ bytes.now) }
{
    Ok(ListOf::from_vec(bytes.to_vec(alloc)?))
}
