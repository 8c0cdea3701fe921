ghost use Rattle.std.specs.Prelude.{◌≡◌, ◌≢◌, ◌<◌, ◌≤◌, ℕ, true, false, not, Option, Some, None, is_some, IfOk, IfSome, IsErrOf, OnOk, OnErr, Err, if◌then◌else◌};
ghost use Rattle.std.specs.FinMap as map;
ghost use Rattle.views.specs.Faults.{IsFaultOf};
ghost use Rattle.sys_abi.specs.Clones.{clone_form};
ghost use Rattle.call_table.specs.Requests.{is_local};
ghost use Rattle.sys_abi.specs.declared.record.Record.TheVariants as a_record;
ghost use Rattle.sys_abi.specs.declared.reply.Reply.TheVariants.{Value};
ghost use Rattle.plain_process.specs.Buffers.{lent};
ghost use Rattle.plain_process.specs.Put.{made_by, put};
ghost use Rattle.plain_process.specs.Twins.{twin_of};
ghost use Rattle.plain_process.specs.declared.user_part.UserPart.{UserPart};
ghost use Rattle.sys_abi.specs.declared.identity.VPid.{VPid};
ghost use Rattle.plain_tables.specs.Tables.{pid};
ghost use Rattle.plain_machine.specs.Kernel.{is_live};
ghost use Rattle.plain_machine.specs.Serve.{serve};
ghost use Rattle.guest_proc.specs.Guests.{GuestPart, HasThread};
ghost use Rattle.edge_io.specs.Sunk.{sunk};
ghost use Rattle.computation.specs.Takes.{Takes, Breaks};
ghost use Rattle.computation.specs.Parts.{AsksAt, CanAnswer, Grown, Guests, HasServed, Reserved, born_if, given_back, grown_by, is_fork, is_fork_form, left_by, told_as, with_twin};

use crate::computation::{Computation, Stop};
use crate::looks::shows;
use crate::parts::{reserve_for, show};
use call_table::Request;
use edge_io::Sink;
use guest_proc::Guest;
use host_tables::KernelReply;
use id_maps::ByPid;
use std::alloc::{AllocError, Global};
use sys_abi::{CloneForm, Record, Reply, Tid, Transfer, VPid, clone_form};
use trace_log::Trace;

impl Computation {
    ghost use Rattle.computation.specs.Computations.{plain_of, user_at, IsReady};

    /// Serves a call of the kernel, and shows what it writes on the console right after its record.
    pub(crate) fn kernel_call<O: Sink>(
        &mut self,
        alloc: Global,
        p: VPid,
        t: Tid,
        request: &Request,
        out: &mut O,
        trace: &mut Trace,
    ) -> Result<(), Stop>
        requires ready { IsReady self.old }
        requires asks { AsksAt (plain_of self.old).users p t.0 request.now }
        requires given { (user : UserPart) → user_at self.old p ≡ Some user
            → lent user.memory request.now ≡ Some self.old.transfer }
        requires kernels { is_local request.now ≡ false }
        requires goes { is_some (serve self.old.kernel p t.0 request.now self.old.transfer) ≡ true }
        requires room { 0 < trace.old.room }
        ensures ok { OnOk result (Takes (plain_of self.old) (plain_of self.new)
            (a_record.Call p t) trace.old trace.new (sunk (O.seen out.old).taken (O.seen out.new).taken)) }
        ensures ready { OnOk result (IsReady self.new) }
        ensures failed { IsErrOf result Stop.Sink → Breaks (plain_of self.old) (plain_of self.new)
            (a_record.Call p t) trace.old trace.new (sunk (O.seen out.old).taken (O.seen out.new).taken) }
        ensures memory { IsErrOf result Stop.Memory →
            (trace.new ≡ trace.old) × ((O.seen out.new).taken ≡ (O.seen out.old).taken) }
        ensures same { IsErrOf result Stop.Memory → plain_of self.new ≡ plain_of self.old }
        ensures cause { IsFaultOf result Stop.Sink (O.seen out.old).faults (O.seen out.new).faults }
        ensures later { (O.seen out.old).faults ≤ (O.seen out.new).faults }
    {
        let is_shown = shows(&self.kernel, p, request);
        let reply = self.serve_call(alloc, p, t, request)?;
        trace.append(Record::Call { p, t });
        show(out, is_shown, self.transfer.as_slice())?;
        self.put_answer(p, t, request, reply);
        Ok(())
    }

    /// Serves a kernel call, and puts the child that it makes among the guests; its answer is not put yet. All
    /// memory but the kernel's own is taken first, so that where some is wanted nobody sees that a call was tried.
    fn serve_call(
        &mut self,
        alloc: Global,
        p: VPid,
        t: Tid,
        request: &Request,
    ) -> Result<Reply, AllocError>
        requires ready { IsReady self.old }
        requires asks { AsksAt (plain_of self.old).users p t.0 request.now }
        requires given { (user : UserPart) → user_at self.old p ≡ Some user
            → lent user.memory request.now ≡ Some self.old.transfer }
        requires kernels { is_local request.now ≡ false }
        requires goes { is_some (serve self.old.kernel p t.0 request.now self.old.transfer) ≡ true }
        ensures served { IfOk result (λ reply. HasServed self.old.kernel self.new.kernel p t.0 request.now
            self.old.transfer self.new.transfer reply) }
        ensures grown { IfOk result (λ reply. (guest : GuestPart) → map.get self.old.guests p ≡ Some guest
            → Grown self.old.guests self.new.guests p guest t.0 request.now reply
            (pid self.old.kernel.next_id)) }
        ensures same { OnErr result (plain_of self.new ≡ plain_of self.old) }
    {
        let next = VPid(self.kernel.next_id());
        reserve_at(&mut self.guests, alloc, p, request)?;
        place_twin(&mut self.guests, alloc, p, t, next, request)?;
        let told = self.kernel.call(p, t, request, &mut self.transfer);
        let is_born = self.kernel.is_live(next);
        settle_child(&mut self.guests, next, request, is_born);
        answered(told)
    }

    /// Puts the answer of a call, or takes the guest away whose process has ended.
    fn put_answer(&mut self, p: VPid, t: Tid, request: &Request, reply: Reply)
        requires { CanAnswer self.old.guests p request.now reply (given_back reply self.old.transfer) }
        ensures kernel { self.new.kernel ≡ self.old.kernel }
        ensures guests { (guest : GuestPart) → map.get self.old.guests p ≡ Some guest
            → (spare : ℕ) × (self.new.guests ≡ left_by (is_live self.old.kernel p) self.old.guests p
            (record {
              pid = guest.pid;
              user = put guest.user t.0 request.now reply (given_back reply self.old.transfer);
              spare = spare;
            })) }
    {
        if !self.kernel.is_live(p) {
            self.guests.remove(p);
            return;
        }
        clear_refused(&mut self.transfer, reply);
        answer_at(&mut self.guests, p, t, request, reply, &self.transfer);
    }
}

/// The answer of a call that does not wait.
fn answered(told: KernelReply) -> Result<Reply, AllocError>
    requires { told ≢ KernelReply.NotReady }
    ensures ok { IfOk result (λ reply. told ≡ told_as reply) }
    ensures err { OnErr result (told ≡ KernelReply.Memory) }
{
    match told {
        KernelReply::Done(value) => Ok(Reply::Value(value)),
        KernelReply::Error(error) => Ok(Reply::Error(error)),
        KernelReply::Memory => Err(AllocError),
        KernelReply::NotReady => unreachable!(),
    }
}

/// An error gives the process no bytes. What the call read is taken out of the transfer.
fn clear_refused(transfer: &mut Transfer, reply: Reply)
    ensures { transfer.new ≡ given_back reply transfer.old }
{
    match reply {
        Reply::Error(_) => transfer.clear(),
        Reply::Value(_) => {}
    }
}

/// Puts an answer, whose bytes are in the transfer.
fn answer_at(
    guests: &mut ByPid<Guest>,
    p: VPid,
    t: Tid,
    request: &Request,
    reply: Reply,
    transfer: &Transfer,
)
    requires { CanAnswer guests.old p request.now reply transfer.now }
    ensures { (guest : GuestPart) → map.get guests.old p ≡ Some guest
        → (spare : ℕ) × (guests.new ≡ map.insert guests.old p
        (record {
          pid = guest.pid;
          user = put guest.user t.0 request.now reply transfer.now;
          spare = spare;
        })) }
{
    let Some(guest) = guests.get_mut(p) else {
        unreachable!();
    };
    guest.answer(t, request, reply, transfer);
}

/// Makes room for the thread that a call adds to its process.
fn reserve_at(
    guests: &mut ByPid<Guest>,
    alloc: Global,
    p: VPid,
    request: &Request,
) -> Result<(), AllocError>
    requires { is_some (map.get guests.old p) ≡ true }
    ensures ok { OnOk result ((guest : GuestPart) → map.get guests.old p ≡ Some guest
        → Reserved guests.old guests.new p guest request.now) }
    ensures err { OnErr result (guests.new ≡ guests.old) }
{
    let Some(guest) = guests.get_mut(p) else {
        unreachable!();
    };
    reserve_for(guest, alloc, request)
}

/// Whether the call forks.
fn forks(request: &Request) -> bool
    ensures { result ≡ is_fork request.now }
{
    match *request {
        Request::Clone { flags, .. } => is_fork_form(flags),
        _ => false,
    }
}

fn is_fork_form(flags: u32) -> bool
    ensures { result ≡ is_fork_form (clone_form flags) }
{
    match clone_form(flags) {
        Some(CloneForm::Fork) => true,
        _ => false,
    }
}

/// The child that a fork makes, while its number isn't known.
fn twin_at(
    guests: &ByPid<Guest>,
    alloc: Global,
    p: VPid,
    t: Tid,
    request: &Request,
) -> Result<Option<Guest>, AllocError>
    ensures { IfOk result (λ twin. (guest : GuestPart) → map.get guests.now p ≡ Some guest
        → twin ≡ (if is_fork request.now
        then Some (record { pid = guest.pid; user = twin_of guest.user t.0; spare = 0 }) else None)) }
{
    if !forks(request) {
        return Ok(None);
    }
    let Some(guest) = guests.get(p) else {
        return Ok(None);
    };
    Ok(Some(guest.fork_guest(alloc, t)?))
}

/// Puts the child that a fork is to make among the guests, under the number that it will have.
fn place_twin(
    guests: &mut ByPid<Guest>,
    alloc: Global,
    p: VPid,
    t: Tid,
    next: VPid,
    request: &Request,
) -> Result<(), AllocError>
    ensures ok { OnOk result ((guest : GuestPart) → map.get guests.old p ≡ Some guest
        → guests.new ≡ with_twin guests.old guest t.0 request.now next) }
    ensures err { OnErr result (guests.new ≡ guests.old) }
{
    let twin = twin_at(guests, alloc, p, t, request)?;
    let Some(twin) = twin else {
        return Ok(());
    };
    guests.insert(next, twin)?;
    Ok(())
}

/// Gives the child of a fork its number, or takes it out of the guests if it was not made. Takes no memory.
fn settle_child(guests: &mut ByPid<Guest>, next: VPid, request: &Request, is_born: bool)
    requires fork { is_born ≡ true → made_by request.now (Value next.0) ≡ Some next.0 }
    requires lent { is_born ≡ true → IfSome (map.get guests.old next)
        (λ twin. is_some (lent twin.user.memory request.now) ≡ true) }
    ensures { (before : Guests) (guest : GuestPart) (t : ℕ) → HasThread guest.user t
        → map.get before next ≡ None → guests.old ≡ with_twin before guest t request.now next
        → guests.new ≡ grown_by before guest.user t request.now next (born_if is_born next) }
{
    if !forks(request) {
        return;
    }
    if !is_born {
        guests.remove(next);
        return;
    }
    let Some(child) = guests.get_mut(next) else {
        return;
    };
    child.settle(next, request);
}
