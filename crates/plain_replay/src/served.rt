ghost use Rattle.std.specs.Prelude.{◌≡◌, ◌≤◌, [], length, IfOk, if◌then◌else◌};
ghost use Rattle.sys_abi.specs.declared.transfer.TheConstants.{TRANSFER_LIMIT};
ghost use Rattle.plain_machine.specs.Serve.{serve};
ghost use Rattle.plain_replay.specs.Answers.{served_told};

use call_table::Request;
use plain_machine::kernel::PlainKernel;
use std::alloc::{AllocError, Global};
use sys_abi::{Reply, Tid, VPid};
use views::duplicate::Duplicate;
use views::list_of::ListOf;

/// What a call leaves and gives.
#[derive(Drop)]
pub enum Served {
    Done {
        /// The kernel part after the call.
        kernel: PlainKernel,
        reply: Reply,
        /// The bytes for the guest's memory.
        bytes: ListOf<u8>,
        /// The bytes for the console.
        console: ListOf<u8>,
    },
    /// The call waits.
    NotReady,
}

/// Serves a call on a copy of the kernel part, where `given` are the bytes that the call reads.
pub fn serve_slowly(
    alloc: Global,
    k: &PlainKernel,
    p: VPid,
    t: Tid,
    request: &Request,
    given: &[u8],
) -> Result<Served, AllocError>
    requires { length given.now ≤ TRANSFER_LIMIT }
    ensures { IfOk result (λ served. serve k.now p t.0 request.now given.now ≡ served_told served) }
{
    let mut kernel = Box::new(alloc, k.duplicate(alloc)?)?;
    let Some(answer) = plain_rows::serve(&mut kernel, alloc, p, t, request, given)? else {
        return Ok(Served::NotReady);
    };
    let console = shown(alloc, answer.is_shown, given)?;
    Ok(Served::Done {
        kernel: Box::into_inner(kernel),
        reply: answer.reply,
        bytes: answer.bytes,
        console,
    })
}

/// The bytes for the console.
fn shown(alloc: Global, is_shown: bool, given: &[u8]) -> Result<ListOf<u8>, AllocError>
    ensures { IfOk result (λ shown. shown ≡ (if is_shown then given.now else [])) }
{
    let shown: &[u8] = if is_shown { given } else { &[] };
    Ok(ListOf::from_vec(shown.to_vec(alloc)?))
}
