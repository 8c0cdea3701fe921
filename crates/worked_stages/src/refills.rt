//! Refills of one channel between two processes, with what was drained of it.
ghost use Rattle.std.specs.Prelude.{◌≡◌, ◌≤◌, ◌++◌, ◌∷◌, [], length, IfOk, OnOk};
ghost use Rattle.std.specs.FinMap as map;
ghost use Rattle.wire_channels.specs.Channels.{new_channel};
ghost use Rattle.refill_core.specs.Refills.{Fits};
ghost use Rattle.worked_stages.specs.Taken.{taken};

use crate::channel::{CLIENT, CONN, ENDS, FIRST, SECOND, SERVER, STRANGER, one_channel, tick};
use crate::checks::{holds, reads};
use refill_core::{Refill, refill_laws};
use std::alloc::{AllocError, Global};
use std::process::Abort;
use std::test::Fail;
use sys_abi::{Dir, Transfer};
use views::list_of::ListOf;
use wire_net::{CutRoom, DirBytes, DrainedNet, Net, Stepped};

/// Puts what was drained of a direction.
fn put(lists: &mut Vec<DirBytes>, alloc: Global, dir: Dir, text: &[u8]) -> Result<(), AllocError>
    ensures { OnOk result (lists.new.items ≡ lists.old.items ++ taken dir text.now ∷ []) }
{
    let bytes = ListOf::from_vec(text.to_vec(alloc)?);
    Ok(lists.push(DirBytes {
        dir,
        bytes,
        in_place: false,
    })?)
}

/// What was drained of both directions. The second list comes first.
fn both(alloc: Global, first: &[u8], second: &[u8]) -> Result<DrainedNet, AllocError>
    ensures { IfOk result (λ drained. drained.lists ≡ taken SECOND second.now ∷ taken FIRST first.now ∷ []) }
{
    let mut lists = Vec::new(alloc);
    put(&mut lists, alloc, SECOND, second)?;
    put(&mut lists, alloc, FIRST, first)?;
    Ok(DrainedNet {
        lists: ListOf::from_vec(lists),
    })
}

/// A refill of both directions with these bytes.
fn begin(alloc: Global, net: &Net, first: &[u8], second: &[u8]) -> Result<Refill, AllocError>
    requires net { net.now.channels ≡ map.insert map.empty CONN new_channel }
    requires first { length first.now ≤ 65536 }
    requires second { length second.now ≤ 65536 }
    ensures { IfOk result (λ refill. Fits net.now.channels refill) }
{
    let drained = both(alloc, first, second)?;
    let lengths = [(FIRST, first.len() as u32), (SECOND, second.len() as u32)];
    let room = CutRoom::reserve(alloc, &lengths)?;
    Ok(Refill::begin(room, drained, &ENDS))
}

/// Both agents make a step, and the wire moves.
fn round(net: &mut Net, refill: &mut Refill)
    requires { Fits net.old.channels refill.old }
    ensures { Fits net.new.channels refill.new }
{
    refill_laws();
    refill.step(net, CLIENT);
    refill.step(net, SERVER);
    tick(net);
}

fn go_on(net: &mut Net, refill: &mut Refill)
    requires { Fits net.old.channels refill.old }
    ensures { Fits net.new.channels refill.new }
{
    for _round in 0..12 {
        round(net, refill);
    }
}

/// The refill goes on until it is done, and is ended.
pub(crate) fn finish(rt: &impl Abort, net: &mut Net, mut refill: Refill)
    requires { Fits net.old.channels refill }
{
    go_on(net, &mut refill);
    holds(rt, refill.is_done(net));
    holds(rt, !refill.has_work(net, CLIENT));
    refill.finish(net);
}

fn fills(rt: &(impl Abort + AllocGlobal), net: &mut Net) -> Result<(), Fail>
    requires { net.old.channels ≡ map.insert map.empty CONN new_channel }
{
    let refill = begin(rt.alloc(), net, b"hello", b"good morning")?;
    finish(rt, net, refill);
    let mut xfer = Transfer::new(rt.alloc())?;
    reads(rt, net, FIRST, 100, &mut xfer, b"hello");
    reads(rt, net, SECOND, 100, &mut xfer, b"good morning");
    holds(rt, net.carried(FIRST) == 21);
    holds(rt, net.carried(SECOND) == 21);
    Ok(())
}

#[test]
fn both_ways_are_filled_again(rt: HostRuntime) -> Result<(), Fail> {
    let mut net = one_channel(&rt, rt.alloc())?;
    fills(&rt, &mut net)
}

/// The client sends the length and the rest of the frame of the other direction, and waits then.
fn first_steps(rt: &impl Abort, net: &mut Net, refill: &mut Refill)
    requires { Fits net.old.channels refill.old }
{
    holds(rt, refill.step(net, STRANGER) == Stepped::Finished);
    holds(rt, refill.step(net, CLIENT) == Stepped::Moved);
    holds(rt, net.counts(FIRST) == [4, 0, 0]);
    holds(rt, refill.step(net, CLIENT) == Stepped::Moved);
    holds(rt, net.counts(FIRST) == [16, 0, 0]);
    holds(rt, refill.step(net, CLIENT) == Stepped::Again);
    holds(rt, refill.has_work(net, CLIENT));
    holds(rt, !refill.is_done(net));
}

#[test]
fn an_agent_sends_the_frame_first_and_waits_for_its_own_bytes(rt: HostRuntime) -> Result<(), Fail> {
    let mut net = one_channel(&rt, rt.alloc())?;
    let mut refill = begin(rt.alloc(), &net, b"hello", b"good morning")?;
    first_steps(&rt, &mut net, &mut refill);
    Ok(())
}
