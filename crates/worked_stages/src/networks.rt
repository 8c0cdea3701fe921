//! Calls of the network alone. A call that only gave up for want of memory would meet its contract, so each
//! is made here with memory to spare.
use crate::channel::{CONN, FIRST, SECOND, one_channel};
use crate::checks::{holds, reads};
use std::process::Abort;
use std::test::Fail;
use sys_abi::{RealAddr, Transfer};
use wire_net::{Net, NetFault, Place};

const PORT: RealAddr = RealAddr {
    node: 1,
    port: 20_000,
};

fn pass(rt: &impl Abort, net: &mut Net, xfer: &mut Transfer) {
    holds(rt, net.send(FIRST, b"hello") == Ok(5));
    holds(rt, net.move_bytes(FIRST, Place::Send, 4) == 4);
    holds(rt, net.move_bytes(FIRST, Place::Wire, 3) == 3);
    reads(rt, net, FIRST, 2, xfer, b"he");
    holds(rt, net.has(CONN));
    net.peek(FIRST, xfer);
    holds(rt, xfer.as_slice() == b"l".as_slice());
}

#[test]
fn bytes_pass_three_queues(rt: HostRuntime) -> Result<(), Fail> {
    let mut xfer = Transfer::new(rt.alloc())?;
    let mut net = one_channel(&rt, rt.alloc())?;
    pass(&rt, &mut net, &mut xfer);
    Ok(())
}

fn count(rt: &impl Abort, net: &mut Net) {
    holds(rt, net.send(SECOND, b"abc") == Ok(3));
    holds(rt, net.move_bytes(SECOND, Place::Send, 9) == 3);
    holds(rt, net.send(SECOND, b"d") == Ok(1));
    holds(rt, net.counts(SECOND) == [1, 3, 0]);
    holds(rt, net.carried(SECOND) == 4);
}

#[test]
fn bytes_are_counted(rt: HostRuntime) -> Result<(), Fail> {
    let mut net = one_channel(&rt, rt.alloc())?;
    count(&rt, &mut net);
    Ok(())
}

fn end(rt: &impl Abort, net: &mut Net, xfer: &mut Transfer) {
    holds(rt, net.send(FIRST, b"x") == Ok(1));
    net.end(FIRST);
    holds(rt, net.is_ended(FIRST));
    holds(rt, net.send(FIRST, b"y") == Err(NetFault::Ended));
    holds(rt, net.receive(FIRST, 1, xfer) == Err(NetFault::NotReady));
    holds(rt, net.move_bytes(FIRST, Place::Send, 1) == 1);
    holds(rt, net.move_bytes(FIRST, Place::Wire, 1) == 1);
    reads(rt, net, FIRST, 1, xfer, b"x");
    reads(rt, net, FIRST, 1, xfer, b"");
    holds(rt, net.is_ended(FIRST));
}

#[test]
fn ended_directions_are_read_to_their_end(rt: HostRuntime) -> Result<(), Fail> {
    let mut xfer = Transfer::new(rt.alloc())?;
    let mut net = one_channel(&rt, rt.alloc())?;
    end(&rt, &mut net, &mut xfer);
    Ok(())
}

fn stop_reading(rt: &impl Abort, net: &mut Net, xfer: &mut Transfer) {
    holds(rt, net.send(FIRST, b"x") == Ok(1));
    net.end(FIRST);
    holds(rt, net.receive(FIRST, 1, xfer) == Err(NetFault::NotReady));
    net.stop_reading(FIRST);
    holds(rt, net.is_unread(FIRST));
    holds(rt, net.counts(FIRST) == [0, 0, 0]);
    reads(rt, net, FIRST, 1, xfer, b"");
}

#[test]
fn directions_that_nobody_reads_are_emptied(rt: HostRuntime) -> Result<(), Fail> {
    let mut xfer = Transfer::new(rt.alloc())?;
    let mut net = one_channel(&rt, rt.alloc())?;
    stop_reading(&rt, &mut net, &mut xfer);
    Ok(())
}

/// Somebody listens at the port, where one connection may wait, and the channel is connected.
fn connect(rt: &impl Abort, net: &mut Net) {
    holds(rt, net.listen(1, 1) == Ok(PORT));
    holds(rt, net.backlog(PORT) == Some(1));
    holds(rt, !net.has(CONN));
    holds(rt, net.connect(CONN, PORT) == Ok(()));
}

fn accept(rt: &impl Abort, net: &mut Net) {
    holds(rt, net.queued(PORT, 0) == Some(CONN));
    holds(rt, net.backlog(PORT).is_some());
    holds(rt, net.accept(PORT) == Ok(CONN));
    holds(rt, net.backlog(PORT).is_some());
    holds(rt, net.accept(PORT) == Err(NetFault::NotReady));
}

#[test]
fn connections_wait_to_be_accepted(rt: HostRuntime) -> Result<(), Fail> {
    let mut net = Net::new(rt.alloc(), 2, 20_000)?;
    connect(&rt, &mut net);
    accept(&rt, &mut net);
    Ok(())
}

/// Both ends are closed, the accepting one with its listener.
fn close(rt: &impl Abort, net: &mut Net) {
    net.close_end(CONN, 0);
    holds(rt, net.is_ended(FIRST));
    holds(rt, net.is_unread(SECOND));
    net.close_listener(PORT);
    holds(rt, !net.has(CONN));
    holds(rt, net.send(SECOND, b"x") == Err(NetFault::NotConnected));
}

#[test]
fn a_channel_goes_with_its_last_end(rt: HostRuntime) -> Result<(), Fail> {
    let mut net = Net::new(rt.alloc(), 2, 20_000)?;
    connect(&rt, &mut net);
    close(&rt, &mut net);
    Ok(())
}
