//! Assertions that several modules make.
ghost use Rattle.std.specs.Prelude.{◌≡◌, ◌<◌, ◌≤◌, true, length};

use std::process::Abort;
use sys_abi::{Dir, Transfer};
use wire_net::Net;

pub(crate) fn holds(rt: &impl Abort, is_so: bool)
    ensures { is_so ≡ true }
{
    assert!(rt; is_so);
}

/// What is read from a direction, of at most so many bytes.
pub(crate) fn reads(
    rt: &impl Abort,
    net: &mut Net,
    d: Dir,
    n: u32,
    xfer: &mut Transfer,
    want: &[u8],
)
    requires side { d.side < 2 }
    requires fits { n ≤ 65536 }
    requires few { length want.now ≤ 65536 }
{
    holds(rt, net.receive(d, n, xfer) == Ok(want.len() as u32));
    holds(rt, xfer.as_slice() == want);
}
