//! Two channels are published, and looked up.
use crate::checks::holds;
use discovery::Directory;
use std::process::Abort;
use sys_abi::{ConnId, RealAddr, VPid};

const FIRST: ConnId = ConnId {
    pid: VPid(40000),
    num: 0,
};

const SECOND: ConnId = ConnId {
    pid: VPid(40000),
    num: 1,
};

const HERE: RealAddr = RealAddr {
    node: 0,
    port: 20000,
};

const THERE: RealAddr = RealAddr {
    node: 1,
    port: 20000,
};

fn publish(rt: &impl Abort, directory: &mut Directory) {
    holds(rt, directory.find(FIRST).is_none());
    holds(rt, !directory.asked(FIRST));
    holds(rt, directory.publish(FIRST, HERE).is_ok());
    holds(rt, directory.publish(SECOND, THERE).is_ok());
    holds(rt, !directory.asked(FIRST));
    holds(rt, directory.find(FIRST) == Some(HERE));
    holds(rt, directory.asked(FIRST));
    holds(rt, !directory.asked(SECOND));
    holds(rt, directory.publish(FIRST, THERE).is_ok());
    holds(rt, !directory.asked(FIRST));
    holds(rt, directory.find(FIRST) == Some(THERE));
    holds(rt, directory.find(SECOND) == Some(THERE));
}

#[test]
fn the_last_publication_counts(rt: HostRuntime) {
    let mut directory = Directory::new(rt.alloc());
    publish(&rt, &mut directory);
}
