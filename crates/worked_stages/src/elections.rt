//! Two processes share a description, and vote.
ghost use Rattle.std.specs.Prelude.{◌<◌};

use crate::checks::holds;
use fd_book::{Book, Desc, Object};
use leader_vote::{leader, vote};
use std::process::Abort;
use sys_abi::{DescId, Fd, RealPid, VPid};

const PARENT: RealPid = RealPid { node: 0, pid: 1000 };

const CHILD: RealPid = RealPid { node: 0, pid: 1001 };

const STRANGER: RealPid = RealPid { node: 1, pid: 1000 };

const CONSOLE: Desc = Desc {
    object: Object::Console,
    flags: 2,
    owner: None,
};

fn name(num: u32) -> DescId {
    DescId {
        pid: VPid(40000),
        num,
    }
}

/// Puts a descriptor at a number, and tells whether it was free and the descriptor is there now.
fn place(book: &mut Book, p: RealPid, fd: u32, num: u32) -> bool
    requires { fd < 256 }
{
    book.get(p, Fd(fd)).is_none() && book.place_at(p, Fd(fd), name(num), CONSOLE, false).is_ok()
}

/// The parent holds description 0, and the child too, which holds description 1 alone.
fn both_vote(rt: &impl Abort, book: &mut Book) {
    holds(rt, place(book, PARENT, 0, 0));
    holds(rt, place(book, CHILD, 255, 0));
    holds(rt, place(book, CHILD, 3, 1));
    holds(rt, leader(book, name(0)).is_none());
    vote(book, PARENT);
    holds(rt, leader(book, name(0)) == Some(PARENT));
    vote(book, CHILD);
    holds(rt, leader(book, name(0)) == Some(CHILD));
    vote(book, PARENT);
    holds(rt, leader(book, name(0)) == Some(PARENT));
    holds(rt, leader(book, name(1)) == Some(CHILD));
}

#[test]
fn the_last_setter_leads(rt: HostRuntime) {
    let mut book = Book::new(rt.alloc());
    both_vote(&rt, &mut book);
}

/// The parent holds description 0.
fn one_votes(rt: &impl Abort, book: &mut Book) {
    holds(rt, place(book, PARENT, 0, 0));
    vote(book, STRANGER);
    holds(rt, leader(book, name(0)).is_none());
    holds(rt, leader(book, name(7)).is_none());
    book.set_owner(name(0), Some(CHILD));
    vote(book, PARENT);
    holds(rt, leader(book, name(0)) == Some(PARENT));
}

#[test]
fn a_voter_leads_only_what_it_holds(rt: HostRuntime) {
    let mut book = Book::new(rt.alloc());
    one_votes(&rt, &mut book);
}
