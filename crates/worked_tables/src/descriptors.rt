// The book of descriptors and open descriptions.
use crate::asserting::holds;
use fd_book::{Book, BookFault, Desc, Object};
use std::alloc::{AllocGlobal, Global};
use std::process::Abort;
use sys_abi::{DescId, Fd, RealPid, VPid};

const PARENT: RealPid = RealPid { node: 0, pid: 1000 };

const CHILD: RealPid = RealPid { node: 0, pid: 1001 };

const CONSOLE: Desc = Desc {
    object: Object::Console,
    flags: 2,
    owner: None,
};

const MAKER: VPid = VPid(40000);

const ZEROTH: DescId = DescId { pid: MAKER, num: 0 };

const FIRST: DescId = DescId { pid: MAKER, num: 1 };

const THIRD: DescId = DescId { pid: MAKER, num: 3 };

const FOURTH: DescId = DescId { pid: MAKER, num: 4 };

fn name(num: u32) -> DescId {
    DescId { pid: MAKER, num }
}

/// A new description at the lowest free number of the parent; `BadFd` where it is there already.
fn place(book: &mut Book, num: u32, cloexec: bool) -> Result<Fd, BookFault> {
    let id = name(num);
    if book.desc(id).is_some() {
        return Err(BookFault::BadFd);
    }
    book.place(PARENT, id, CONSOLE, cloexec)
}

/// A descriptor at a number; `BadFd` where the number is not free.
fn place_at(book: &mut Book, p: RealPid, fd: u32, num: u32) -> Result<(), BookFault> {
    if fd >= 256 || book.get(p, Fd(fd)).is_some() {
        return Err(BookFault::BadFd);
    }
    Ok(book.place_at(p, Fd(fd), name(num), CONSOLE, false)?)
}

/// `dup_to` where its conditions hold, else `TooMany`.
fn dup_to(book: &mut Book, fd: u32, to: u32) -> Result<Option<DescId>, BookFault> {
    if to >= 256 || to == fd {
        return Err(BookFault::TooMany);
    }
    book.dup_to(PARENT, Fd(fd), Fd(to), false)
}

/// Whether the descriptor 0 is doubled until the parent has 256.
fn fills(book: &mut Book) -> bool {
    let mut all = true;
    for number in 1..256 {
        all &= book.dup(PARENT, Fd(0)) == Ok(Fd(number));
    }
    all && book.free(PARENT) == 0
}

/// Whether a child has the parent's descriptors once they are forked for it; not where it has one before.
fn is_forked(alloc: Global, book: &mut Book) -> bool {
    if book.next_fd(CHILD, None).is_some() {
        return false;
    }
    let is_done = book.fork_table(PARENT, CHILD).is_ok()
        && book.cloexec(CHILD, Fd(1)) == Some(true);
    match book.holders(alloc, FIRST) {
        Ok(holders) => is_done && holders.as_slice() == [PARENT, CHILD].as_slice(),
        Err(_) => false,
    }
}

/// Whether descriptors that are put at their numbers are found there.
fn are_put_back(book: &mut Book) -> bool {
    place_at(book, PARENT, 255, 5).is_ok()
        && place_at(book, PARENT, 2, 5).is_ok()
        && place_at(book, CHILD, 0, 3).is_ok()
        && book.free(PARENT) == 254
        && book.next_fd(PARENT, Some(Fd(2))) == Some(Fd(255))
        && book.next_fd(PARENT, Some(Fd(255))).is_none()
        && book.next_desc(None) == Some(THIRD)
        && book.next_desc(Some(THIRD)) == Some(name(5))
}

const COUNTER: Desc = Desc {
    object: Object::Counter { value: 3 },
    flags: 0x802,
    owner: Some(CHILD),
};

/// Whether what is set of the description 5 and of the descriptor 0 is so then.
fn is_changed(book: &mut Book) -> bool {
    book.set_owner(name(5), Some(CHILD));
    book.set_flags(name(5), 0x802);
    book.set_object(name(5), Object::Counter { value: 3 });
    book.set_cloexec(PARENT, Fd(0), true);
    book.desc(name(5)).copied() == Some(COUNTER)
        && book.owner(name(5)) == Some(CHILD)
        && book.cloexec(PARENT, Fd(0)) == Some(true)
}

const FILE: Object = Object::File {
    number: 4,
    offset: 9,
};

/// Whether the descriptions 5 and 6, owned by the child and the parent, lose an owner that goes.
fn is_disowned(book: &mut Book) -> bool {
    book.set_owner(name(5), Some(CHILD));
    book.set_owner(name(6), Some(PARENT));
    book.set_object(name(6), FILE);
    let is_found = book.has_file(4) && !book.has_file(9);
    book.disown(CHILD);
    book.whole();
    is_found && book.owner(name(5)).is_none() && book.owner(name(6)) == Some(PARENT)
}

/// Calls and what they answer. Where none is named the process is the parent, and the descriptor 0.
enum Step {
    Place(u32, bool, Result<Fd, BookFault>),
    /// The descriptor is doubled until none of the numbers is free.
    Fill,
    Dup(u32, Result<Fd, BookFault>),
    /// At this number or above, to be closed on exec.
    DupFrom(u32, Result<Fd, BookFault>),
    DupTo(u32, u32, Result<Option<DescId>, BookFault>),
    /// The description is gone, and the descriptor is of another one.
    Replaced(DescId, u32, DescId),
    Close(RealPid, u32, Result<Option<DescId>, BookFault>),
    /// The descriptor is closed on exec.
    Cloexec(u32),
    Forked,
    EndTable(RealPid, Option<(Fd, Option<DescId>)>),
    /// No description is left.
    Empty,
    PutBack,
    Changed,
    Disowned,
}

/// Whether the step is answered so.
fn answers(alloc: Global, book: &mut Book, step: &Step) -> bool {
    match *step {
        Step::Place(num, cloexec, answer) => place(book, num, cloexec) == answer,
        Step::Fill => fills(book),
        Step::Dup(fd, answer) => book.dup(PARENT, Fd(fd)) == answer,
        Step::DupFrom(least, answer) => book.dup_from(PARENT, Fd(0), least, true) == answer,
        Step::DupTo(fd, to, answer) => dup_to(book, fd, to) == answer,
        Step::Replaced(gone, fd, id) => {
            book.desc(gone).is_none() && book.get(PARENT, Fd(fd)) == Some(id)
        }
        Step::Close(process, fd, answer) => book.close(process, Fd(fd)) == answer,
        Step::Cloexec(fd) => book.cloexec(PARENT, Fd(fd)) == Some(true),
        Step::Forked => is_forked(alloc, book),
        Step::EndTable(process, answer) => book.end_table(process) == answer,
        Step::Empty => book.next_desc(None).is_none(),
        Step::PutBack => are_put_back(book),
        Step::Changed => is_changed(book),
        Step::Disowned => is_disowned(book),
    }
}

/// Each call of a new book answers so.
fn follow(rt: &(impl Abort + AllocGlobal), steps: &[Step]) {
    let mut book = Book::new(rt.alloc());
    for step in steps {
        holds(rt, answers(rt.alloc(), &mut book, step));
    }
}

#[rattlefmt::skip]
static FULL: [Step; 10] = [
    Step::Place(0, false, Ok(Fd(0))), Step::Fill, Step::Dup(0, Err(BookFault::TooMany)),
    Step::Place(1, false, Err(BookFault::TooMany)), Step::Dup(256, Err(BookFault::BadFd)),
    Step::Close(PARENT, 7, Ok(None)), Step::Close(PARENT, 7, Err(BookFault::BadFd)),
    Step::DupFrom(8, Err(BookFault::TooMany)), Step::DupFrom(7, Ok(Fd(7))), Step::Cloexec(7),
];

#[test]
fn up_to_256_descriptors_at_the_lowest_free_numbers(rt: HostRuntime) {
    follow(&rt, &FULL);
}

#[rattlefmt::skip]
static PUT_OVER: [Step; 12] = [
    Step::Place(0, false, Ok(Fd(0))), Step::Place(1, false, Ok(Fd(1))),
    Step::Place(2, false, Ok(Fd(2))), Step::Place(3, false, Ok(Fd(3))), Step::DupTo(3, 9, Ok(None)),
    Step::Place(4, true, Ok(Fd(4))), Step::DupTo(3, 4, Ok(Some(FOURTH))),
    Step::Replaced(FOURTH, 4, THIRD), Step::DupTo(3, 4, Ok(None)),
    Step::DupTo(8, 4, Err(BookFault::BadFd)), Step::Close(PARENT, 1, Ok(Some(FIRST))),
    Step::Place(4, false, Ok(Fd(1))),
];

#[test]
fn a_descriptor_put_over_an_open_one(rt: HostRuntime) {
    follow(&rt, &PUT_OVER);
}

#[rattlefmt::skip]
static CLOSED_BY_EACH: [Step; 9] = [
    Step::Place(0, false, Ok(Fd(0))), Step::Place(1, true, Ok(Fd(1))), Step::Forked,
    Step::Close(CHILD, 1, Ok(None)), Step::Close(PARENT, 1, Ok(Some(FIRST))),
    Step::EndTable(PARENT, Some((Fd(0), None))), Step::EndTable(PARENT, None),
    Step::EndTable(CHILD, Some((Fd(0), Some(ZEROTH)))), Step::Empty,
];

#[test]
fn a_description_of_two_processes_closed_by_each(rt: HostRuntime) {
    follow(&rt, &CLOSED_BY_EACH);
}

#[test]
fn descriptors_put_back_at_their_numbers(rt: HostRuntime) {
    follow(&rt, &[Step::PutBack]);
}

#[test]
fn descriptions_and_flags_are_changed(rt: HostRuntime) {
    follow(&rt, &[Step::Place(5, false, Ok(Fd(0))), Step::Changed]);
}

static OWNERS: [Step; 3] = [
    Step::Place(5, false, Ok(Fd(0))),
    Step::Place(6, false, Ok(Fd(1))),
    Step::Disowned,
];

#[test]
fn a_file_and_the_owners_of_descriptions(rt: HostRuntime) {
    follow(&rt, &OWNERS);
}
