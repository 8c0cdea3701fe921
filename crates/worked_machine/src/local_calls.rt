// What calls leave and answer that a process answers alone, where one page may be read, written and executed.
use crate::process::{Step, THREAD, follow, with_one_page};
use call_table::Request;
use plain_process::UserPart;
use std::alloc::{AllocError, Global};
use std::test::Fail;
use sys_abi::Page;

/// That process. Its heap begins at 0x20000, and the word at 0x10000 is 5.
fn user(alloc: Global) -> Result<Box<UserPart>, AllocError> {
    let mut page = Page::zeroed(alloc)?;
    page.set_byte(0, 5);
    Ok(Box::new(alloc, with_one_page(alloc, page, 0x20000)?)?)
}

const PLACE: Request = Request::SetTidAddress { place: 0x10008 };

const BRK: Request = Request::Brk { address: 0x22001 };

/// Two pages at the first place for mappings.
const MAP: Request = Request::Mmap {
    address: 0,
    length: 5000,
    protection: 3,
    flags: 0x22,
    fd: 0xFFFF_FFFF,
    offset: 0,
};

/// Asks for the mask, at an address that may be written.
const MASK: Request = Request::RtSigprocmask {
    how: 0,
    set: 0,
    old_set: 0x10010,
    size: 8,
};

/// Asks for it where no page is.
const MASK_NOWHERE: Request = Request::RtSigprocmask {
    how: 0,
    set: 0,
    old_set: 0x50000,
    size: 8,
};

/// Waits on the word, where that is 6.
const WAIT_FOR_6: Request = Request::Futex {
    address: 0x10000,
    operation: 0,
    value: 6,
    timeout: 0,
};

const WAIT_FOR_5: Request = Request::Futex {
    address: 0x10000,
    operation: 0,
    value: 5,
    timeout: 0,
};

const WAKE: Request = Request::Futex {
    address: 0x10000,
    operation: 1,
    value: 9,
    timeout: 0,
};

/// A call's errors, as they stand in a0.
const EAGAIN: u32 = 0xFFFF_FFF5;

const EFAULT: u32 = 0xFFFF_FFF2;

const EINVAL: u32 = 0xFFFF_FFEA;

static EACH_CALL: [Step; 10] = [
    Step::Call(PLACE, THREAD.0),
    Step::Call(Request::Gettid, THREAD.0),
    Step::Call(Request::SchedYield, 0),
    Step::Call(BRK, 0x22001),
    Step::Pages(4),
    Step::Call(MAP, 0x4000_0000),
    Step::Pages(6),
    Step::Call(MASK, 0),
    Step::Call(MASK_NOWHERE, EFAULT),
    Step::Call(Request::RtSigreturn, EINVAL),
];

#[test]
fn each_call_answers_its_word(rt: HostRuntime) -> Result<(), Fail> {
    let mut user = user(rt.alloc())?;
    follow(&rt, &mut user, &EACH_CALL);
    Ok(())
}

static WAITS_ON_A_WORD: [Step; 6] = [
    Step::Call(WAIT_FOR_6, EAGAIN),
    Step::Waiters(0),
    Step::Call(WAIT_FOR_5, EAGAIN),
    Step::Waiters(1),
    Step::Call(WAKE, 1),
    Step::Waiters(0),
];

#[test]
fn a_thread_waits_on_a_word_that_is_as_expected(rt: HostRuntime) -> Result<(), Fail> {
    let mut user = user(rt.alloc())?;
    follow(&rt, &mut user, &WAITS_ON_A_WORD);
    Ok(())
}
