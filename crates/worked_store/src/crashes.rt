// Two sets put one after another, with a crash or a fault of the folder at each call.
use crate::asserts::holds;
use crate::folders::left_after;
use image_store::{SetBytes, Store, StoreFault};
use set_disk::MemFolder;
use std::alloc::{AllocError, Global};
use std::process::Abort;
use std::test::Fail;
use views::list_of::ListOf;

pub static FIRST: [&str; 2] = ["shared", "process"];

static SECOND: [&str; 3] = ["SHARED", "", "third"];

pub fn set_of(alloc: Global, texts: &[&str]) -> Result<SetBytes, AllocError> {
    let mut files = Vec::new(alloc);
    for text in texts {
        files.push(ListOf::from_vec(text.as_bytes().to_vec(alloc)?))?;
    }
    Ok(SetBytes::of_files(ListOf::from_vec(files)))
}

fn has_files(set: &SetBytes, texts: &[&str]) -> bool {
    if set.files.len() != texts.len() {
        return false;
    }
    for (file, text) in set.files.iter().zip(texts) {
        if file.as_slice() != text.as_bytes() {
            return false;
        }
    }
    true
}

/// Whether the set that counts has these files.
pub fn counts_with(
    alloc: Global,
    folder: &mut MemFolder,
    texts: &[&str],
) -> Result<bool, StoreFault> {
    let store = Store::open_store(alloc, folder, 0)?;
    let set = store.get_set(alloc, folder)?;
    Ok(has_files(&set, texts))
}

/// The slot and the generation of the set that counts.
pub fn counting(alloc: Global, folder: &mut MemFolder) -> Result<Option<(u32, u64)>, StoreFault> {
    let store = Store::open_store(alloc, folder, 0)?;
    match store.last() {
        Some(info) => Ok(Some((info.slot, info.generation))),
        None => Ok(None),
    }
}

/// Whether this generation's set counts, with its files, or none at 0.
fn counts(alloc: Global, folder: &mut MemFolder, generation: u64) -> Result<bool, StoreFault> {
    let found = match counting(alloc, folder)? {
        Some((_, found)) => found,
        None => 0,
    };
    if found != generation {
        return Ok(false);
    }
    match generation {
        0 => Ok(true),
        1 => counts_with(alloc, folder, &FIRST),
        _ => counts_with(alloc, folder, &SECOND),
    }
}

/// Asserts which set counts after a crash right after the call.
fn assert_left(
    rt: &(impl Abort + AllocGlobal),
    folder: &MemFolder,
    call: u64,
    pattern: u8,
    generation: u64,
) -> Result<(), AllocError> {
    let mut left = left_after(rt, folder, call, pattern)?;
    holds(rt, counts(rt.alloc(), &mut left, generation) == Ok(true));
    Ok(())
}

/// Opens an empty folder and puts both sets. Counts the sets that were put.
#[tactic(auto, unfolding(image_store::specs::StoreStates::generation_after))]
fn put_both(
    rt: &(impl Abort + AllocGlobal),
    folder: &mut MemFolder,
    first: &SetBytes,
    second: &SetBytes,
    done: &mut u64,
) -> Result<(), StoreFault> {
    let alloc = rt.alloc();
    let store = Store::open_store(alloc, folder, 0)?;
    holds(rt, store.last().is_none());
    holds(rt, first.files.len() == 2);
    holds(rt, second.files.len() == 3);
    let (store, one) = store.put_set(alloc, folder, first)?;
    *done = one;
    let (store, two) = store.put_set(alloc, folder, second)?;
    *done = two;
    let set = store.get_set(alloc, folder)?;
    holds(rt, has_files(&set, &SECOND));
    Ok(())
}

/// Puts both sets into an empty folder. Counts the sets that were put.
fn run(
    rt: &(impl Abort + AllocGlobal),
    folder: &mut MemFolder,
    done: &mut u64,
) -> Result<(), StoreFault> {
    let first = set_of(rt.alloc(), &FIRST)?;
    let second = set_of(rt.alloc(), &SECOND)?;
    put_both(rt, folder, &first, &second, done)
}

/// Asserts what a crash in this pattern leaves. The sets are put by the calls 4 to 14 and 15 to 27.
fn assert_pattern(
    rt: &(impl Abort + AllocGlobal),
    folder: &MemFolder,
    pattern: u8,
    written: u64,
) -> Result<(), AllocError> {
    for call in 14..26 {
        assert_left(rt, folder, call, pattern, 1)?;
    }
    assert_left(rt, folder, 26, pattern, written)?;
    assert_left(rt, folder, 27, pattern, 2)
}

/// A pattern, and which set counts after a crash at the write that opens the gate. Pattern 1 alone keeps it.
static PATTERNS: [(u8, u64); 3] = [(0, 1), (1, 2), (2, 1)];

#[test]
fn a_crash_leaves_the_old_set_or_the_new(rt: HostRuntime) -> Result<(), Fail> {
    let mut folder = MemFolder::new(rt.alloc(), &[])?;
    let mut done = 0;
    let answer = run(&rt, &mut folder, &mut done);
    holds(&rt, answer == Ok(()) && done == 2 && folder.calls() == 34);
    for (pattern, written) in &PATTERNS {
        holds(
            &rt,
            assert_pattern(&rt, &folder, *pattern, *written).is_ok(),
        );
    }
    Ok(())
}

/// Asserts that a run is refused of which this call fails, and which set counts then.
fn assert_refused(rt: &(impl Abort + AllocGlobal), call: u64) -> Result<(), AllocError> {
    let mut folder = MemFolder::new(rt.alloc(), &[call])?;
    let mut done = 0;
    let answer = run(rt, &mut folder, &mut done);
    holds(rt, answer == Err(StoreFault::DiskFault));
    // At the last sync of a set its gate is open, so the set counts though its call failed.
    let generation = match call {
        14 | 27 => done.saturating_add(1),
        _ => done,
    };
    holds(rt, counts(rt.alloc(), &mut folder, generation) == Ok(true));
    Ok(())
}

#[test]
fn each_call_of_the_folder_fails_once(rt: HostRuntime) {
    for call in 1..35 {
        holds(&rt, assert_refused(&rt, call).is_ok());
    }
}
