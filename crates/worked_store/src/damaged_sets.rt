// Which set counts, and where it is damaged.
use crate::asserts::holds;
use crate::crashes::{FIRST, counting, set_of};
use image_store::{Damage, Store, StoreFault};
use set_disk::{DiskFault, FileName, Folder, MemFolder};
use std::alloc::{AllocError, Global};
use std::process::Abort;
use std::test::Fail;

/// The front of a manifest by slot, and the slot and the generation of the set that counts.
type Row = ([&'static [u8]; 2], Option<(u32, u64)>);

const FIVE: &[u8] = b"\x01DMTSET1\x05\0\0\0\0\0\0\0";

static ROWS: [Row; 8] = [
    ([b"", b""], None),
    ([FIVE, b""], Some((0, 5))),
    ([FIVE, FIVE], Some((0, 5))),
    ([FIVE, b"\x01DMTSET1\x06\0\0\0\0\0\0\0"], Some((1, 6))),
    ([FIVE, b"\xA5DMTSET1\x06\0\0\0\0\0\0\0"], Some((0, 5))),
    ([FIVE, b"\x01DMTSET1\x06\0\0\0\0\0\0"], Some((0, 5))),
    (
        [FIVE, b"\x01any way\0\x01\0\0\0\0\0\0 more"],
        Some((1, 256)),
    ),
    ([b"\0DMTSET1\x05\0\0\0\0\0\0\0", b"\x01"], None),
];

fn manifest_of(slot: u32) -> FileName {
    FileName { slot, index: 0 }
}

/// Whether that set counts in a folder with these fronts.
fn counts_so(alloc: Global, row: &Row) -> Result<bool, AllocError> {
    let ([first, second], want) = row;
    let mut folder = MemFolder::new(alloc, &[])?;
    Ok(
        folder.write_at(manifest_of(0), 0, first).is_ok()
            && folder.write_at(manifest_of(1), 0, second).is_ok()
            && counting(alloc, &mut folder) == Ok(*want),
    )
}

#[test]
fn which_set_counts(rt: HostRuntime) {
    for row in &ROWS {
        holds(&rt, counts_so(rt.alloc(), row) == Ok(true));
    }
}

/// Writes over a file of slot 0, or cuts it.
#[derive(Clone, Copy)]
enum Change {
    Write(u32, u64, &'static str),
    Cut(u32, u64),
}

fn make(folder: &mut MemFolder, change: &Change) -> Result<(), DiskFault> {
    match *change {
        Change::Write(index, at, text) => {
            folder.write_at(FileName { slot: 0, index }, at, text.as_bytes())
        }
        Change::Cut(index, len) => folder.cut(FileName { slot: 0, index }, len),
    }
}

/// Puts the first set into an empty folder.
#[tactic(auto, unfolding(image_store::specs::StoreStates::generation_after))]
fn put_first(rt: &(impl Abort + AllocGlobal), folder: &mut MemFolder) -> Result<(), StoreFault> {
    let alloc = rt.alloc();
    let store = Store::open_store(alloc, folder, 0)?;
    holds(rt, store.last().is_none());
    let set = set_of(alloc, &FIRST)?;
    holds(rt, set.files.len() == 2);
    store.put_set(alloc, folder, &set)?;
    Ok(())
}

/// Why the set that counts is refused.
fn refusal(alloc: Global, folder: &mut MemFolder) -> Result<Option<StoreFault>, StoreFault> {
    let store = Store::open_store(alloc, folder, 0)?;
    Ok(store.get_set(alloc, folder).err())
}

fn damage_at(file: u32, offset: u64) -> Option<StoreFault> {
    Some(StoreFault::Damaged(Damage { file, offset }))
}

/// A change of the first set, and the file and the place at which it is damaged then.
static CHANGES: [(Change, u32, u64); 7] = [
    (Change::Write(0, 1, "d"), 0, 1),
    (Change::Cut(0, 35), 0, 35),
    (Change::Write(0, 36, "x"), 0, 36),
    (Change::Write(0, 16, "\x03"), 0, 36),
    (Change::Write(1, 6, "s"), 1, 6),
    (Change::Cut(1, 5), 1, 5),
    (Change::Cut(2, 6), 2, 6),
];

/// Whether the first set is damaged there after this change.
fn is_damaged(
    rt: &(impl Abort + AllocGlobal),
    change: &Change,
    want: Option<StoreFault>,
) -> Result<bool, AllocError> {
    let mut folder = MemFolder::new(rt.alloc(), &[])?;
    Ok(
        put_first(rt, &mut folder).is_ok()
            && make(&mut folder, change).is_ok()
            && refusal(rt.alloc(), &mut folder) == Ok(want),
    )
}

#[test]
fn where_a_set_is_damaged(rt: HostRuntime) {
    for (change, file, offset) in &CHANGES {
        let answer = is_damaged(&rt, change, damage_at(*file, *offset));
        holds(&rt, answer == Ok(true));
    }
}

/// A manifest of generation 5 with one file, which is empty.
const MANIFEST: &[u8] = b"\x01DMTSET1\x05\0\0\0\0\0\0\0\x01\0\0\0\0\0\0\0\0\0\0\0";

#[test]
fn a_missing_file_and_no_set(rt: HostRuntime) -> Result<(), Fail> {
    let alloc = rt.alloc();
    let mut folder = MemFolder::new(alloc, &[])?;
    holds(
        &rt,
        refusal(alloc, &mut folder) == Ok(Some(StoreFault::NoSet)),
    );
    holds(&rt, folder.write_at(manifest_of(1), 0, MANIFEST).is_ok());
    holds(&rt, refusal(alloc, &mut folder) == Ok(damage_at(1, 0)));
    Ok(())
}
