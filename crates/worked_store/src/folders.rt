// What a crash leaves of a file in a folder in memory.
use crate::asserts::holds;
use set_disk::{DiskFault, FileName, Folder, MemFolder};
use std::alloc::AllocError;
use std::process::Abort;

pub const NAME: FileName = FileName { slot: 0, index: 1 };

pub const OTHER: FileName = FileName { slot: 1, index: 0 };

/// What a torn write leaves in place of a byte.
const FILLER: u8 = 0xA5;

/// Whether the file has these bytes, with `#` for the filler, or is not there, where they are `-`.
pub fn shows<F: Folder>(folder: &mut F, name: FileName, want: &str) -> Result<bool, DiskFault> {
    let Some(len) = folder.len(name)? else {
        return Ok(want == "-");
    };
    let mut buffer = [0; 16];
    let Some(bytes) = buffer.get_mut(..len as usize) else {
        return Ok(false);
    };
    folder.read_at(name, 0, bytes)?;
    show_filler(bytes);
    Ok(&*bytes == want.as_bytes())
}

/// Puts `#` in place of the filler.
fn show_filler(bytes: &mut [u8]) {
    for byte in bytes {
        if *byte == FILLER {
            *byte = b'#';
        }
    }
}

/// A call on the file.
#[derive(Clone, Copy)]
enum Step {
    Write(u64, &'static str),
    Cut(u64),
    Sync,
    Len,
}

/// A call on the file, and what a crash right after it leaves of the file, by pattern.
type Row = (Step, [&'static str; 3]);

fn make(folder: &mut MemFolder, step: &Step) -> Result<(), DiskFault> {
    match step {
        Step::Write(at, text) => folder.write_at(NAME, *at, text.as_bytes()),
        Step::Cut(len) => folder.cut(NAME, *len),
        Step::Sync => folder.sync(),
        Step::Len => {
            folder.len(NAME)?;
            Ok(())
        }
    }
}

/// Makes the calls, of which those with these numbers are to fail.
fn make_each(rt: &impl Abort, folder: &mut MemFolder, fails: &[u64], rows: &[Row]) {
    let mut call = 0u64;
    for (step, _) in rows {
        call = call.wrapping_add(1);
        let fault = fails.contains(&call).then_some(DiskFault::Failed);
        holds(rt, make(folder, step).err() == fault);
    }
}

/// What a crash in this pattern leaves right after the call.
pub fn left_after(
    rt: &(impl Abort + AllocGlobal),
    folder: &MemFolder,
    call: u64,
    pattern: u8,
) -> Result<MemFolder, AllocError> {
    holds(rt, 1 <= call);
    holds(rt, call <= folder.calls());
    holds(rt, pattern < 3);
    folder.crash_image(rt.alloc(), call, pattern)
}

/// Whether a folder in which no call was made shows this of the file.
fn is_image(folder: &mut MemFolder, want: &str) -> bool {
    folder.calls() == 0 && shows(folder, NAME, want) == Ok(true)
}

/// Asserts what a crash right after the call leaves of the file, by pattern.
fn assert_images(
    rt: &(impl Abort + AllocGlobal),
    folder: &MemFolder,
    call: u64,
    images: &[&str; 3],
) -> Result<(), DiskFault> {
    let mut pattern = 0u8;
    for want in images {
        let mut left = left_after(rt, folder, call, pattern)?;
        holds(rt, is_image(&mut left, want));
        pattern = pattern.wrapping_add(1);
    }
    Ok(())
}

/// Makes the calls, of which those with these numbers are to fail, and compares what crashes leave.
fn compare(rt: &(impl Abort + AllocGlobal), fails: &[u64], rows: &[Row]) -> Result<(), DiskFault> {
    let mut folder = MemFolder::new(rt.alloc(), fails)?;
    make_each(rt, &mut folder, fails, rows);
    let mut call = 0u64;
    for (_, images) in rows {
        call = call.wrapping_add(1);
        assert_images(rt, &folder, call, images)?;
    }
    Ok(())
}

static CALLS: [Row; 13] = [
    (Step::Write(0, "abc"), ["-", "abc", "###"]),
    (Step::Sync, ["abc", "abc", "abc"]),
    (Step::Write(1, "XYZ"), ["abc", "aXYZ", "a###"]),
    (Step::Write(2, "q"), ["abc", "aXqZ", "a###"]),
    (Step::Cut(3), ["abc", "aXq", "a##"]),
    (Step::Cut(1), ["abc", "a", "a"]),
    (Step::Sync, ["abc", "a", "a"]),
    (Step::Write(1, "zz"), ["abc", "azz", "a##"]),
    (Step::Len, ["abc", "azz", "a##"]),
    (Step::Sync, ["azz", "azz", "azz"]),
    (Step::Cut(3), ["azz", "azz", "azz"]),
    (Step::Cut(0), ["azz", "", ""]),
    (Step::Sync, ["", "", ""]),
];

#[test]
fn images_of_writes_cuts_and_syncs(rt: HostRuntime) {
    holds(&rt, compare(&rt, &[7], &CALLS).is_ok());
}

static FAILED_CALLS: [Row; 9] = [
    (Step::Write(0, "x"), ["-", "-", "#"]),
    (Step::Write(0, "abc"), ["-", "abc", "###"]),
    (Step::Sync, ["-", "abc", "###"]),
    (Step::Sync, ["abc", "abc", "abc"]),
    (Step::Write(2, "YZ"), ["abc", "abc", "ab##"]),
    (Step::Write(0, "d"), ["abc", "dbc", "#b##"]),
    (Step::Cut(1), ["abc", "dbc", "#b##"]),
    (Step::Sync, ["dbc", "dbc", "dbc"]),
    (Step::Len, ["dbc", "dbc", "dbc"]),
];

#[test]
fn images_of_calls_that_fail(rt: HostRuntime) {
    holds(&rt, compare(&rt, &[1, 3, 5, 7, 9], &FAILED_CALLS).is_ok());
}

/// A call on a file of this name, and what it finds.
enum Named {
    Cut(FileName),
    Write(FileName, &'static str),
    /// From this place on: how many bytes came, and what the buffer has then.
    Read(FileName, u64, usize, [u8; 2]),
    Shows(FileName, &'static str),
}

/// Whether the call finds so.
fn finds(folder: &mut MemFolder, buffer: &mut [u8; 2], call: &Named) -> Result<bool, DiskFault> {
    match *call {
        Named::Cut(name) => folder.cut(name, 0)?,
        Named::Write(name, text) => folder.write_at(name, 0, text.as_bytes())?,
        Named::Read(name, at, count, left) => {
            return Ok(folder.read_at(name, at, buffer)? == count && *buffer == left);
        }
        Named::Shows(name, want) => return shows(folder, name, want),
    }
    Ok(true)
}

static NAMED: [Named; 6] = [
    Named::Cut(NAME),
    Named::Read(NAME, 0, 0, [7, 7]),
    Named::Write(OTHER, "other"),
    Named::Write(NAME, ""),
    Named::Shows(NAME, ""),
    Named::Read(OTHER, 4, 1, [b'r', 7]),
];

/// Each call in an empty folder finds so.
fn follow(rt: &(impl Abort + AllocGlobal), calls: &[Named]) -> Result<(), DiskFault> {
    let mut folder = MemFolder::new(rt.alloc(), &[])?;
    let mut buffer = [7; 2];
    for call in calls {
        holds(rt, finds(&mut folder, &mut buffer, call) == Ok(true));
    }
    Ok(())
}

#[test]
fn files_by_name(rt: HostRuntime) {
    holds(&rt, follow(&rt, &NAMED).is_ok());
}
