// Folders of the host: the names of their files, and that calls on them succeed.
use crate::asserts::holds;
use crate::folders::{NAME, OTHER, shows};
use set_disk::{DiskFault, FileName, Folder, HostFolder};
use std::fs::{self, File};
use std::os::unix::fs::symlink;
use std::process::Abort;
use std::rt::Files;

const PLACE: &str = "worked_folders_one";

/// A call on a folder, which succeeds where nothing else is said.
enum Call {
    Write(FileName, u64, &'static str),
    Cut(FileName, u64),
    Sync(Result<(), DiskFault>),
    /// The file has these bytes, or is not there, where they are `-`.
    Shows(FileName, &'static str),
    /// Beside the folder's own calls: a file of the host is written.
    Put(&'static str, &'static str),
}

/// Whether the call answers so.
fn answers<R: Files<File = File> + AllocGlobal>(
    rt: &R,
    folder: &mut HostFolder<&R>,
    call: &Call,
) -> bool {
    match *call {
        Call::Write(name, at, text) => folder.write_at(name, at, text.as_bytes()).is_ok(),
        Call::Cut(name, len) => folder.cut(name, len).is_ok(),
        Call::Sync(answer) => folder.sync() == answer,
        Call::Shows(name, want) => shows(folder, name, want) == Ok(true),
        Call::Put(path, text) => fs::write(rt, path, text).is_ok(),
    }
}

/// What is done with the host.
enum Step {
    /// Calls on a folder at this path, which is let go after them.
    In(&'static str, &'static [Call]),
    /// The file of the host has this text.
    Has(&'static str, &'static str),
    MakeFolder(&'static str),
    RemoveFolder(&'static str),
    RemoveFile(&'static str),
}

/// Whether each call answers so.
fn each_answers<R: Files<File = File> + AllocGlobal>(
    rt: &R,
    folder: &mut HostFolder<&R>,
    calls: &[Call],
) -> bool {
    for call in calls {
        if !answers(rt, folder, call) {
            return false;
        }
    }
    true
}

/// Whether they do in a folder at the path, which is let go after them.
fn each_in<R: Files<File = File> + AllocGlobal>(rt: &R, path: &str, calls: &[Call]) -> bool {
    match HostFolder::new(rt, rt.alloc(), path) {
        Ok(mut folder) => each_answers(rt, &mut folder, calls),
        Err(_) => false,
    }
}

/// Whether the file of the host has this text.
fn has_text(rt: &(impl Files<File = File> + AllocGlobal), path: &str, want: &str) -> bool {
    match fs::read_to_string(rt, path) {
        Ok(text) => text.as_str() == want,
        Err(_) => false,
    }
}

/// Whether the step succeeds, and finds so.
fn succeeds(rt: &(impl Files<File = File> + AllocGlobal), step: &Step) -> bool {
    match *step {
        Step::In(path, calls) => each_in(rt, path, calls),
        Step::Has(path, text) => has_text(rt, path, text),
        Step::MakeFolder(path) => fs::create_dir(rt, path).is_ok(),
        Step::RemoveFolder(path) => fs::remove_dir_all(rt, path).is_ok(),
        Step::RemoveFile(path) => fs::remove_file(rt, path).is_ok(),
    }
}

/// Each step succeeds.
fn follow(rt: &(impl Files<File = File> + AllocGlobal + Abort), steps: &[Step]) {
    for step in steps {
        holds(rt, succeeds(rt, step));
    }
}

/// Two files of the folder's own are put into it and one that is not, and it is synced.
static ONE: [Step; 6] = [
    Step::In(PLACE, &[Call::Shows(NAME, "-")]),
    Step::In(
        PLACE,
        &[
            Call::Cut(NAME, 0),
            Call::Write(NAME, 0, "abcdef"),
            Call::Write(NAME, 2, "XY"),
            Call::Cut(NAME, 5),
            Call::Write(OTHER, 0, ""),
            Call::Put("worked_folders_one/notes.txt", "ignored"),
            Call::Sync(Ok(())),
        ],
    ),
    Step::In(PLACE, &[Call::Shows(NAME, "abXYe")]),
    Step::In(PLACE, &[Call::Shows(OTHER, "")]),
    Step::Has("worked_folders_one/s0_1.img", "abXYe"),
    Step::RemoveFolder(PLACE),
];

#[test]
fn a_folder_of_the_host(rt: HostRuntime) {
    follow(&rt, &ONE);
}

/// What a file has after a cut of `abcdef` and a write. The cut is made by the write where that is at the
/// file's new end, and else before it.
static CUTS: [Step; 5] = [
    Step::In(
        PLACE,
        &[
            Call::Write(NAME, 0, "abcdef"),
            Call::Cut(NAME, 0),
            Call::Write(NAME, 0, "ABCDEF"),
            Call::Shows(NAME, "ABCDEF"),
        ],
    ),
    Step::In(
        PLACE,
        &[
            Call::Write(NAME, 0, "abcdef"),
            Call::Cut(NAME, 2),
            Call::Write(NAME, 2, "C"),
            Call::Shows(NAME, "abC"),
        ],
    ),
    Step::In(
        PLACE,
        &[
            Call::Write(NAME, 0, "abcdef"),
            Call::Cut(NAME, 2),
            Call::Write(NAME, 2, "CDEFGH"),
            Call::Shows(NAME, "abCDEFGH"),
        ],
    ),
    Step::In(
        PLACE,
        &[
            Call::Write(NAME, 0, "abcdef"),
            Call::Cut(NAME, 3),
            Call::Write(NAME, 0, "A"),
            Call::Shows(NAME, "Abc"),
        ],
    ),
    Step::RemoveFolder(PLACE),
];

#[test]
fn cuts_before_writes(rt: HostRuntime) {
    follow(&rt, &CUTS);
}

/// Cuts of a file, after which something else is done than to write it.
static CUTS_ALONE: [Step; 4] = [
    Step::In(
        PLACE,
        &[
            Call::Write(NAME, 0, "abcdef"),
            Call::Cut(NAME, 4),
            Call::Cut(OTHER, 0),
            Call::Write(OTHER, 0, "other"),
            Call::Cut(NAME, 3),
            Call::Sync(Ok(())),
        ],
    ),
    Step::Has("worked_folders_one/s0_1.img", "abc"),
    Step::In(PLACE, &[Call::Shows(OTHER, "other")]),
    Step::RemoveFolder(PLACE),
];

#[test]
fn cuts_before_other_calls(rt: HostRuntime) {
    follow(&rt, &CUTS_ALONE);
}

static MISSING: [Step; 1] = [Step::In(
    "worked_folders_missing/folder",
    &[Call::Sync(Err(DiskFault::Failed))],
)];

#[test]
fn a_folder_that_cannot_be_made_fails(rt: HostRuntime) {
    follow(&rt, &MISSING);
}

const SETS: &str = "worked_folders_sets/of";

const GREATEST: FileName = FileName {
    slot: u32::MAX,
    index: u32::MAX,
};

/// The paths of files of a folder in a folder.
static PATHS: [Step; 11] = [
    Step::MakeFolder("worked_folders_sets"),
    Step::In(SETS, &[Call::Write(NAME, 0, "file")]),
    Step::Has("worked_folders_sets/of/s0_1.img", "file"),
    Step::RemoveFile("worked_folders_sets/of/s0_1.img"),
    Step::In(SETS, &[Call::Write(OTHER, 0, "file")]),
    Step::Has("worked_folders_sets/of/s1_0.img", "file"),
    Step::RemoveFile("worked_folders_sets/of/s1_0.img"),
    Step::In(SETS, &[Call::Write(GREATEST, 0, "file")]),
    Step::Has("worked_folders_sets/of/s4294967295_4294967295.img", "file"),
    Step::RemoveFile("worked_folders_sets/of/s4294967295_4294967295.img"),
    Step::RemoveFolder("worked_folders_sets"),
];

#[test]
fn paths_of_files_on_the_host(rt: HostRuntime) {
    follow(&rt, &PATHS);
}

const NAMES: &str = "worked_folders_names";

/// Whether these calls answer so beside a link that leads nowhere. A sync opens the files that are the
/// folder's own.
fn answer_beside(rt: &(impl Files<File = File> + AllocGlobal), link: &str, calls: &[Call]) -> bool {
    symlink(rt, "nowhere", link).is_ok()
        && each_in(rt, NAMES, calls)
        && fs::remove_file(rt, link).is_ok()
}

/// Asserts that they do so beside each of the links.
fn each_beside(
    rt: &(impl Files<File = File> + AllocGlobal + Abort),
    links: &[&str],
    calls: &[Call],
) {
    for link in links {
        holds(rt, answer_beside(rt, link, calls));
    }
}

static OWN: [&str; 3] = [
    "worked_folders_names/s0_1.img",
    "worked_folders_names/s1_0.img",
    "worked_folders_names/s4294967295_4294967295.img",
];

static OTHERS: [&str; 13] = [
    "worked_folders_names/notes.txt",
    "worked_folders_names/s00_1.img",
    "worked_folders_names/s+0_1.img",
    "worked_folders_names/s0_01.img",
    "worked_folders_names/s0_4294967296.img",
    "worked_folders_names/s_1.img",
    "worked_folders_names/s0_.img",
    "worked_folders_names/s0_1",
    "worked_folders_names/s0_1.img.",
    "worked_folders_names/s0_1.imgs",
    "worked_folders_names/s0_1_.img",
    "worked_folders_names/S0_1.img",
    "worked_folders_names/0_1.img",
];

static FAILS: [Call; 1] = [Call::Sync(Err(DiskFault::Failed))];

static SUCCEEDS: [Call; 1] = [Call::Sync(Ok(()))];

#[test]
fn files_of_other_names_are_passed_over(rt: HostRuntime) {
    holds(&rt, fs::create_dir(&rt, NAMES).is_ok());
    each_beside(&rt, &OWN, &FAILS);
    each_beside(&rt, &OTHERS, &SUCCEEDS);
    holds(&rt, fs::remove_dir_all(&rt, NAMES).is_ok());
}
