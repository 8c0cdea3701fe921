ghost use Rattle.std.specs.Prelude.{◌≡◌, ◌<◌, ◌≤◌, fold, length, IfOk, OnOk, OnErr};
ghost use Rattle.disk_folder.specs.History.{after_call, after_filled, image_after, reads_after, settled_count, with_pending};

use crate::call::Call;
use crate::files::Files;
use crate::request::Request;
use std::alloc::{AllocError, Global};
use views::duplicate::Duplicate;

/// Any byte that a crash may leave in a written range.
const FILLER: u8 = 0xA5;

/// The files that a crash right after these calls may leave: without the writes and cuts that no
/// later sync had made sure (pattern 0), with them (1), or with each such written range filled (2).
pub fn crash_files(
    alloc: Global,
    start: &Files,
    calls: &[Call],
    pattern: u8,
) -> Result<Files, AllocError>
    requires { pattern < 3 }
    ensures { IfOk result (λ image. image ≡ image_after pattern start.now calls.now) }
{
    let (settled, pending) = calls.split_at(settled_count(calls));
    let mut image = start.duplicate(alloc)?;
    replay(alloc, &mut image, settled)?;
    replay_pending(alloc, &mut image, pending, pattern)?;
    Ok(image)
}

fn replay_pending(
    alloc: Global,
    files: &mut Files,
    calls: &[Call],
    pattern: u8,
) -> Result<(), AllocError>
    requires { pattern < 3 }
    ensures { OnOk result (files.new ≡ with_pending pattern files.old calls.now) }
{
    match pattern {
        0 => Ok(()),
        1 => replay(alloc, files, calls),
        _ => replay_filled(alloc, files, calls),
    }
}

/// How many calls there are up to the last sync that was done.
fn settled_count(calls: &[Call]) -> usize
    ensures count { result ≡ settled_count calls.now }
    ensures within { result ≤ length calls.now }
{
    let mut count = 0;
    for (i, call) in calls.iter().enumerate() {
        if call.settles() {
            count = i + 1;
        }
    }
    count
}

fn replay(alloc: Global, files: &mut Files, calls: &[Call]) -> Result<(), AllocError>
    ensures { OnOk result (files.new ≡ reads_after files.old calls.now) }
{
    for call in calls {
        redo(alloc, files, call)?;
    }
    Ok(())
}

/// Does what a call asks for, unless it failed.
pub fn redo(alloc: Global, files: &mut Files, call: &Call) -> Result<(), AllocError>
    ensures ok { OnOk result (files.new ≡ after_call files.old call.now) }
    ensures err { OnErr result (files.new ≡ files.old) }
{
    if call.done {
        files.apply(alloc, &call.request)
    } else {
        Ok(())
    }
}

fn replay_filled(alloc: Global, files: &mut Files, calls: &[Call]) -> Result<(), AllocError>
    ensures { OnOk result (files.new ≡ fold after_filled files.old calls.now) }
{
    for call in calls {
        fill(alloc, files, call)?;
    }
    Ok(())
}

fn fill(alloc: Global, files: &mut Files, call: &Call) -> Result<(), AllocError>
    ensures { OnOk result (files.new ≡ after_filled files.old call.now) }
{
    match &call.request {
        Request::Write { name, at, bytes } => {
            let filler = vec![in alloc; FILLER; bytes.len()]?;
            files.write_at(alloc, *name, *at as usize, &filler)
        }
        _ => redo(alloc, files, call),
    }
}
