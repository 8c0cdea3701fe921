//! Directives that make many calls.
use crate::bench::Bench;
use crate::folder::{after_crash, copied};
use crate::outcome::Outcome;
use crate::printing::put_answer;
use crate::sweep::Sweep;
use set_disk::MemFolder;
use std::alloc::{AllocError, Global};
use std::fmt::Write;
use worked_guests::fault::CaseFault;
use worked_guests::numbers::unsigned;
use worked_guests::words::owned;

/// Makes a call once for each call of the folder that it makes, with that one failing, behind the
/// earlier calls of the case.
pub fn with_faults(
    alloc: Global,
    bench: &Bench,
    words: &[String],
    text: &mut String,
) -> Result<(), CaseFault> {
    let mut disk = copied(alloc, &bench.disk)?;
    bench.setting.call(words, &mut disk)?;
    let before = bench.disk.calls();
    let mut sweep = Sweep::new();
    for call in 1..=disk.calls() {
        let outcome = failing(alloc, bench, words, before.saturating_add(call))?;
        sweep.take(text, call, outcome)?;
    }
    sweep.put(text)?;
    Ok(())
}

/// Makes the earlier calls of the case and this one in an empty folder, of which this call fails.
fn failing(
    alloc: Global,
    bench: &Bench,
    words: &[String],
    fail: u64,
) -> Result<Box<Outcome>, AllocError> {
    let mut disk = MemFolder::new(alloc, &[fail])?;
    for earlier in &bench.earlier {
        bench.setting.call(earlier.as_slice(), &mut disk)?;
    }
    bench.setting.call(words, &mut disk)
}

/// Makes a call in each folder that a crash leaves right after a call of the folder, by each
/// pattern.
pub fn with_crashes(
    alloc: Global,
    bench: &Bench,
    words: &[String],
    text: &mut String,
) -> Result<(), CaseFault> {
    for pattern in 0..3_u8 {
        writeln!(text, " pattern {pattern}")?;
        with_pattern(alloc, bench, words, pattern, text)?;
    }
    Ok(())
}

fn with_pattern(
    alloc: Global,
    bench: &Bench,
    words: &[String],
    pattern: u8,
    text: &mut String,
) -> Result<(), CaseFault> {
    let mut sweep = Sweep::new();
    for call in 1..=bench.disk.calls() {
        let mut disk = after_crash(alloc, &bench.disk, call, pattern)?;
        let outcome = bench.setting.call(words, &mut disk)?;
        sweep.take(text, call, outcome)?;
    }
    sweep.put(text)?;
    Ok(())
}

/// Launches a program that is cut off right after a set, restarts it, and compares both with the
/// undisturbed launch, for each of these numbers of records of work before the set.
pub fn in_halves(
    alloc: Global,
    bench: &mut Bench,
    program: &str,
    places: &[String],
    text: &mut String,
) -> Result<(), CaseFault> {
    let whole = owned(alloc, &["launch", program])?;
    bench.run_whole(whole.as_slice())?;
    for place in places {
        in_two(alloc, bench, program, place.as_str(), text)?;
    }
    Ok(())
}

fn in_two(
    alloc: Global,
    bench: &mut Bench,
    program: &str,
    place: &str,
    text: &mut String,
) -> Result<(), CaseFault> {
    bench.clear_folder()?;
    bench.run(cut_off(alloc, program, place)?)?;
    let first = bench.outcome()?.status.code();
    let kept = bench.chain_part()?.kept;
    bench.run(owned(alloc, &["restart"])?)?;
    let second = bench.outcome()?.status.code();
    bench.chain_end()?;
    let what = format!(in alloc; "after {kept}: status {first}, then {second}, as one run")?;
    put_answer(text, what.as_str(), bench.is_as_whole())?;
    Ok(())
}

/// The words of a launch that ends right after the set which it makes after so many records of
/// work.
fn cut_off(alloc: Global, program: &str, place: &str) -> Result<Vec<String>, CaseFault> {
    let room = unsigned(place)?.saturating_add(2);
    let room = format!(in alloc; "{room}")?;
    let words = [
        "launch",
        "--every",
        place,
        "--records",
        room.as_str(),
        program,
    ];
    Ok(owned(alloc, &words)?)
}
