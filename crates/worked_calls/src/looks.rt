//! Directives that show what earlier ones left.
use crate::replaying::put_replay;
use std::alloc::Global;
use std::fmt::Write;
use sys_abi::Record;
use worked_benches::bench::Bench;
use worked_benches::folder::{copied, file_name, harm, put_file, put_sets};
use worked_benches::printing::{ALL, put_answer, put_outcome, put_stream};
use worked_guests::fault::CaseFault;
use worked_guests::guest::{Guests, guest_of};
use worked_guests::numbers::{Numbers, unsigned};
use worked_guests::words::owned;

/// Carries out a directive that shows what earlier ones left.
pub fn look(
    alloc: Global,
    bench: &mut Bench,
    numbers: &Numbers,
    guests: &Guests,
    directive: &str,
    words: &[String],
    text: &mut String,
) -> Result<(), CaseFault> {
    match (directive, words) {
        ("damaged", harm) => restart_damaged(alloc, bench, numbers, harm, text),
        ("sets", []) => put_sets(text, &mut bench.disk),
        ("dump", [slot, index]) => {
            let name = file_name(slot.as_str(), index.as_str())?;
            put_file(text, &mut bench.disk, name)
        }
        ("calls", []) => put_calls(text, bench),
        ("notes", [guest]) => put_notes(bench, guests, guest.as_str(), text),
        ("same", [name, other]) => put_same(bench, name.as_str(), other.as_str(), text),
        ("replay", [name, part @ ..]) => replay_part(alloc, bench, name.as_str(), part, text),
        _ => Err(CaseFault::Unclear),
    }
}

/// Restarts from a copy of the folder, in which a file is harmed.
fn restart_damaged(
    alloc: Global,
    bench: &Bench,
    numbers: &Numbers,
    words: &[String],
    text: &mut String,
) -> Result<(), CaseFault> {
    let mut disk = copied(alloc, &bench.disk)?;
    harm(&mut disk, numbers, words)?;
    let restart = owned(alloc, &["restart"])?;
    let outcome = bench.setting.call(restart.as_slice(), &mut disk)?;
    put_outcome(text, &outcome, ALL)?;
    Ok(())
}

fn put_calls(text: &mut String, bench: &Bench) -> Result<(), CaseFault> {
    let calls = bench.disk.calls();
    writeln!(text, "  calls {calls}")?;
    Ok(())
}

/// Prints whether the last call wrote the words that the guest's steps are to note, and if not what
/// it wrote.
fn put_notes(
    bench: &Bench,
    guests: &Guests,
    guest: &str,
    text: &mut String,
) -> Result<(), CaseFault> {
    let notes = guest_of(guests, guest)?.notes.as_slice();
    let console = bench.outcome()?.console();
    let holds = are_written(notes, console);
    put_answer(text, "noted as listed", holds)?;
    if holds {
        let count = notes.len();
        writeln!(text, "  words {count}")?;
    } else {
        put_stream(text, "console", console)?;
    }
    Ok(())
}

fn are_written(notes: &[u32], bytes: &[u8]) -> bool {
    let mut words = bytes.chunks(4);
    for note in notes {
        match words.next() {
            Some(word) if word == note.to_le_bytes().as_slice() => {}
            _ => return false,
        }
    }
    words.next().is_none()
}

fn put_same(bench: &Bench, name: &str, other: &str, text: &mut String) -> Result<(), CaseFault> {
    let holds = bench.setting.file(name)? == bench.setting.file(other)?;
    put_answer(text, "the same", holds)?;
    Ok(())
}

/// Replays the last call's trace from the start of a program: the whole, from one record on to
/// another, or without one.
fn replay_part(
    alloc: Global,
    bench: &Bench,
    name: &str,
    part: &[String],
    text: &mut String,
) -> Result<(), CaseFault> {
    let file = bench.setting.file(name)?;
    let records = bench.outcome()?.records();
    match part {
        [] => put_replay(alloc, text, file, records),
        [word, place] if word.as_str() == "without" => {
            let rest = without(alloc, records, unsigned(place.as_str())?)?;
            put_replay(alloc, text, file, rest.as_slice())
        }
        [from, to] => {
            let part = part_of(records, unsigned(from.as_str())?, unsigned(to.as_str())?)?;
            put_replay(alloc, text, file, part)
        }
        _ => Err(CaseFault::Unclear),
    }
}

fn part_of(records: &[Record], from: u32, to: u32) -> Result<&[Record], CaseFault> {
    records
        .get(from as usize..to as usize)
        .ok_or(CaseFault::Unclear)
}

/// The records but for the one of this number, counted from 0.
fn without(alloc: Global, records: &[Record], place: u32) -> Result<Vec<Record>, CaseFault> {
    let mut rest = Vec::new(alloc);
    for (number, record) in records.iter().enumerate() {
        if number as u64 != place as u64 {
            rest.push(*record)?;
        }
    }
    Ok(rest)
}
