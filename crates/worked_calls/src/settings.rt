//! Directives that prepare a call and show nothing.
use set_disk::MemFolder;
use std::alloc::Global;
use worked_benches::bench::Bench;
use worked_benches::folder::after_crash;
use worked_guests::fault::CaseFault;
use worked_guests::guest::{Guests, guest_of};
use worked_guests::numbers::{Numbers, byte, long, unsigned};
use worked_guests::words::duplicate;

/// Carries out a directive that prepares a call, and answers whether it is one.
pub fn prepare(
    alloc: Global,
    bench: &mut Bench,
    numbers: &Numbers,
    guests: &Guests,
    directive: &str,
    words: &[String],
) -> Result<bool, CaseFault> {
    if prepare_file(alloc, bench, numbers, guests, directive, words)? {
        return Ok(true);
    }
    prepare_folder(alloc, bench, directive, words)
}

/// Carries out a directive that prepares a file, and answers whether it is one.
fn prepare_file(
    alloc: Global,
    bench: &mut Bench,
    numbers: &Numbers,
    guests: &Guests,
    directive: &str,
    words: &[String],
) -> Result<bool, CaseFault> {
    match (directive, words) {
        ("file", [name, guest]) => put_program(
            alloc,
            bench,
            guests,
            name.as_str(),
            guest.as_str(),
        )?,
        ("raw", [name, guest]) => put_raw(alloc, bench, guests, name.as_str(), guest.as_str())?,
        _ => return change_file(alloc, bench, numbers, directive, words),
    }
    Ok(true)
}

/// Carries out a directive that changes a file, and answers whether it is one.
fn change_file(
    alloc: Global,
    bench: &mut Bench,
    numbers: &Numbers,
    directive: &str,
    words: &[String],
) -> Result<bool, CaseFault> {
    match (directive, words) {
        ("poke", [name, place, value]) => {
            poke(
                bench,
                numbers,
                name.as_str(),
                place.as_str(),
                value.as_str(),
            )?;
        }
        ("cut", [name, length]) => cut(bench, name.as_str(), length.as_str())?,
        ("append", [name, other, start]) => {
            append(alloc, bench, name.as_str(), other.as_str(), start.as_str())?;
        }
        _ => return Ok(false),
    }
    Ok(true)
}

/// Carries out a directive that prepares what fails or the folder of sets, a call of which nothing is shown
/// among them, and answers whether it is one.
fn prepare_folder(
    alloc: Global,
    bench: &mut Bench,
    directive: &str,
    words: &[String],
) -> Result<bool, CaseFault> {
    match (directive, words) {
        ("fails", []) => bench.setting.fail_nowhere(),
        ("fails", [stream, call]) => bench.setting.fail(stream.as_str(), long(call.as_str())?)?,
        ("folder", fails) => set_folder(alloc, bench, fails)?,
        ("crash", [back, pattern]) => crash(alloc, bench, back.as_str(), pattern.as_str())?,
        ("given", call) => bench.run(duplicate(alloc, call)?)?,
        _ => return Ok(false),
    }
    Ok(true)
}

fn put_program(
    alloc: Global,
    bench: &mut Bench,
    guests: &Guests,
    name: &str,
    guest: &str,
) -> Result<(), CaseFault> {
    let file = guest_of(guests, guest)?.program(alloc)?;
    bench.setting.put_file(name, file)?;
    Ok(())
}

fn put_raw(
    alloc: Global,
    bench: &mut Bench,
    guests: &Guests,
    name: &str,
    guest: &str,
) -> Result<(), CaseFault> {
    let file = Vec::from_slice(alloc, guest_of(guests, guest)?.bytes.as_slice())?;
    bench.setting.put_file(name, file)?;
    Ok(())
}

/// Puts a byte at a place of a file.
fn poke(
    bench: &mut Bench,
    numbers: &Numbers,
    name: &str,
    place: &str,
    value: &str,
) -> Result<(), CaseFault> {
    let value = byte(numbers.read(value)?)?;
    let place = unsigned(place)? as usize;
    bench.setting.poke(name, place, value)
}

/// Leaves of a file its first bytes, so many.
fn cut(bench: &mut Bench, name: &str, length: &str) -> Result<(), CaseFault> {
    let length = unsigned(length)? as usize;
    bench.setting.cut(name, length)
}

/// Puts what another file has from a place on behind a file.
fn append(
    alloc: Global,
    bench: &mut Bench,
    name: &str,
    other: &str,
    start: &str,
) -> Result<(), CaseFault> {
    let start = unsigned(start)? as usize;
    let Some(rest) = bench.setting.file(other)?.get(start..) else {
        return Err(CaseFault::Unclear);
    };
    let rest = Vec::from_slice(alloc, rest)?;
    bench.setting.append(name, rest.as_slice())
}

/// Begins with an empty folder, whose calls of these numbers fail.
fn set_folder(alloc: Global, bench: &mut Bench, fails: &[String]) -> Result<(), CaseFault> {
    let mut calls = Vec::new(alloc);
    for fail in fails {
        calls.push(long(fail.as_str())?)?;
    }
    bench.set_folder(MemFolder::new(alloc, calls.as_slice())?);
    Ok(())
}

/// Goes on with what a crash leaves right after the call that is so many before the folder's last.
fn crash(alloc: Global, bench: &mut Bench, back: &str, pattern: &str) -> Result<(), CaseFault> {
    let call = bench.disk.calls().saturating_sub(long(back)?);
    let pattern = byte(unsigned(pattern)?)?;
    let left = after_crash(alloc, &bench.disk, call, pattern)?;
    bench.set_folder(left);
    Ok(())
}
