// Whether bytes are an image that comes back.
use crate::editing::{number, turned, with_number};
use image_codec::{Damage, ReadFault, restored_kernel, shared_image, write_shared};
use shared_reader::read_shared;
use std::alloc::{AllocError, Global};
use std::io;

/// What comes of a shared image's bytes.
#[derive(Clone, Copy, PartialEq, Eq)]
enum Verdict {
    ComesBack,
    Changes,
    Fails(ReadFault),
}

/// Whether the bytes are what is written of the kernel part for which they stand.
fn comes_back(alloc: Global, bytes: &[u8]) -> Result<bool, ReadFault> {
    let image = read_shared(alloc, bytes)?;
    let kernel = restored_kernel(alloc, &image)?;
    let again = shared_image(alloc, &kernel)?;
    let written = write_shared(alloc, &again)?;
    Ok(written.as_slice() == bytes)
}

fn verdict_of(alloc: Global, bytes: &[u8]) -> Verdict {
    match comes_back(alloc, bytes) {
        Ok(true) => Verdict::ComesBack,
        Ok(false) => Verdict::Changes,
        Err(fault) => Verdict::Fails(fault),
    }
}

fn text(alloc: Global, verdict: Verdict) -> Result<String, AllocError> {
    match verdict {
        Verdict::ComesBack => format!(in alloc; "comes back"),
        Verdict::Changes => format!(in alloc; "comes back as other bytes"),
        Verdict::Fails(fault) => format!(in alloc; "{fault}"),
    }
}

pub fn told(alloc: Global, bytes: &[u8]) -> Result<String, AllocError> {
    text(alloc, verdict_of(alloc, bytes))
}

/// Adds a line where the verdict is another than the last one.
fn add_run(
    alloc: Global,
    told: &mut String,
    last: &mut Option<Verdict>,
    first: usize,
    verdict: Verdict,
) -> Result<(), AllocError> {
    if *last != Some(verdict) {
        let text = text(alloc, verdict)?;
        told.push_str(format!(in alloc; "\n  from {first}: {text}")?.as_str())?;
    }
    *last = Some(verdict);
    Ok(())
}

/// What comes of these numbers in a field.
pub fn told_of_numbers(
    alloc: Global,
    base: &[u8],
    place: usize,
    size: usize,
    numbers: &str,
) -> io::Result<String> {
    let mut told = format!(in alloc; "{} cases", numbers.split_whitespace().count())?;
    let mut last = None;
    for digits in numbers.split_whitespace() {
        let number = number(digits)?;
        let bytes = with_number(alloc, base, place, size, number)?;
        let verdict = verdict_of(alloc, bytes.as_slice());
        add_run(alloc, &mut told, &mut last, number, verdict)?;
    }
    Ok(told)
}

/// What comes of each byte with these bits turned.
pub fn told_of_turns(alloc: Global, base: &[u8], bits: u8) -> io::Result<String> {
    let mut told = format!(in alloc; "{} cases", base.len())?;
    let mut last = None;
    for place in 0..base.len() {
        let bytes = turned(alloc, base, place, bits)?;
        let verdict = verdict_of(alloc, bytes.as_slice());
        add_run(alloc, &mut told, &mut last, place, verdict)?;
    }
    Ok(told)
}

/// Whether each front is damaged at its end.
pub fn told_of_fronts(alloc: Global, base: &[u8]) -> Result<String, AllocError> {
    let damaged = (0..base.len())
        .filter(|len| is_damaged_at_end(alloc, base, *len))
        .count();
    format!(in alloc; "{damaged} of {} are damaged at their end", base.len())
}

fn is_damaged_at_end(alloc: Global, base: &[u8], len: usize) -> bool {
    let damage = Damage {
        file: 1,
        offset: len as u64,
    };
    let front = base.get(..len).unwrap_or(base);
    verdict_of(alloc, front) == Verdict::Fails(ReadFault::Damaged(damage))
}
