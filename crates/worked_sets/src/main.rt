//! Prints of each case on standard input what its shared image or its set spells, or where it is damaged.
//!
//! A case is a line `NAME: HOW`. HOW is one of these, in which bytes are words of hex digits, and
//! `COUNT*DIGITS` is so many times the same:
//! - `bytes BYTES`: the shared image has these bytes, and the lines below edit this image;
//! - `kernel`: it is that image, told as the kernel part for which it stands;
//! - `with EDIT..`: it is that image after one edit and the next, each `PLACE:COUNT:DIGITS`, which puts bytes
//!   in the place of so many others;
//! - `field PLACE:SIZE NUMBER..`: it is that image with each of these numbers in the field there;
//! - `turn BITS`: it is that image with these bits of one byte turned, of each byte;
//! - `fronts`: it is each shorter front of that image;
//! - `set BYTES / BYTES ..`: the set has that image and these images of processes.
//!
//! An image comes back where it spells a kernel part, and the image of this is written as the same bytes. Of
//! numbers and of turned bytes a line is told for each run of those of which the same comes.
#![tactic(auto)]

use std::alloc::Global;
use std::io;

mod editing;
mod kernels;
mod objects;
mod processes;
mod sets;
mod verdicts;

use editing::{edited, number, of_words, parted, unreadable};

fn main(rt: HostRuntime) -> io::Result<()> {
    let mut base = Vec::new(rt.alloc());
    for line in rt.lines(rt.alloc()) {
        let line = line?;
        let (name, how) = parted(line.as_str(), ": ")?;
        let answer = answer(rt.alloc(), how, &mut base)?;
        println!(rt; "{name}: {answer}")?;
    }
    Ok(())
}

/// What comes of a case.
fn answer(alloc: Global, how: &str, base: &mut Vec<u8>) -> io::Result<String> {
    let (verb, rest) = how.split_once(" ").unwrap_or((how, ""));
    match verb {
        "bytes" => answer_of_base(alloc, rest, base),
        "kernel" => kernels::told(alloc, base.as_slice()),
        "with" => answer_of_edits(alloc, base.as_slice(), rest),
        "field" => answer_of_field(alloc, base.as_slice(), rest),
        "turn" => answer_of_turns(alloc, base.as_slice(), rest),
        "fronts" => Ok(verdicts::told_of_fronts(alloc, base.as_slice())?),
        "set" => sets::told(alloc, base.as_slice(), rest),
        _ => Err(unreadable()),
    }
}

/// Takes the bytes as those to be edited.
fn answer_of_base(alloc: Global, words: &str, base: &mut Vec<u8>) -> io::Result<String> {
    *base = of_words(alloc, words)?;
    Ok(verdicts::told(alloc, base.as_slice())?)
}

fn answer_of_edits(alloc: Global, base: &[u8], edits: &str) -> io::Result<String> {
    let bytes = edited(alloc, base, edits)?;
    Ok(verdicts::told(alloc, bytes.as_slice())?)
}

fn answer_of_field(alloc: Global, base: &[u8], words: &str) -> io::Result<String> {
    let (field, numbers) = parted(words, " ")?;
    let (place, size) = parted(field, ":")?;
    verdicts::told_of_numbers(alloc, base, number(place)?, number(size)?, numbers)
}

fn answer_of_turns(alloc: Global, base: &[u8], bits: &str) -> io::Result<String> {
    match of_words(alloc, bits)?.as_slice() {
        [bits] => verdicts::told_of_turns(alloc, base, *bits),
        _ => Err(unreadable()),
    }
}
