//! Worked runs: what the top call does with small programs, over inputs, sinks and folders in
//! memory.
//!
//! Standard input tells the cases, each named by what it shows, and `stdout` beside this folder has
//! what they are to print. Nothing is proved here but that the program is safe and, as long as
//! lines come, ends.
//!
//! A line is a directive. Its words stand between spaces, `"` keeps spaces in a word, with `\n` and
//! `\0` for a newline and a zero byte, and `#` begins a comment. A number is in decimal, or in
//! hexadecimal behind `0x`; with `-` in front it is taken modulo 2^32; it may be a name, or a name
//! and digits with a `+` between them. A line that is none of these prints that it was not
//! understood.
//!
//! `number NAME N` gives a number a name. `guest NAME` begins a guest, which the line `end` ends:
//!
//! - `addi sp, sp, -16` (any instruction of `docs/MACHINE.md`, with its operands as there): its
//!   word
//! - `words N ..`, `bytes XX ..`, `text T`: these words, these bytes in hexadecimal, the bytes of a
//!   text
//! - `rising N M`: N bytes that rise from 0, and from 0 again where they come to M
//! - `like NAME`: all that another guest has
//! - `replace N INSTRUCTION`: the instruction of number N, from 0, is this one
//! - `step CALL ARGUMENT .. -> N`: six words, the call's number and its arguments, the missing ones
//!   0; N is to be noted
//! - `times N step ..`: so many such steps
//!
//! `case NAME` begins a case: without files, in an empty folder, where nothing fails and all is
//! shown. Lines that prepare:
//!
//! - `file NAME GUEST`: an input, the guest behind the headers of a program; `raw NAME GUEST`:
//!   without these headers
//! - `cut NAME N`, `poke NAME PLACE BYTE`, `append NAME OTHER PLACE`: the input keeps N bytes; has
//!   a byte at a place; has behind it what another has from a place on
//! - `fails STREAM N`: call N of `inputs`, `console` or `log` fails, counted anew in each call of
//!   the top; `fails`: none
//! - `show PART ..`: of what a call leaves only these are printed, of `status`, `console`, `log`
//!   and `trace`
//! - `folder N ..`: an empty folder, of which the calls of these numbers fail, counted from 1
//! - `crash N PATTERN`: the folder that a crash leaves right after the call that is N before the
//!   last (`docs/STORE.md`)
//! - `given WORD ..`: calls the top with these words, and prints nothing
//!
//! Lines that print, behind the line itself, what calls of the top leave, or what is left:
//!
//! - `run WORD ..`: calls the top
//! - `whole WORD ..`: the undisturbed call, in a folder of its own. `part WORD ..` and `last WORD
//!   ..` are a chain of calls since the folder began: how many records of work each keeps, up to
//!   its last set, and whether all do and write, taken together, what the undisturbed call did
//! - `halves PROGRAM N ..`: such a chain of two, cut off right after a set behind N records of
//!   work, for each N
//! - `faults WORD ..`: the call once for each call of the folder that it makes, with that one
//!   failing; those in a row with the same outcome are printed once
//! - `crashes WORD ..`: the call in what a crash leaves right after each call of the folder, by
//!   each pattern
//! - `damaged SLOT FILE HARM`: a restart from a copy of the folder with `cut N`, `byte PLACE N` or
//!   `number PLACE N` done to a file
//! - `sets`, `dump SLOT FILE`, `calls`: how long the files of the folder are; the first 64 bytes of
//!   one; how many calls of the folder there were
//! - `notes GUEST`: whether the last call wrote the words that the guest's steps are to note
//! - `same NAME OTHER`: whether two inputs are the same
//! - `replay NAME`, `replay NAME FROM TO`, `replay NAME without N`: what the plain machine makes of
//!   the last trace, or of a part of it, from the start of a program that is named `hello.elf`
//!
//! A sink prints how many bytes it took, and these as text, or in hexadecimal where they are none.
//! A trace prints how many records it has, and how many it has room for; a record is its word, then
//! the process, the thread, and the number of instructions or the signal.
#![tactic(auto)]

mod looks;
mod player;
mod replaying;
mod runs;
mod settings;

use crate::player::Player;
use std::io::{self, BufRead, BufReader};

fn main(rt: HostRuntime) -> io::Result<()> {
    let mut player = Player::new(rt.alloc())?;
    for line in BufReader::new(rt.alloc(), rt.reader())?.lines(rt.alloc()) {
        let line = line?;
        let mut text = String::new(rt.alloc());
        player.take(line.as_str(), &mut text)?;
        print!(rt; "{text}")?;
    }
    Ok(())
}
