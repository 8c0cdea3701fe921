//! Reads calls of one process, one a line, and writes each line with what the call's row answers.
//!
//! `begin` begins anew: one process, whose descriptors 0 to 2 are the console, and the file 1 with the bytes
//! `hello`. The calls are `pipe FLAGS`, `pair DOMAIN TYPE PROTOCOL`, `counter VALUE FLAGS`, `read FD COUNT`,
//! `write FD COUNT TEXT`, where `*` stands for as many bytes `x`, `letters FD N`, N writes of a byte, of
//! which the last one is told, and `add FD COUNT NUMBER`, a write of a number of 8 bytes. Behind each stands
//! its answer, and `told otherwise` where it had been told before whether it waits and that was wrong.
//!
//! Besides, `open FD FLAGS OFFSET` refers to the file 1 and `socket FD` to a socket that isn't connected,
//! `close FD` closes, `fill N` takes the descriptors below N and `number N` makes N the process's next
//! number; `arrive` lets all bytes arrive, `file` shows the file's bytes and `pending` the signals of the
//! thread. Other lines are remarks. Numbers are decimal.
#![tactic(auto)]

mod answers;
mod calls;
mod changes;
mod lines;
mod setting;

use crate::calls::answer_of;
use crate::changes::change_of;
use crate::lines::Line;
use crate::setting::begin;
use plain_machine::PlainKernel;
use std::alloc::{AllocError, Global};
use std::io;

fn main(rt: HostRuntime) -> io::Result<()> {
    let mut kernel = begin(rt.alloc())?;
    for line in rt.lines(rt.alloc()) {
        let line = line?;
        let text = text_of(rt.alloc(), &mut kernel, line.as_str())?;
        println!(rt; "{line}{text}")?;
    }
    Ok(())
}

/// Does what the line says, and tells what came of it.
fn text_of(alloc: Global, kernel: &mut Box<PlainKernel>, text: &str) -> Result<String, AllocError> {
    if text == "begin" {
        *kernel = begin(alloc)?;
        return Ok(String::new(alloc));
    }
    let Some(line) = Line::read(text) else {
        return Ok(String::new(alloc));
    };
    if let Some(text) = change_of(alloc, kernel, &line)? {
        return Ok(text);
    }
    answer_of(alloc, kernel, &line)
}
