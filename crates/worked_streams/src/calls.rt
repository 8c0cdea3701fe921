//! The calls of the lines.
use crate::answers::attempt_text;
use crate::lines::Line;
use crate::setting::{FIRST, THREAD};
use call_table::Given;
use plain_machine::PlainKernel;
use plain_streams::channels::{pipe2, socketpair};
use plain_streams::counters::eventfd2;
use plain_streams::read::{is_read_ready, read};
use plain_streams::write::{is_write_ready, write};
use std::alloc::{AllocError, Global};
use sys_abi::transfer::TRANSFER_LIMIT;

/// What the line's call answers, nothing where it is none.
pub fn answer_of(
    alloc: Global,
    kernel: &mut PlainKernel,
    line: &Line,
) -> Result<String, AllocError> {
    match line.name {
        "pipe" => attempt_text(alloc, pipe2(kernel, alloc, FIRST, line.first)?, true),
        "pair" => pair_text(alloc, kernel, line),
        "counter" => {
            let made = eventfd2(kernel, alloc, FIRST, line.first, line.second)?;
            attempt_text(alloc, made, true)
        }
        "read" => read_text(alloc, kernel, line),
        "write" => write_text(alloc, kernel, line),
        "letters" => letters_text(alloc, kernel, line),
        "add" => add_text(alloc, kernel, line),
        _ => Ok(String::new(alloc)),
    }
}

fn pair_text(alloc: Global, kernel: &mut PlainKernel, line: &Line) -> Result<String, AllocError> {
    let protocol = line.rest.parse::<u32>().unwrap_or(0);
    let made = socketpair(kernel, alloc, FIRST, line.first, line.second, protocol)?;
    attempt_text(alloc, made, true)
}

fn read_text(alloc: Global, kernel: &mut PlainKernel, line: &Line) -> Result<String, AllocError> {
    let is_ready = is_read_ready(kernel, FIRST, line.first, line.second);
    let attempt = read(kernel, alloc, FIRST, line.first, line.second)?;
    attempt_text(alloc, attempt, is_ready)
}

fn write_text(alloc: Global, kernel: &mut PlainKernel, line: &Line) -> Result<String, AllocError> {
    if line.rest == "*" {
        let count = (line.second as usize).min(TRANSFER_LIMIT);
        let bytes = Vec::from_elem(alloc, b'x', count)?;
        write_given(alloc, kernel, line, bytes.as_slice())
    } else {
        write_given(alloc, kernel, line, line.rest.as_bytes())
    }
}

/// What the last of so many writes of a byte answers.
fn letters_text(
    alloc: Global,
    kernel: &mut PlainKernel,
    line: &Line,
) -> Result<String, AllocError> {
    let mut text = String::new(alloc);
    for _ in 0..line.second {
        text = write_given(alloc, kernel, &Line { second: 1, ..*line }, b"a")?;
    }
    Ok(text)
}

/// A write of a number, cut to the count.
fn add_text(alloc: Global, kernel: &mut PlainKernel, line: &Line) -> Result<String, AllocError> {
    let number = line.third().to_le_bytes();
    let count = number.len().min(line.second as usize);
    write_given(alloc, kernel, line, &number[..count])
}

/// A write that was lent these bytes.
fn write_given(
    alloc: Global,
    kernel: &mut PlainKernel,
    line: &Line,
    given: &[u8],
) -> Result<String, AllocError> {
    if given.len() > TRANSFER_LIMIT {
        return Ok(String::new(alloc));
    }
    let is_ready = is_write_ready(kernel, FIRST, line.first, line.second, &front_of(given));
    let attempt = write(kernel, alloc, FIRST, THREAD, line.first, line.second, given)?;
    attempt_text(alloc, attempt, is_ready)
}

fn front_of(given: &[u8]) -> Given {
    let mut front = [0; 16];
    let count = given.len().min(16);
    front[..count].copy_from_slice(&given[..count]);
    front
}
