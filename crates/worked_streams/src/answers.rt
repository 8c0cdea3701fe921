//! What calls answer, as text.
use plain_tables::answer::{Answer, Attempt};
use std::alloc::{AllocError, Global};
use sys_abi::Reply;

/// An attempt, which was told before to wait or not to.
pub fn attempt_text(
    alloc: Global,
    attempt: Attempt,
    was_ready: bool,
) -> Result<String, AllocError> {
    let mut text = told(alloc, &attempt)?;
    if was_ready == matches!(&attempt, Attempt::NotReady) {
        text.push_str(", told otherwise")?;
    }
    Ok(text)
}

fn told(alloc: Global, attempt: &Attempt) -> Result<String, AllocError> {
    match attempt {
        Attempt::Gives(answer) => answer_text(alloc, answer),
        Attempt::Fails(error) => format!(in alloc; ": error {}", error.0),
        Attempt::NotReady => format!(in alloc; ": waits"),
    }
}

fn answer_text(alloc: Global, answer: &Answer) -> Result<String, AllocError> {
    let mut text = match answer.reply {
        Reply::Value(value) => format!(in alloc; ": {value}")?,
        Reply::Error(error) => format!(in alloc; ": error {} with an effect", error.0)?,
    };
    if answer.is_shown {
        text.push_str(", shown")?;
    }
    if answer.bytes.len() > 0 {
        text.push_str(bytes_text(alloc, answer.bytes.as_slice())?.as_str())?;
    }
    Ok(text)
}

/// How many bytes, and the first ones in hexadecimal.
pub fn bytes_text(alloc: Global, bytes: &[u8]) -> Result<String, AllocError> {
    let count = bytes.len();
    let mut text = format!(in alloc; "; {count} bytes")?;
    for byte in bytes.iter().take(16) {
        text.push_str(format!(in alloc; " {byte:02x}")?.as_str())?;
    }
    Ok(text)
}
