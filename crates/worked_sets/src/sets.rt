// Whole sets.
use crate::editing::of_words;
use crate::processes::add_process;
use image_codec::SetBytes;
use rebuild::{Decoded, decode_set};
use std::alloc::{AllocError, Global};
use std::io;
use views::list_of::ListOf;

/// The set of a shared image and the images of these words.
fn set_of(alloc: Global, shared: &[u8], images: &str) -> io::Result<SetBytes> {
    let mut files = Vec::new(alloc);
    files.push(ListOf::from_vec(Vec::from_slice(alloc, shared)?))?;
    for image in images.split('/') {
        files.push(ListOf::from_vec(of_words(alloc, image)?))?;
    }
    Ok(SetBytes::of_files(ListOf::from_vec(files)))
}

pub fn told(alloc: Global, shared: &[u8], images: &str) -> io::Result<String> {
    let set = set_of(alloc, shared, images)?;
    let text = match decode_set(alloc, &set) {
        Ok(decoded) => text(alloc, &decoded),
        Err(fault) => format!(in alloc; "{fault}"),
    };
    Ok(text?)
}

fn text(alloc: Global, decoded: &Decoded) -> Result<String, AllocError> {
    let mut text = format!(in alloc;
        "{} processes, {} live",
        decoded.shared.processes.len(),
        decoded.procs.len()
    )?;
    for process in &decoded.procs {
        add_process(alloc, &mut text, process)?;
    }
    Ok(text)
}
