// The bytes of process images.
use std::alloc::{AllocError, Global};

/// What stands next in an image.
#[derive(Clone, Copy)]
pub enum Part {
    Words(&'static [u32]),
    /// So many bytes that are 0.
    Zeros(usize),
    /// Pages of zeros with the numbers from one up to another, and with these rights.
    Pages(u32, u32, u8),
    /// The page that a handler returns to.
    ReturnPage,
    /// Threads, each with how many contexts it has saved.
    Threads(&'static [(u32, u32)]),
}

/// The parts of an image after its magic, in pieces.
pub type Image = &'static [&'static [Part]];

/// What a process does by default on each signal.
pub const DEFAULT_ACTIONS: Part = Part::Zeros(31 * 12);

/// The rights of the page that a handler returns to, and then `addi a7, zero, 139`, `ecall`.
static RETURN_CODE: [u8; 9] = [5, 0x93, 0x08, 0xB0, 0x08, 0x73, 0x00, 0x00, 0x00];

/// The bytes of the image.
pub fn bytes_of(alloc: Global, image: Image) -> Result<Vec<u8>, AllocError> {
    let mut bytes = b"DMTPRC01".to_vec(alloc)?;
    put_image(&mut bytes, image)?;
    Ok(bytes)
}

fn put_image(bytes: &mut Vec<u8>, image: Image) -> Result<(), AllocError> {
    for parts in image {
        put_parts(bytes, parts)?;
    }
    Ok(())
}

fn put_parts(bytes: &mut Vec<u8>, parts: &[Part]) -> Result<(), AllocError> {
    for part in parts {
        put(bytes, *part)?;
    }
    Ok(())
}

fn put(bytes: &mut Vec<u8>, part: Part) -> Result<(), AllocError> {
    match part {
        Part::Words(words) => put_words(bytes, words),
        Part::Zeros(count) => put_zeros(bytes, count),
        Part::Pages(first, end, rights) => put_pages(bytes, first, end, rights),
        Part::ReturnPage => put_return_page(bytes),
        Part::Threads(threads) => put_threads(bytes, threads),
    }
}

fn put_word(bytes: &mut Vec<u8>, word: u32) -> Result<(), AllocError> {
    bytes.extend_from_slice(&word.to_le_bytes())
}

fn put_words(bytes: &mut Vec<u8>, words: &[u32]) -> Result<(), AllocError> {
    for word in words {
        put_word(bytes, *word)?;
    }
    Ok(())
}

fn put_zeros(bytes: &mut Vec<u8>, count: usize) -> Result<(), AllocError> {
    for _ in 0..count {
        bytes.push(0)?;
    }
    Ok(())
}

fn put_pages(bytes: &mut Vec<u8>, first: u32, end: u32, rights: u8) -> Result<(), AllocError> {
    for number in first..end {
        put_word(bytes, number)?;
        bytes.push(rights)?;
        put_zeros(bytes, 4096)?;
    }
    Ok(())
}

fn put_return_page(bytes: &mut Vec<u8>) -> Result<(), AllocError> {
    put_word(bytes, 0x80000)?;
    bytes.extend_from_slice(&RETURN_CODE)?;
    put_zeros(bytes, 4088)
}

fn put_threads(bytes: &mut Vec<u8>, threads: &[(u32, u32)]) -> Result<(), AllocError> {
    for (tid, contexts) in threads {
        put_thread(bytes, *tid, *contexts)?;
    }
    Ok(())
}

fn put_thread(bytes: &mut Vec<u8>, tid: u32, contexts: u32) -> Result<(), AllocError> {
    put_word(bytes, tid)?;
    put_registers(bytes, tid, 3)?;
    put_word(bytes, contexts)?;
    for i in 0..contexts {
        put_registers(bytes, i, 2)?;
    }
    Ok(())
}

/// The registers x1 to x31, and so many words that follow them, from a first word on.
fn put_registers(bytes: &mut Vec<u8>, first: u32, more: u32) -> Result<(), AllocError> {
    for i in 0..31 {
        put_word(bytes, first.wrapping_add(i))?;
    }
    for i in 0..more {
        put_word(bytes, first.wrapping_mul(i))?;
    }
    Ok(())
}
