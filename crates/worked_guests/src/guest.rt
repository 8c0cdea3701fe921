use crate::assembler::assembled;
use crate::fault::CaseFault;
use crate::numbers::{Numbers, byte, hexadecimal, unsigned};
use std::alloc::{AllocError, Global};
use std::collections::BTreeMap;

/// The guests by their names.
pub type Guests = BTreeMap<String, Guest>;

/// The headers of a file that is loaded whole at 0x10000, readable and executable, with its two
/// sizes left out.
const HEADERS: [u8; 84] = [
    0x7F, 0x45, 0x4C, 0x46, 1, 1, 1, 0, 0, 0, 0, 0, 0, 0, 0, 0, 2, 0, 0xF3, 0, 1, 0, 0, 0, 0x54, 0,
    1, 0, 0x34, 0, 0, 0, 0, 0, 0, 0, 0, 0, 0, 0, 0x34, 0, 0x20, 0, 1, 0, 0, 0, 0, 0, 0, 0, 1, 0, 0,
    0, 0, 0, 0, 0, 0, 0, 1, 0, 0, 0, 1, 0, 0, 0, 0, 0, 0, 0, 0, 0, 5, 0, 0, 0, 0, 0x10, 0, 0,
];

/// The bytes of a guest behind the headers of its file, and the words that its steps are to note.
#[derive(Drop)]
pub struct Guest {
    pub bytes: Vec<u8>,
    pub notes: Vec<u32>,
}

impl Guest {
    pub fn new(alloc: Global) -> Self {
        Guest {
            bytes: Vec::new(alloc),
            notes: Vec::new(alloc),
        }
    }

    /// Takes a line of the guest.
    pub fn take(
        &mut self,
        numbers: &Numbers,
        guests: &Guests,
        words: &[String],
    ) -> Result<(), CaseFault> {
        let [first, rest @ ..] = words else {
            return Ok(());
        };
        match (first.as_str(), rest) {
            ("text", [text]) => Ok(self.bytes.extend_from_slice(text.as_bytes())?),
            ("bytes", digits) => self.put_bytes(digits),
            ("words", values) => self.put_words(numbers, values),
            ("rising", [count, modulus]) => self.put_rising(count.as_str(), modulus.as_str()),
            ("like", [name]) => self.put_guest(guests, name.as_str()),
            ("replace", [place, line @ ..]) => self.replace(numbers, place.as_str(), line),
            ("times", [count, line @ ..]) => self.repeat(numbers, count.as_str(), line),
            ("step", step) => self.put_step(numbers, step),
            _ => self.put_word(assembled(numbers, words)?),
        }
    }

    fn put_word(&mut self, word: u32) -> Result<(), CaseFault> {
        self.bytes.extend_from_slice(&word.to_le_bytes())?;
        Ok(())
    }

    fn put_bytes(&mut self, digits: &[String]) -> Result<(), CaseFault> {
        for digits in digits {
            self.bytes.push(byte(hexadecimal(digits.as_str())?)?)?;
        }
        Ok(())
    }

    fn put_words(&mut self, numbers: &Numbers, words: &[String]) -> Result<(), CaseFault> {
        for word in words {
            self.put_word(numbers.read(word.as_str())?)?;
        }
        Ok(())
    }

    /// So many bytes that rise from 0, and begin again below this one.
    fn put_rising(&mut self, count: &str, modulus: &str) -> Result<(), CaseFault> {
        let modulus = byte(unsigned(modulus)?)?;
        let mut next: u8 = 0;
        for _ in 0..unsigned(count)? {
            self.bytes.push(next)?;
            next = next.saturating_add(1);
            if next >= modulus {
                next = 0;
            }
        }
        Ok(())
    }

    fn put_guest(&mut self, guests: &Guests, name: &str) -> Result<(), CaseFault> {
        let Some(guest) = guests.get(name) else {
            return Err(CaseFault::Unclear);
        };
        self.bytes.extend_from_slice(guest.bytes.as_slice())?;
        self.notes.extend_from_slice(guest.notes.as_slice())?;
        Ok(())
    }

    /// Puts an instruction in the place of the one of this number, counted from 0.
    fn replace(
        &mut self,
        numbers: &Numbers,
        place: &str,
        line: &[String],
    ) -> Result<(), CaseFault> {
        let word = assembled(numbers, line)?;
        let start = (unsigned(place)? as usize).saturating_mul(4);
        let end = start.saturating_add(4);
        match self.bytes.as_mut_slice().get_mut(start..end) {
            Some(bytes) => Ok(overwrite(bytes, word)),
            None => Err(CaseFault::Unclear),
        }
    }

    /// Takes a step so many times.
    fn repeat(&mut self, numbers: &Numbers, count: &str, line: &[String]) -> Result<(), CaseFault> {
        let [_, step @ ..] = line else {
            return Err(CaseFault::Unclear);
        };
        for _ in 0..unsigned(count)? {
            self.put_step(numbers, step)?;
        }
        Ok(())
    }

    /// The six words of a step, and behind `->` the word that is to be noted next.
    fn put_step(&mut self, numbers: &Numbers, words: &[String]) -> Result<(), CaseFault> {
        let [call @ .., arrow, note] = words else {
            return Err(CaseFault::Unclear);
        };
        if arrow.as_str() != "->" || call.len() > 6 {
            return Err(CaseFault::Unclear);
        }
        self.put_words(numbers, call)?;
        for _ in call.len()..6 {
            self.put_word(0)?;
        }
        self.notes.push(numbers.read(note.as_str())?)?;
        Ok(())
    }

    /// The program's file: the headers, and the bytes behind them.
    pub fn program(&self, alloc: Global) -> Result<Vec<u8>, AllocError> {
        let size = (self.bytes.len() as u64)
            .saturating_add(84)
            .min(u32::MAX as u64) as u32;
        let mut file = Vec::new(alloc);
        file.extend_from_slice(&HEADERS[..68])?;
        file.extend_from_slice(&size.to_le_bytes())?;
        file.extend_from_slice(&size.to_le_bytes())?;
        file.extend_from_slice(&HEADERS[76..])?;
        file.extend_from_slice(self.bytes.as_slice())?;
        Ok(file)
    }
}

/// The guest of this name.
pub fn guest_of<'a>(guests: &'a Guests, name: &str) -> Result<&'a Guest, CaseFault> {
    match guests.get(name) {
        Some(guest) => Ok(guest),
        None => Err(CaseFault::Unclear),
    }
}

fn overwrite(bytes: &mut [u8], word: u32) {
    for (place, byte) in bytes.iter_mut().zip(word.to_le_bytes()) {
        *place = byte;
    }
}
