use crate::fault::CaseFault;
use std::alloc::{AllocError, Global};
use std::collections::BTreeMap;

/// The numbers that have names.
#[derive(Drop)]
pub struct Numbers {
    named: BTreeMap<String, u32>,
}

impl Numbers {
    pub fn new(alloc: Global) -> Self {
        Numbers {
            named: BTreeMap::new(alloc),
        }
    }

    /// Gives a number a name.
    pub fn name(&mut self, alloc: Global, name: &str, value: u32) -> Result<(), AllocError> {
        let name = String::from_str(alloc, name)?;
        self.named.insert(name, value)?;
        Ok(())
    }

    /// The number that a word stands for, modulo 2^32: digits, hexadecimal ones behind `0x`, with
    /// or without a `-`, or a name, with or without digits behind a `+`.
    pub fn read(&self, word: &str) -> Result<u32, CaseFault> {
        if let Some(digits) = word.strip_prefix('-') {
            return Ok(0_u32.wrapping_sub(unsigned(digits)?));
        }
        match word.split_once('+') {
            Some((name, digits)) => Ok(self.find(name)?.wrapping_add(unsigned(digits)?)),
            None => self.find(word),
        }
    }

    /// The number of this name, or that these digits spell.
    fn find(&self, word: &str) -> Result<u32, CaseFault> {
        match self.named.get(word) {
            Some(value) => Ok(*value),
            None => unsigned(word),
        }
    }
}

/// The number that these digits spell.
pub fn unsigned(word: &str) -> Result<u32, CaseFault> {
    match word.strip_prefix("0x") {
        Some(digits) => hexadecimal(digits),
        None => word.parse::<u32>().map_err(|_| CaseFault::Unclear),
    }
}

/// The number that these hexadecimal digits spell.
pub fn hexadecimal(digits: &str) -> Result<u32, CaseFault> {
    u32::from_str_radix(digits, 16).map_err(|_| CaseFault::Unclear)
}

/// The number of 64 bits that these digits spell.
pub fn long(word: &str) -> Result<u64, CaseFault> {
    word.parse::<u64>().map_err(|_| CaseFault::Unclear)
}

/// The byte that this number is.
pub fn byte(number: u32) -> Result<u8, CaseFault> {
    u8::try_from(number).map_err(|_| CaseFault::Unclear)
}
