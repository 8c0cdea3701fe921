use crate::outcome::{Outcome, Streams};
use dmtcp_top::run_words;
use edge_io::{MemInputs, MemSink};
use set_disk::MemFolder;
use std::alloc::{AllocError, Global};
use std::collections::BTreeMap;
use trace_log::Trace;
use worked_guests::fault::CaseFault;

/// What each call of a case is given: the files among its inputs, and which calls of the inputs,
/// the console and the log are to fail.
pub struct Setting {
    alloc: Global,
    files: BTreeMap<String, Vec<u8>>,
    inputs_fail: Vec<u64>,
    console_fails: Vec<u64>,
    log_fails: Vec<u64>,
}

// Written out, so that it is one call to drop a setting.
impl Drop for Setting {
    fn drop(self) {
        let Setting {
            alloc: _,
            files: _,
            inputs_fail: _,
            console_fails: _,
            log_fails: _,
        } = self;
    }
}

impl Setting {
    pub fn new(alloc: Global) -> Self {
        Setting {
            alloc,
            files: BTreeMap::new(alloc),
            inputs_fail: Vec::new(alloc),
            console_fails: Vec::new(alloc),
            log_fails: Vec::new(alloc),
        }
    }

    /// Puts a file among the inputs.
    pub fn put_file(&mut self, name: &str, bytes: Vec<u8>) -> Result<(), AllocError> {
        self.files
            .insert(String::from_str(self.alloc, name)?, bytes)?;
        Ok(())
    }

    /// The file of this name.
    pub fn file(&self, name: &str) -> Result<&[u8], CaseFault> {
        match self.files.get(name) {
            Some(bytes) => Ok(bytes.as_slice()),
            None => Err(CaseFault::Unclear),
        }
    }

    /// Cuts a file to so many bytes.
    pub fn cut(&mut self, name: &str, length: usize) -> Result<(), CaseFault> {
        match self.files.get_mut(name) {
            Some(bytes) => Ok(bytes.truncate(length)),
            None => Err(CaseFault::Unclear),
        }
    }

    /// Puts a byte in a file's place.
    pub fn poke(&mut self, name: &str, place: usize, byte: u8) -> Result<(), CaseFault> {
        let Some(bytes) = self.files.get_mut(name) else {
            return Err(CaseFault::Unclear);
        };
        put_byte(bytes.as_mut_slice(), place, byte)
    }

    /// Puts bytes behind a file.
    pub fn append(&mut self, name: &str, more: &[u8]) -> Result<(), CaseFault> {
        match self.files.get_mut(name) {
            Some(bytes) => Ok(bytes.extend_from_slice(more)?),
            None => Err(CaseFault::Unclear),
        }
    }

    /// Lets no call of a stream fail.
    pub fn fail_nowhere(&mut self) {
        self.inputs_fail.clear();
        self.console_fails.clear();
        self.log_fails.clear();
    }

    /// Lets a call of a stream fail, by its number from 1.
    pub fn fail(&mut self, stream: &str, call: u64) -> Result<(), CaseFault> {
        match stream {
            "inputs" => self.inputs_fail.push(call)?,
            "console" => self.console_fails.push(call)?,
            "log" => self.log_fails.push(call)?,
            _ => return Err(CaseFault::Unclear),
        }
        Ok(())
    }

    fn inputs(&self) -> Result<MemInputs, AllocError> {
        let mut inputs = MemInputs::new(self.alloc, self.inputs_fail.as_slice())?;
        for (name, bytes) in self.files.iter() {
            inputs.add(name.as_str(), bytes.as_slice())?;
        }
        Ok(inputs)
    }

    /// The streams of one call.
    pub fn streams(&self) -> Result<Box<Streams>, AllocError> {
        let streams = Streams {
            inputs: self.inputs()?,
            console: MemSink::new(self.alloc, self.console_fails.as_slice())?,
            log: MemSink::new(self.alloc, self.log_fails.as_slice())?,
        };
        Ok(Box::new(self.alloc, streams)?)
    }

    /// Makes the top call with these words, in a folder with what earlier calls left there.
    pub fn call(&self, words: &[String], disk: &mut MemFolder) -> Result<Box<Outcome>, AllocError> {
        let mut streams = self.streams()?;
        let mut trace = Trace::new(self.alloc);
        let lent: &mut Streams = &mut streams;
        let status = run_words(
            self.alloc,
            words,
            &mut lent.inputs,
            &mut lent.console,
            &mut lent.log,
            disk,
            &mut trace,
        );
        let outcome = Outcome {
            status,
            trace,
            streams,
        };
        Ok(Box::new(self.alloc, outcome)?)
    }
}

fn put_byte(bytes: &mut [u8], place: usize, byte: u8) -> Result<(), CaseFault> {
    if place >= bytes.len() {
        return Err(CaseFault::Unclear);
    }
    bytes[place] = byte;
    Ok(())
}
