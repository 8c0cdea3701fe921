use crate::chain::{Chain, Kept};
use crate::outcome::Outcome;
use crate::setting::Setting;
use set_disk::MemFolder;
use std::alloc::{AllocError, Global};
use worked_guests::fault::CaseFault;

/// What a case is run on: what each call is given, the folder with the calls made there so far,
/// what the last of them left, and a chain of calls beside the undisturbed one.
pub struct Bench {
    alloc: Global,
    pub setting: Setting,
    pub disk: MemFolder,
    pub earlier: Vec<Vec<String>>,
    pub last: Option<Box<Outcome>>,
    whole: Option<Box<Outcome>>,
    chain: Chain,
}

// Written out, so that it is one call to drop a bench.
impl Drop for Bench {
    fn drop(self) {
        let Bench {
            alloc: _,
            setting: _,
            disk: _,
            earlier: _,
            last: _,
            whole: _,
            chain: _,
        } = self;
    }
}

impl Bench {
    pub fn new(alloc: Global) -> Result<Self, AllocError> {
        let disk = MemFolder::new(alloc, &[])?;
        Ok(Bench {
            alloc,
            setting: Setting::new(alloc),
            disk,
            earlier: Vec::new(alloc),
            last: None,
            whole: None,
            chain: Chain::new(alloc),
        })
    }

    /// Begins with this folder, and a chain of calls in it.
    pub fn set_folder(&mut self, disk: MemFolder) {
        self.disk = disk;
        self.earlier.clear();
        self.chain = Chain::new(self.alloc);
    }

    /// Begins with an empty folder.
    pub fn clear_folder(&mut self) -> Result<(), AllocError> {
        self.set_folder(MemFolder::new(self.alloc, &[])?);
        Ok(())
    }

    /// Makes a call in the folder.
    pub fn run(&mut self, words: Vec<String>) -> Result<(), AllocError> {
        let outcome = self.setting.call(words.as_slice(), &mut self.disk)?;
        self.last = Some(outcome);
        self.earlier.push(words)?;
        Ok(())
    }

    /// Makes the undisturbed call, in a folder of its own, with which chains are compared.
    pub fn run_whole(&mut self, words: &[String]) -> Result<(), AllocError> {
        let mut disk = MemFolder::new(self.alloc, &[])?;
        let outcome = self.setting.call(words, &mut disk)?;
        self.whole = Some(outcome);
        Ok(())
    }

    /// What the last call left.
    pub fn outcome(&self) -> Result<&Outcome, CaseFault> {
        made(&self.last)
    }

    /// What the undisturbed call left.
    pub fn whole(&self) -> Result<&Outcome, CaseFault> {
        made(&self.whole)
    }

    /// Takes the last call into the chain, up to its last set.
    pub fn chain_part(&mut self) -> Result<Kept, CaseFault> {
        Ok(self.chain.take_part(made(&self.last)?)?)
    }

    /// Takes all of the last call into the chain.
    pub fn chain_end(&mut self) -> Result<Kept, CaseFault> {
        Ok(self.chain.take_whole(made(&self.last)?)?)
    }

    /// Whether the chain did what the undisturbed call did.
    pub fn is_as_whole(&self) -> bool {
        match &self.whole {
            Some(whole) => self.chain.is_like(whole),
            None => false,
        }
    }
}

/// What a call left, if it was made.
fn made(outcome: &Option<Box<Outcome>>) -> Result<&Outcome, CaseFault> {
    match outcome {
        Some(outcome) => Ok(&**outcome),
        None => Err(CaseFault::Unclear),
    }
}
