ghost use Rattle.std.specs.Prelude.{◌≡◌, ◌≤◌, ◌<◌, ◌++◌, [], length, take, drop, option_map, IfOk, IfSome, OnOk, OnErr, ⊤};
ghost use Rattle.std.specs.FinMap as map;
ghost use Rattle.disk_folder.specs.Files.{contents, with_write, with_cut};
ghost use Rattle.disk_folder.specs.Crash.{CutOrNot, IsSettled, Same, Takes, Torn};
ghost use Rattle.disk_folder.specs.Moments.{Passes};
ghost use Rattle.disk_folder.specs.Faults.{HasCause};
ghost use Rattle.disk_folder.specs.History.{image_after, is_due, with_call};
ghost use Rattle.disk_folder.specs.InMemory.{Answers, in_memory};
ghost use Rattle.views.specs.Bytes.{read_from};

use crate::call::Call;
use crate::files::Files;
use crate::replay::{crash_files, redo};
use crate::request::Request;
use crate::{DiskFault, FileName, Folder};
use std::alloc::{AllocError, Global};
use std::marker::Model;
use views::duplicate::Duplicate;
use views::list_of::ListOf;

/// A folder in memory, which fails at calls that are named beforehand and keeps a record of all
/// its calls. A call that answers `Memory` was not made.
pub struct MemFolder {
    alloc: Global,
    start: Files,
    /// What reads give.
    files: Files,
    calls: Vec<Call>,
    fails: Vec<u64>,
}

// Written out, so that to other crates it is one call to drop a folder.
impl Drop for MemFolder {
    fn drop(self) {
        let MemFolder {
            alloc: _,
            start: _,
            files: _,
            calls: _,
            fails: _,
        } = self;
    }
}

impl Model for MemFolder {
    ghost use Rattle.std.specs.Prelude.{◌≡◌};
    ghost use Rattle.disk_folder.specs.History.{History, reads_after};
    ghost use Rattle.disk_folder.specs.HistoryCode.{coded_history};

    ghost Value = { History };

    ghost coded = { coded_history };

    ghost view = { λ m. record { start = m.start; calls = m.calls.items; fails = m.fails.items } };

    ghost invariant = { λ m. m.files ≡ reads_after m.start m.calls.items };
}

impl MemFolder {
    /// An empty folder whose calls of these numbers fail, counted from 1.
    pub fn new(alloc: Global, fails: &[u64]) -> Result<Self, AllocError>
        ensures { IfOk result (λ folder. folder
            ≡ record { start = map.empty; calls = []; fails = fails.now }) }
    {
        Ok(MemFolder {
            alloc,
            start: Files::new(alloc),
            files: Files::new(alloc),
            calls: Vec::new(alloc),
            fails: fails.to_vec(alloc)?,
        })
    }

    /// How many calls were made.
    pub fn calls(&self) -> u64
        ensures { result ≡ length self.now.calls }
    {
        self.calls.len() as u64
    }

    /// A folder that a crash right after the call of number `k` may leave: without the writes and
    /// cuts that no later sync had made sure (pattern 0), with all of them (1), or with all of them
    /// and each such written range, also one of a call that failed, filled with 0xA5 (2). In it no
    /// call was made and none is to fail.
    pub fn crash_image(&self, alloc: Global, k: u64, pattern: u8) -> Result<MemFolder, AllocError>
        requires first { 1 ≤ k }
        requires last { k ≤ length self.now.calls }
        requires pattern { pattern < 3 }

        ensures image { IfOk result (λ folder.
            folder ≡ record {
              start = image_after pattern self.now.start (take k self.now.calls);
              calls = [];
              fails = [];
            }) }

        // It is one of the images of the moment right after that call.
        ensures left { IfOk result (λ folder. (in_memory self.now).left_since k folder.start) }
    {
        let start = crash_files(alloc, &self.start, &self.calls[..k as usize], pattern)?;
        let files = start.duplicate(alloc)?;
        Ok(MemFolder {
            alloc,
            start,
            files,
            calls: Vec::new(alloc),
            fails: Vec::new(alloc),
        })
    }

    /// Whether the next call is to fail.
    fn is_due(&self) -> bool
        ensures { result ≡ is_due self.now }
    {
        let number = self.calls.len() as u64 + 1;
        self.fails.iter().any(|fail| *fail == number)
    }

    /// Makes a call, which is not done if it is to fail.
    fn make(&mut self, request: Request) -> Result<(), DiskFault>
        ensures { Answers request self.old self.new result }
    {
        let done = !self.is_due();
        self.keep(Call { request, done })?;
        if done { Ok(()) } else { Err(DiskFault::Failed) }
    }

    /// Takes one more call into the record, and does it unless it failed.
    fn keep(&mut self, call: Call) -> Result<(), AllocError>
        ensures ok { OnOk result (self.new ≡ with_call self.old call.request call.done) }
        ensures err { OnErr result (self.new ≡ self.old) }
    {
        self.calls.reserve(1)?;
        redo(self.alloc, &mut self.files, &call)?;
        self.calls.push(call)?;
        Ok(())
    }
}

impl Folder for MemFolder {
    ghost seen = { in_memory };

    fn len(&mut self, name: FileName) -> Result<Option<u64>, DiskFault>
        ensures made { Answers Request.Look self.old self.new result }
        ensures told { IfOk result (λ len. IfSome (in_memory self.old).files
            (λ files. len ≡ option_map length (map.get files name))) }
        ensures same { (in_memory self.new).files ≡ (in_memory self.old).files }
        ensures crash { Passes Same (in_memory self.old) (in_memory self.new) }
        ensures cause { HasCause result (in_memory self.old).faults (in_memory self.new).faults }
        ensures want { result ≡ Err DiskFault.Memory → ⊤ }
    {
        self.make(Request::Look)?;
        Ok(self.files.get(name).map(|file| file.len() as u64))
    }

    fn read_at(&mut self, name: FileName, at: u64, buf: &mut [u8]) -> Result<usize, DiskFault>
        ensures made { Answers Request.Look self.old self.new result }
        ensures fits { IfOk result (λ n. n ≤ length buf.old) }
        ensures placed { IfOk result (λ n. IfSome (in_memory self.old).files
            (λ files. n ≡ length (read_from at (length buf.old) (contents files name)))) }
        ensures bytes { IfOk result (λ n. IfSome (in_memory self.old).files
            (λ files. buf.new ≡ read_from at (length buf.old) (contents files name) ++ drop n buf.old)) }
        ensures err { OnErr result (buf.new ≡ buf.old) }
        ensures same { (in_memory self.new).files ≡ (in_memory self.old).files }
        ensures crash { Passes Same (in_memory self.old) (in_memory self.new) }
        ensures cause { HasCause result (in_memory self.old).faults (in_memory self.new).faults }
        ensures want { result ≡ Err DiskFault.Memory → ⊤ }
    {
        self.make(Request::Look)?;
        match self.files.get(name) {
            Some(file) => Ok(file.read_at(at as usize, buf)),
            None => Ok(0),
        }
    }

    /// A write that fails writes nothing. An offset past the file's end stands for its end.
    fn write_at(&mut self, name: FileName, at: u64, bytes: &[u8]) -> Result<(), DiskFault>
        ensures made { Answers (Request.Write name at bytes.now) self.old self.new result }
        ensures written { OnOk result
            ((in_memory self.new).files ≡ option_map (λ files. with_write files name at bytes.now)
            (in_memory self.old).files) }
        ensures err { OnErr result ((in_memory self.new).files ≡ (in_memory self.old).files) }
        ensures failed { result ≡ Err DiskFault.Failed
            → Takes (Torn name at (length bytes.now)) (in_memory self.old).files (in_memory self.new).files }
        ensures crash { Passes (Torn name at (length bytes.now)) (in_memory self.old) (in_memory self.new) }
        ensures memory_crash { result ≡ Err DiskFault.Memory
            → Passes Same (in_memory self.old) (in_memory self.new) }
        ensures cause { HasCause result (in_memory self.old).faults (in_memory self.new).faults }
        ensures want { result ≡ Err DiskFault.Memory → ⊤ }
    {
        let bytes = ListOf::from_vec(Vec::from_slice(self.alloc, bytes)?);
        self.make(Request::Write { name, at, bytes })
    }

    /// A cut that fails does nothing.
    fn cut(&mut self, name: FileName, len: u64) -> Result<(), DiskFault>
        ensures made { Answers (Request.Cut name len) self.old self.new result }
        ensures cut { OnOk result
            ((in_memory self.new).files ≡ option_map (λ files. with_cut files name len)
            (in_memory self.old).files) }
        ensures err { OnErr result ((in_memory self.new).files ≡ (in_memory self.old).files) }
        ensures failed { result ≡ Err DiskFault.Failed
            → Takes (CutOrNot name len) (in_memory self.old).files (in_memory self.new).files }
        ensures crash { Passes (CutOrNot name len) (in_memory self.old) (in_memory self.new) }
        ensures memory_crash { result ≡ Err DiskFault.Memory
            → Passes Same (in_memory self.old) (in_memory self.new) }
        ensures cause { HasCause result (in_memory self.old).faults (in_memory self.new).faults }
        ensures want { result ≡ Err DiskFault.Memory → ⊤ }
    {
        self.make(Request::Cut { name, len })
    }

    fn sync(&mut self) -> Result<(), DiskFault>
        ensures made { Answers Request.Sync self.old self.new result }
        ensures durable { OnOk result (IsSettled (in_memory self.new)) }
        ensures same { (in_memory self.new).files ≡ (in_memory self.old).files }
        ensures crash { Passes Same (in_memory self.old) (in_memory self.new) }
        ensures cause { HasCause result (in_memory self.old).faults (in_memory self.new).faults }
        ensures want { result ≡ Err DiskFault.Memory → ⊤ }
    {
        self.make(Request::Sync)
    }
}
