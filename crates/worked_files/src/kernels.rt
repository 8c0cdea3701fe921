// The first process of a kernel part: its calls, what is to be seen of it, and what it can begin with.
use plain_files::descriptors::{close, dup, dup3, fcntl};
use plain_files::files::{lseek, openat, unlinkat};
use plain_machine::{FIRST_PID, PlainKernel};
use plain_tables::Object;
use plain_tables::answer::RowResult;
use std::alloc::{AllocError, Global};
use sys_abi::{Maker, VPid};
use views::list_of::ListOf;

const FIRST: VPid = VPid(FIRST_PID);

/// The host of the first process.
const HOST: u32 = 3;

/// The six bytes of a file.
const SIX: &[u8] = b"hello\n";

#[derive(Drop)]
pub struct Caller {
    kernel: Box<PlainKernel>,
    alloc: Global,
}

/// The first of two processes on two hosts, each with the console on 0, 1 and 2.
pub fn first_process(alloc: Global) -> Result<Caller, AllocError> {
    let mut kernel = Box::new(alloc, PlainKernel::empty(alloc))?;
    kernel.add_process(alloc, FIRST_PID, HOST)?;
    kernel.add_process(alloc, FIRST_PID + 1, HOST + 1)?;
    Ok(Caller { kernel, alloc })
}

fn text(alloc: Global, bytes: &[u8]) -> Result<ListOf<u8>, AllocError> {
    Ok(ListOf::from_vec(bytes.to_vec(alloc)?))
}

/// A call of the first process.
pub enum Call {
    Dup(u32),
    /// A descriptor, another one and flags.
    Dup3(u32, u32, u32),
    /// A descriptor, a command and its argument.
    Fcntl(u32, u32, u32),
    Close(u32),
    /// A directory, a path and flags.
    Open(u32, &'static [u8], u32),
    /// A directory, a path and flags.
    Unlink(u32, &'static [u8], u32),
    /// A descriptor, an offset, and from where it counts.
    Lseek(u32, u32, u32),
}

/// What is to be seen of a kernel part and its first process.
pub enum Look {
    /// How many descriptors, descriptions, names and files are there.
    Counts([usize; 4]),
    /// Whether exec closes a descriptor.
    Mark(u32, bool),
    /// The number of a descriptor's description, among those that its process made.
    Number(u32, u32),
    /// The number of the file that is open at a descriptor.
    File(u32, u32),
    /// How many bytes the file has that is open at a descriptor.
    Length(u32, usize),
}

/// What a test puts into the kernel part.
pub enum Change {
    /// A file of six bytes gets the name `a`.
    AddFile,
    /// The process uses each descriptor.
    FillDescriptors,
    /// Files of these numbers are there, without a name, and the next one gets the last number.
    FillFiles(u32, u32),
    /// The next file gets this number.
    NextFile(u32),
    /// The process has made so many things.
    Made(u32),
}

impl Caller {
    pub fn ask(&mut self, call: &Call) -> RowResult {
        let kernel = &mut *self.kernel;
        match *call {
            Call::Dup(fd) => dup(kernel, self.alloc, FIRST, fd),
            Call::Dup3(fd, to, flags) => dup3(kernel, self.alloc, FIRST, fd, to, flags),
            Call::Fcntl(fd, command, with) => fcntl(kernel, self.alloc, FIRST, fd, command, with),
            Call::Close(fd) => close(kernel, self.alloc, FIRST, fd),
            Call::Open(at, path, flags) => openat(kernel, self.alloc, FIRST, at, flags, path),
            Call::Unlink(at, path, flags) => unlinkat(kernel, self.alloc, FIRST, at, flags, path),
            Call::Lseek(fd, by, whence) => lseek(kernel, self.alloc, FIRST, fd, by, whence),
        }
    }

    /// Whether that is to be seen.
    pub fn shows(&self, look: &Look) -> bool {
        match *look {
            Look::Counts(counts) => self.counts() == counts,
            Look::Mark(fd, mark) => self.mark(fd) == Some(mark),
            Look::Number(fd, number) => self.number(fd) == Some(number),
            Look::File(fd, number) => self.file(fd) == Some(number),
            Look::Length(fd, length) => self.length(fd) == Some(length),
        }
    }

    fn counts(&self) -> [usize; 4] {
        [
            self.kernel.descriptors.len(),
            self.kernel.descriptions.len(),
            self.kernel.names.len(),
            self.kernel.files.len(),
        ]
    }

    fn mark(&self, fd: u32) -> Option<bool> {
        let (descriptor, _) = self.kernel.held_at(FIRST, fd)?;
        Some(descriptor.cloexec)
    }

    fn number(&self, fd: u32) -> Option<u32> {
        let (descriptor, _) = self.kernel.held_at(FIRST, fd)?;
        Some(descriptor.desc.num)
    }

    fn file(&self, fd: u32) -> Option<u32> {
        let (_, description) = self.kernel.held_at(FIRST, fd)?;
        match description.object {
            Object::File { number, .. } => Some(number),
            _ => None,
        }
    }

    fn length(&self, fd: u32) -> Option<usize> {
        let number = self.file(fd)?;
        Some(self.kernel.files.get(number)?.len())
    }

    pub fn put(&mut self, change: &Change) -> Result<(), AllocError> {
        match *change {
            Change::AddFile => self.add_file(),
            Change::FillDescriptors => self.fill_descriptors(),
            Change::FillFiles(from, to) => self.fill_files(from, to),
            Change::NextFile(number) => {
                self.kernel.next_file = number;
                Ok(())
            }
            Change::Made(made) => self.has_made(made),
        }
    }

    fn add_file(&mut self) -> Result<(), AllocError> {
        self.kernel.names.insert(text(self.alloc, b"a")?, 1)?;
        self.kernel.files.insert(1, text(self.alloc, SIX)?)?;
        self.kernel.next_file = 2;
        Ok(())
    }

    fn fill_descriptors(&mut self) -> Result<(), AllocError> {
        for _ in 3..256 {
            dup(&mut self.kernel, self.alloc, FIRST, 0)?;
        }
        Ok(())
    }

    fn fill_files(&mut self, from: u32, to: u32) -> Result<(), AllocError> {
        for number in from..to {
            self.kernel.files.insert(number, ListOf::new(self.alloc))?;
        }
        self.kernel.next_file = to;
        Ok(())
    }

    fn has_made(&mut self, made: u32) -> Result<(), AllocError> {
        self.kernel
            .makers
            .insert(FIRST, Maker { host: HOST, made })?;
        Ok(())
    }
}
