//! The words of the command line, and the job that they ask for.
//!
//! To a caller [`read_words`] takes the words behind the program's own name and gives a [`Job`]: a launch of
//! programs, a restart, the worked ring, or the forms of the command line, each with its options under their
//! names and with the defaults filled in. A program's arguments come as the bytes that a process is started
//! with, each string with its zero byte. The name of a file is a [`FileName`], which contracts see as the
//! list of its bytes. `specs/Commands.antt` says which words a command line has, `specs/Jobs.antt` what it
//! asks for; options and numbers stand in `option_words`. [`outline_words`] tells what a job is and where it
//! runs, as far as that takes no memory.
//!
//! That the words are of the grammar is tested first. Then the options of a restart or of a ring are handed
//! to `clap`, whose contract says what it makes of the words, so that no parse fails but for want of memory;
//! those of a launch are kept as they were tested, and its programs read word by word.
//!
//! Proved: the job is that of a command which spells these words; the answer is [`WordFault::Usage`] exactly
//! where no command spells them, so it never gives way to want of memory; and words are of one command, and
//! ask for one job, at most. Not proved: that memory is wanted only where there is none (`worked_lines` reads
//! words with ample memory). The grammar is this project's own; a program's argument strings are those of the
//! System V ABI.
#![tactic(auto)]

mod job;
mod outline;
mod parsed;
mod programs;
mod reader;
mod word_fault;

pub use job::{Job, LaunchJob, NamedProgram, RestartJob, RingJob};
pub use option_words::FileName;
pub use outline::{LaunchOutline, Outline, RestartOutline, RingOutline, outline_words};
pub use reader::{read_words, word_laws};
pub use word_fault::WordFault;
