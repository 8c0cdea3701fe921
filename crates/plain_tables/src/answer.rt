ghost use Rattle.std.specs.Prelude.{◌≡◌, false, []};
ghost use Rattle.id_maps.specs.OfSysAbi.declared.reply.Reply.TheVariants.{Value};
ghost use Rattle.plain_tables.specs.Settled.{settled_told};
ghost use Rattle.plain_tables.specs.declared.answer.Attempt.TheVariants as an_attempt;

use id_maps::sys_abi::{Errno, Reply};
use plain_process::views::list_of::ListOf;
use std::alloc::{AllocError, Global};

/// What a call answers, apart from the change of the kernel part.
#[derive(Drop)]
pub struct Answer {
    pub reply: Reply,
    /// The bytes for the guest's memory.
    pub bytes: ListOf<u8>,
    /// Whether the bytes that the call read go to the console.
    pub is_shown: bool,
}

/// What a call's row comes to.
#[derive(Drop)]
pub enum Attempt {
    /// The call is served, or fails with an effect, and answers this.
    Gives(Answer),
    /// The call fails and changes nothing.
    Fails(Errno),
    /// The call waits.
    NotReady,
}

/// What a row's function answers.
pub type RowResult = Result<Attempt, AllocError>;

impl Attempt {
    /// A row that gives a number alone.
    pub fn value(alloc: Global, number: u32) -> Attempt
        ensures { result ≡ an_attempt.Gives (record { reply = Value number; bytes = []; is_shown = false }) }
    {
        Attempt::Gives(Answer {
            reply: Reply::Value(number),
            bytes: ListOf::new(alloc),
            is_shown: false,
        })
    }

    /// A row that refuses.
    pub fn fails(error: u16) -> Attempt
        ensures { result ≡ an_attempt.Fails (record { 0 = error }) }
    {
        Attempt::Fails(Errno(error))
    }
}

/// The answer of a row: an error is one too, and there is none where the call waits.
pub fn settled(alloc: Global, attempt: Attempt) -> Option<Answer>
    ensures { result ≡ settled_told attempt }
{
    match attempt {
        Attempt::Gives(answer) => Some(answer),
        Attempt::Fails(error) => Some(Answer {
            reply: Reply::Error(error),
            bytes: ListOf::new(alloc),
            is_shown: false,
        }),
        Attempt::NotReady => None,
    }
}
