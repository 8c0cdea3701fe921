//! What a row over real numbers answers.
ghost use Rattle.std.specs.Prelude.{◌≡◌};
ghost use Rattle.wrap_sockets.specs.Replies as words;

use host_tables::{Attempt, KernelReply, RowResult};

/// The answer of a row over real numbers.
pub(crate) fn reply_of(answered: RowResult) -> KernelReply
    ensures { result ≡ words.reply_of answered }
{
    match answered {
        Ok(Attempt::Gives(value)) => KernelReply::Done(value),
        Ok(Attempt::Fails(error)) => KernelReply::Error(error),
        Ok(Attempt::NotReady) => KernelReply::NotReady,
        Err(_) => KernelReply::Memory,
    }
}
