ghost use Rattle.std.specs.Prelude.{◌≡◌};
ghost use Rattle.thread_group.specs.Local as words;

use plain_process::SignalAction;
use process_memory::LocalFault;

/// What a call answers that its process answers alone.
#[derive(Clone, Copy)]
pub enum LocalAnswer {
    /// A word.
    Value(u32),
    /// 0, and an action for the call's buffer.
    Action(SignalAction),
    /// 0, and a mask for the call's buffer.
    Mask(u32),
    /// Nothing: the thread waits, or goes on elsewhere.
    Stays,
}

/// The answer of a call that answers a word.
pub fn value_answer(made: Result<u32, LocalFault>) -> Result<LocalAnswer, LocalFault>
    ensures { result ≡ words.value_answer made }
{
    match made {
        Ok(value) => Ok(LocalAnswer::Value(value)),
        Err(fault) => Err(fault),
    }
}

/// The answer of a call that answers an action.
pub fn action_answer(made: Result<SignalAction, LocalFault>) -> Result<LocalAnswer, LocalFault>
    ensures { result ≡ words.action_answer made }
{
    match made {
        Ok(action) => Ok(LocalAnswer::Action(action)),
        Err(fault) => Err(fault),
    }
}

/// The answer of a call that answers a mask.
pub fn mask_answer(made: Result<u32, LocalFault>) -> Result<LocalAnswer, LocalFault>
    ensures { result ≡ words.mask_answer made }
{
    match made {
        Ok(mask) => Ok(LocalAnswer::Mask(mask)),
        Err(fault) => Err(fault),
    }
}

/// A call that answers nothing yet.
pub fn no_answer(made: Result<(), LocalFault>) -> Result<LocalAnswer, LocalFault>
    ensures { result ≡ words.no_answer made }
{
    match made {
        Ok(()) => Ok(LocalAnswer::Stays),
        Err(fault) => Err(fault),
    }
}
