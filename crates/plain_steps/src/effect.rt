use sys_abi::Signal;

/// What an instruction does.
#[derive(Clone, Copy)]
pub enum Effect {
    /// It goes on.
    Next,
    /// It asks for a call, and changes nothing.
    Calls,
    /// It traps with a signal, and changes nothing.
    Traps(Signal),
}
