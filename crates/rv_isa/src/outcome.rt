use sys_abi::Signal;

/// What one instruction came to.
#[derive(Clone, Copy)]
pub enum Outcome {
    /// It is done, and the program counter stands at the next one.
    Next,
    /// It asks for a call (ECALL); nothing has changed.
    Call,
    /// It traps with a signal (`man 7 signal`); nothing has changed.
    Trap(Signal),
    /// Memory of the machine that runs the guest ran out; nothing has changed.
    Memory,
}
