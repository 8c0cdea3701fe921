use plain_process::user_part::SignalAction;

/// What a call answers that its process answers alone.
#[derive(Clone, Copy)]
pub enum LocalAnswer {
    /// A word.
    Value(u32),
    /// 0, and an action for the call's buffer.
    Action(SignalAction),
    /// 0, and a mask for the call's buffer.
    Mask(u32),
    /// Nothing: the thread waits, or goes on elsewhere.
    Stays,
}
