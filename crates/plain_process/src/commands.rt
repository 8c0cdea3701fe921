//! The commands of fcntl (`man 2 fcntl`).
ghost use Rattle.std.specs.Prelude.{◌≡◌};
ghost use Rattle.plain_process.specs.Commands as commands;

/// What fcntl is asked for.
#[derive(Clone, Copy)]
pub enum FcntlCommand {
    /// A descriptor more to the same description.
    DupFd,
    /// Whether exec closes the descriptor.
    GetFd,
    SetFd,
    /// The description's status flags.
    GetFl,
    SetFl,
    /// The description's owner.
    SetOwn,
    GetOwn,
    /// A descriptor more, which exec closes.
    DupFdCloexec,
}

impl FcntlCommand {
    /// The command of a number, None where no command has it.
    #[tactic(auto, unfolding(crate::specs::Commands::fcntl_command))]
    pub fn of(number: u32) -> Option<FcntlCommand>
        ensures { result ≡ commands.fcntl_command number }
    {
        match number {
            0 => Some(FcntlCommand::DupFd),
            1 => Some(FcntlCommand::GetFd),
            2 => Some(FcntlCommand::SetFd),
            3 => Some(FcntlCommand::GetFl),
            4 => Some(FcntlCommand::SetFl),
            8 => Some(FcntlCommand::SetOwn),
            9 => Some(FcntlCommand::GetOwn),
            1030 => Some(FcntlCommand::DupFdCloexec),
            _ => None,
        }
    }
}
