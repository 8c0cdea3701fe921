ghost use Rattle.std.specs.Prelude.{◌≡◌};
ghost use Rattle.sys_abi.specs.Lives.{lives};

/// Whether a process lives, or has ended and its parent has not waited for it (`man 2 wait4`).
#[derive(Clone, Copy)]
pub enum Life {
    Live,
    /// With the status that its parent reads.
    Zombie(u32),
}

impl Life {
    pub fn is_live(self) -> bool
        ensures { result ≡ lives self }
    {
        match self {
            Life::Live => true,
            Life::Zombie(_) => false,
        }
    }
}
