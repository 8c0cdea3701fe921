ghost use Rattle.std.specs.Prelude.{◌≡◌, ℕ, ◌<◌, ◌*◌, ◌^◌, Err, OnErr, IfOk};
ghost use Rattle.plain_process.specs.Memory.{Memory, load, store};
ghost use Rattle.rv_words.specs.Accesses.{IsAccessSize, IsLoaded, IsStored};

use thiserror::Error;

/// Why an access was not made.
#[derive(Clone, Copy, Debug, Error)]
pub enum AccessFault {
    /// A page of it is missing or lacks the right.
    #[error("a page is missing or lacks the right")]
    Fault,
    /// Memory of the machine that runs the guest ran out.
    #[error("out of memory")]
    Memory,
}

/// The memory that instructions load from and store to, at any address, aligned or not. Numbers are
/// little-endian.
pub trait GuestMemory {
    ghost memory: { Self → Memory };

    // Want of memory comes only where this holds.
    ghost may_want: { Self → Type 0 };

    /// The number that the 1, 2 or 4 bytes from `address` on spell.
    ///
    /// # Errors
    ///
    /// `Fault` exactly where the memory has no such load.
    fn load(&self, address: u32, size: u32) -> Result<u32, AccessFault>
        requires { IsAccessSize size }
        ensures answer { IsLoaded result (load (memory self.now) address size) }
        ensures fits { IfOk result (λ value. value < 256 ^ size) }
        ensures want { result ≡ Err AccessFault.Memory → may_want self.now };

    /// Writes the lowest 1, 2 or 4 bytes of `value` from `address` on.
    ///
    /// # Errors
    ///
    /// `Fault` exactly where the memory has no such store. After any error the memory is as before.
    fn store(&mut self, address: u32, size: u32, value: u32) -> Result<(), AccessFault>
        requires { IsAccessSize size }
        ensures answer { IsStored result (store (memory self.old) address size value) (memory self.new) }
        ensures err { OnErr result (memory self.new ≡ memory self.old) }
        ensures want { result ≡ Err AccessFault.Memory → may_want self.old };
}
