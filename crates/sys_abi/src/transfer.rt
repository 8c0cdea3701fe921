ghost use Rattle.std.specs.Prelude.{◌≡◌, ℕ, ◌+◌, ◌≤◌, List, [], ◌++◌, length, IfOk};

use std::alloc::{AllocError, Global};
use std::marker::Model;

/// How many bytes a call moves at most.
pub const TRANSFER_LIMIT: usize = 65_536;

/// The bytes that a call reads from its process or gives to it: a list of at most 65,536 bytes, whose room is
/// taken once.
#[derive(Drop)]
pub struct Transfer {
    bytes: Vec<u8>,
}

impl Model for Transfer {
    ghost use Rattle.std.specs.Prelude.{ℕ, ◌≤◌, List, length, vec_capacity};
    ghost use Rattle.sys_abi.specs.declared.transfer.TheConstants.{TRANSFER_LIMIT};

    ghost Value = { List ℕ };

    ghost view = { λ t. t.bytes.items };

    ghost invariant = { λ t. (length t.bytes.items ≤ TRANSFER_LIMIT) × (TRANSFER_LIMIT ≤ vec_capacity t.bytes) };
}

impl Transfer {
    /// An empty transfer with room for 65,536 bytes.
    pub fn new(alloc: Global) -> Result<Transfer, AllocError>
        ensures { IfOk result (λ transfer. transfer ≡ []) }
    {
        Ok(Transfer {
            bytes: Vec::with_capacity(alloc, TRANSFER_LIMIT)?,
        })
    }

    pub fn clear(&mut self)
        ensures { self.new ≡ [] }
    {
        self.bytes.clear();
    }

    /// Appends the piece. Takes no memory.
    pub fn put(&mut self, piece: &[u8])
        requires { length self.old + length piece.now ≤ TRANSFER_LIMIT }
        ensures { self.new ≡ self.old ++ piece.now }
    {
        let _ = self.bytes.extend_from_slice(piece);
    }

    pub fn as_slice(&self) -> &[u8]
        ensures value { result.now ≡ self.now }
        ensures size { length result.now ≤ TRANSFER_LIMIT }
    {
        self.bytes.as_slice()
    }
}
