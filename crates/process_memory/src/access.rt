//! What calls read of a process's memory, and what their answers write.
ghost use Rattle.std.specs.Prelude.{◌≡◌, ◌≢◌, ◌↔◌, ℕ, List, is_some, unwrap_or, Some, None, true, Err, IfSome, OnOk, OnErr};
ghost use Rattle.sys_abi.specs.declared.flags.TheConstants.{CLONE_CHILD_SETTID};
ghost use Rattle.sys_abi.specs.Flags.{has_flag};
ghost use Rattle.plain_process.specs.Buffers.{bytes_of, can_write, filled_spans, lent, span, unless_zero};
ghost use Rattle.plain_process.specs.Memory.{load, store};
ghost use Rattle.plain_process.specs.Put.{CanTake, with_spans};
ghost use Rattle.plain_process.specs.Threads.{child_memory};
ghost use Rattle.plain_process.specs.declared.buffers.Source.TheVariants.{Bytes};
ghost use Rattle.process_memory.specs.Lending.{IsFrontOf};
ghost use Rattle.process_memory.specs.Local.{NamesAction, NamesSet};

use crate::buffers::{LendFault, filled_spans, lend_from, put_answer, put_bytes};
use crate::front::front_from;
use crate::memory::ProcessMemory;
use crate::reads;
use call_table::{Given, Request};
use plain_process::SignalAction;
use sys_abi::Transfer;
use sys_abi::flags::CLONE_CHILD_SETTID;

impl ProcessMemory {
    /// Copies what the call reads into the transfer.
    ///
    /// # Errors
    ///
    /// `Fault` exactly where some buffer of the call is not readable or writable as it needs; the transfer is
    /// as before.
    pub fn lend(&self, request: &Request, transfer: &mut Transfer) -> Result<(), LendFault>
        ensures ok { OnOk result (lent self.now.pages request.now ≡ Some transfer.new) }
        ensures fault { (result ≡ Err LendFault.Fault) ↔ (lent self.now.pages request.now ≡ None) }
        ensures memory { result ≢ Err LendFault.Memory }
        ensures err { OnErr result (transfer.new ≡ transfer.old) }
    {
        lend_from(&self.ram.space, request, transfer)
    }

    /// The front of the bytes that `lend` would lend, with zeros where they are fewer; None where it would
    /// answer a fault.
    pub fn front(&self, request: &Request) -> Option<Given>
        ensures fault { (result ≡ None) ↔ (lent self.now.pages request.now ≡ None) }
        ensures front { IfSome result (λ front. (given : List ℕ)
            → lent self.now.pages request.now ≡ Some given → IsFrontOf given front) }
    {
        front_from(&self.ram.space, request)
    }

    /// Whether each buffer of the call is readable or writable as it needs.
    pub fn is_lendable(&self, request: &Request) -> bool
        ensures { result ≡ is_some (lent self.now.pages request.now) }
    {
        reads::is_lendable(&self.ram.space, request)
    }

    /// The word at an address, where it can be read.
    pub fn word_at(&self, address: u32) -> Option<u32>
        ensures { result ≡ load self.now.pages address 4 }
    {
        reads::word_at(&self.ram.space, address)
    }

    /// The action that a call names, none where it names no place.
    pub fn new_action(&self, address: u32) -> Option<SignalAction>
        ensures { (given : List ℕ) → bytes_of self.now.pages (unless_zero address (Bytes (span address 16))) ≡ Some given
            → NamesAction result given address }
    {
        reads::new_action(&self.ram.space, address)
    }

    /// The set that a call names, none where it names no place.
    pub fn new_set(&self, address: u32) -> Option<u32>
        ensures { (given : List ℕ) → bytes_of self.now.pages (unless_zero address (Bytes (span address 8))) ≡ Some given
            → NamesSet result given address }
    {
        reads::new_set(&self.ram.space, address)
    }

    /// Puts the bytes of an answer where the call asked for them.
    pub fn fill(&mut self, request: &Request, bytes: &[u8])
        requires { CanTake self.old.pages (filled_spans self.old.pages request.now) bytes.now }
        ensures { self.new ≡ record self.old {
          pages = with_spans self.old.pages (filled_spans self.old.pages request.now) bytes.now;
        } }
    {
        let spans = filled_spans(&self.ram.space, request);
        put_answer(&mut self.ram.space, spans, bytes);
    }

    /// Puts the number of a fork's child where the flags ask for it (CLONE_CHILD_SETTID, `man 2 clone`).
    pub fn put_child_number(&mut self, number: u32, flags: u32, child_tid: u32)
        requires { has_flag flags CLONE_CHILD_SETTID ≡ true
            → can_write self.old.pages (span child_tid 4) ≡ true }
        ensures { self.new ≡ record self.old { pages = child_memory self.old.pages flags child_tid number } }
    {
        if flags / CLONE_CHILD_SETTID % 2 == 1 {
            put_bytes(&mut self.ram.space, child_tid, &number.to_le_bytes());
        }
    }

    /// Clears the word at an address, if it can be written.
    pub fn clear_word(&mut self, address: u32)
        ensures { self.new ≡ record self.old {
          pages = unwrap_or (store self.old.pages address 4 0) self.old.pages;
        } }
    {
        let _ = self.ram.space.store(address, 4, 0);
    }
}
