ghost use Rattle.std.specs.Prelude.{◌≡◌, ◌≢◌, ◌↔◌, ◌<◌, ◌≤◌, ◌^◌, ℕ, List, Option, length, map as each, All, Some, None, Err, IfOk, IfSome, OnErr, OnOk, find, option_map};
ghost use Rattle.std.specs.FinMap as map;
ghost use Rattle.views.specs.NumberMap.{is_above};
ghost use Rattle.elf32.specs.Pages.{page_count};
ghost use Rattle.elf32.specs.Programs.{IsWellPlaced};
ghost use Rattle.plain_process.specs.Start.{start_user};
ghost use Rattle.plain_process.specs.Buffers.{lent};
ghost use Rattle.plain_process.specs.Valid.{IsByte, IsUser};
ghost use Rattle.image_process.specs.ProcessImages.{SpellsProcess};
ghost use Rattle.image_process.specs.ProcessFits.{HasImage};
ghost use Rattle.image_process.specs.UserParts.{user_of, page_entry, thread_entry};
ghost use Rattle.thread_group.specs.OfProcessMemory.Lending.{IsFrontOf};
ghost use Rattle.guest_proc.specs.Guests.{HasThread};

use call_table::{Given, Request};
use elf32::Program;
use image_process::ProcImage;
use std::alloc::{AllocError, Global};
use std::marker::Model;
use sys_abi::{Tid, Transfer, VPid};
use thread_group::ThreadGroup;
use thread_group::process_memory::{LendFault, ProcessMemory};

/// A process's own part, ready to run.
pub struct Guest {
    pub(crate) pid: VPid,
    pub(crate) memory: ProcessMemory,
    pub(crate) group: ThreadGroup,
}

// Written out, so that to other crates it is one call to drop a guest.
impl Drop for Guest {
    fn drop(self) {
        let Guest {
            pid: _,
            memory: _,
            group: _,
        } = self;
    }
}

impl Model for Guest {
    ghost use Rattle.guest_proc.specs.Guests.{GuestPart, guest_code};
    ghost use Rattle.thread_group.specs.Groups.{joined};

    ghost Value = { GuestPart };

    ghost coded = { guest_code };

    ghost view = { λ g. record { pid = g.pid; user = joined g.memory g.group; spare = g.group.spare } };
}

impl Guest {
    /// The start of a program with these argument strings, each with its zero byte, the name first: its one
    /// thread has the process's own number.
    #[tactic(auto, unfolding(plain_process::specs::Start::start_user))]
    pub fn load(
        alloc: Global,
        pid: VPid,
        program: &Program,
        arguments: &[u8],
    ) -> Result<Guest, AllocError>
        requires placed { All IsWellPlaced program.now.segments }
        requires pages { page_count program.now.segments ≤ 1536 }
        requires some { 1 ≤ length arguments.now }
        requires few { length arguments.now ≤ 4096 }
        ensures { IfOk result (λ guest. guest ≡ record { pid = pid; user = start_user program.now arguments.now pid.0; spare = 0 }) }
    {
        Ok(Guest {
            pid,
            memory: ProcessMemory::load(alloc, program, arguments)?,
            group: ThreadGroup::load(alloc, Tid(pid.0), program, arguments)?,
        })
    }

    /// The image of the process: copies of all that its part holds, in rising order of the numbers of pages
    /// and threads.
    #[tactic(auto, unfolding(image_process::specs::UserParts::user_of))]
    pub fn image(&self, alloc: Global) -> Result<ProcImage, AllocError>
        ensures pid { IfOk result (λ image. image.pid ≡ self.now.pid) }
        ensures user { IfOk result (λ image. user_of image ≡ self.now.user) }
        ensures pages { IfOk result (λ image. each page_entry image.pages ≡ map.entries self.now.user.memory) }
        ensures threads { IfOk result (λ image. each thread_entry image.threads ≡ map.entries self.now.user.threads) }

        // So the image can be made a guest again.
        ensures numbers { IfOk result (λ image. All (λ page. page.number < 2 ^ 20) image.pages) }
        ensures few { IfOk result (λ image. length image.pages ≤ 2048) }

        // And so it has a spelling, where the part is one that a run reaches, and has a thread.
        ensures fits { IfOk result (λ image. IsUser self.now.user → 1 ≤ map.len self.now.user.threads → HasImage image) }
    {
        Ok(ProcImage {
            pid: self.pid,
            break_start: self.memory.break_start(),
            break_end: self.memory.break_end(),
            pages: self.memory.page_images(alloc)?,
            actions: self.group.actions(alloc)?,
            waiters: self.group.waiters(alloc)?,
            threads: self.group.thread_images(alloc)?,
        })
    }

    /// The process of an image. The pages are taken from it as they are.
    #[tactic(auto, unfolding(image_process::specs::UserParts::user_of))]
    pub fn of_image(alloc: Global, image: ProcImage) -> Result<Guest, AllocError>
        requires numbers { All (λ page. page.number < 2 ^ 20) image.pages }
        requires few { length image.pages ≤ 2048 }
        ensures part { IfOk result (λ guest. guest ≡ record { pid = image.pid; user = user_of image; spare = 0 }) }

        // And the part of an image that was read is one that a run may go on from.
        ensures valid { IfOk result (λ guest. (pid : Option ℕ) (tids text : List ℕ) → SpellsProcess pid tids text image → All IsByte text → IsUser guest.user) }
    {
        let memory = ProcessMemory::of_images(
            alloc,
            image.pages,
            image.break_start,
            image.break_end,
        )?;
        let group = ThreadGroup::of_images(alloc, image.threads, image.actions, image.waiters)?;
        Ok(Guest {
            pid: image.pid,
            memory,
            group,
        })
    }

    /// The process's virtual number.
    pub fn pid(&self) -> VPid
        ensures { result ≡ self.now.pid }
    {
        self.pid
    }

    /// The least number of a thread above this one, if there is one.
    pub fn next_thread(&self, above: u32) -> Option<Tid>
        ensures { option_map (λ t. t.0) result ≡ find (is_above (Some above)) (map.keys self.now.user.threads) }
    {
        self.group.next_thread(above)
    }

    /// The signal mask of a thread that is there.
    pub fn mask(&self, t: Tid) -> u32
        requires { HasThread self.now.user t.0 }
        ensures { option_map (λ thread. thread.mask) (map.get self.now.user.threads t.0) ≡ Some result }
    {
        self.group.mask(t)
    }

    /// Copies what the call reads from the process's memory into the transfer.
    ///
    /// # Errors
    ///
    /// `Fault` exactly where some buffer of the call is not readable or writable as it needs; the transfer is
    /// as before.
    pub fn lend(
        &mut self,
        t: Tid,
        request: &Request,
        transfer: &mut Transfer,
    ) -> Result<(), LendFault>
        ensures ok { OnOk result (lent self.old.user.memory request.now ≡ Some transfer.new) }
        ensures fault { (result ≡ Err LendFault.Fault) ↔ (lent self.old.user.memory request.now ≡ None) }
        ensures memory { result ≢ Err LendFault.Memory }
        ensures err { OnErr result (transfer.new ≡ transfer.old) }
        ensures same { self.new ≡ self.old }
    {
        self.memory.lend(request, transfer)
    }

    /// The front of the bytes that `lend` would lend, with zeros where they are fewer; None where it would
    /// answer a fault. Whether the call waits hangs on no later byte.
    pub fn front(&self, request: &Request) -> Option<Given>
        ensures fault { (result ≡ None) ↔ (lent self.now.user.memory request.now ≡ None) }
        ensures front { IfSome result (λ front. (given : List ℕ)
            → lent self.now.user.memory request.now ≡ Some given → IsFrontOf given front) }
    {
        self.memory.front(request)
    }
}
