ghost use Rattle.std.specs.Prelude.{◌≡◌, ◌≤◌, ◌<◌, ◌^◌, ◌↔◌, length, map as each, All, IfOk};
ghost use Rattle.std.specs.FinMap as map;
ghost use Rattle.elf32.specs.Pages.{page_count};
ghost use Rattle.elf32.specs.Programs.{IsWellPlaced};
ghost use Rattle.plain_process.specs.Start as start;
ghost use Rattle.plain_process.specs.Steps.{effect_at};
ghost use Rattle.image_process.specs.UserParts.{page_entry};
ghost use Rattle.guest_start.specs.Running.{HasRun, IsStop};

use crate::images::{page_images, space_of};
use elf32::Program;
use guest_start::{Ram, Stop, break_of, run_instructions, start_space};
use image_process::PageImage;
use plain_process::Regs;
use std::alloc::{AllocError, Global};
use std::marker::Model;
use views::list_of::ListOf;

/// A process's memory: its pages, and where its break starts and stands (`man 2 brk`).
#[derive(Drop)]
pub struct ProcessMemory {
    pub(crate) ram: Ram,
    pub(crate) break_start: u32,
    pub(crate) break_end: u32,
}

impl Model for ProcessMemory {
    ghost use Rattle.process_memory.specs.MemoryParts.{MemoryPart, memory_code};

    ghost Value = { MemoryPart };

    ghost coded = { memory_code };

    ghost view = { λ m. record { pages = m.ram; break_start = m.break_start; break_end = m.break_end } };
}

impl ProcessMemory {
    /// The memory of a program at its start, with these argument strings, each with its zero byte. The break
    /// starts behind the program, and stands there.
    pub fn load(
        alloc: Global,
        program: &Program,
        arguments: &[u8],
    ) -> Result<ProcessMemory, AllocError>
        requires placed { All IsWellPlaced program.now.segments }
        requires pages { page_count program.now.segments ≤ 1536 }
        requires some { 1 ≤ length arguments.now }
        requires few { length arguments.now ≤ 4096 }
        ensures { IfOk result (λ memory. memory ≡ record {
          pages = start.start_memory program.now arguments.now;
          break_start = start.break_of program.now.segments;
          break_end = start.break_of program.now.segments;
        }) }
    {
        let space = start_space(alloc, program, arguments)?;
        let break_start = break_of(program.segments.as_slice());
        Ok(ProcessMemory {
            ram: Ram { space },
            break_start,
            break_end: break_start,
        })
    }

    /// The memory of an image's pages, which it takes as they are, with this break. Of two pages of one
    /// number the earlier one counts.
    pub fn of_images(
        alloc: Global,
        pages: ListOf<PageImage>,
        break_start: u32,
        break_end: u32,
    ) -> Result<ProcessMemory, AllocError>
        requires numbers { All (λ page. page.number < 2 ^ 20) pages }
        requires few { length pages ≤ 2048 }
        ensures { IfOk result (λ memory. memory ≡ record {
          pages = map.from_entries (each page_entry pages);
          break_start = break_start;
          break_end = break_end;
        }) }
    {
        let space = space_of(alloc, pages)?;
        Ok(ProcessMemory {
            ram: Ram { space },
            break_start,
            break_end,
        })
    }

    /// Copies of the pages, in rising order of their numbers.
    pub fn page_images(&self, alloc: Global) -> Result<ListOf<PageImage>, AllocError>
        ensures entries { IfOk result (λ pages. each page_entry pages ≡ map.entries self.now.pages) }
        ensures numbers { IfOk result (All (λ page. page.number < 2 ^ 20)) }
        ensures few { IfOk result (λ pages. length pages ≤ 2048) }
    {
        page_images(alloc, &self.ram.space)
    }

    /// A copy of it.
    pub fn try_clone(&self, alloc: Global) -> Result<ProcessMemory, AllocError>
        ensures { IfOk result (λ copy. copy ≡ self.now) }
    {
        let space = self.ram.space.try_clone(alloc)?;
        Ok(ProcessMemory {
            ram: Ram { space },
            break_start: self.break_start,
            break_end: self.break_end,
        })
    }

    /// Where the break starts: the first address of the heap.
    pub fn break_start(&self) -> u32
        ensures { result ≡ self.now.break_start }
    {
        self.break_start
    }

    /// Where the break stands: the first address behind the heap.
    pub fn break_end(&self) -> u32
        ensures { result ≡ self.now.break_end }
    {
        self.break_end
    }

    /// The pages as the memory of the processor.
    pub fn ram(&self) -> &Ram
        ensures { result.now ≡ self.now.pages }
    {
        &self.ram
    }

    /// Runs instructions on these registers, at most `quantum` of them, until one asks for a call or traps,
    /// and tells how many it ran and why it stopped.
    pub fn run(&mut self, regs: &mut Regs, quantum: u32) -> (u32, Stop)
        ensures run { HasRun result.0 regs.old self.old.pages regs.new self.new.pages }
        ensures stop { IsStop result.1 (effect_at regs.new self.new.pages) }
        ensures whole { (result.1 ≡ Stop.Quantum) ↔ (result.0 ≡ quantum) }
        ensures count { result.0 ≤ quantum }
        ensures rest { self.new ≡ record self.old { pages = self.new.pages } }
    {
        run_instructions(regs, &mut self.ram, quantum)
    }
}
