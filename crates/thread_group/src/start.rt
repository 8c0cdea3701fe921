ghost use Rattle.std.specs.Prelude.{◌≡◌, ◌≤◌, length, IfOk};
ghost use Rattle.std.specs.FinMap as map;
ghost use Rattle.plain_process.specs.Start as start;

use elf32::Program;
use guest_start::start_regs;
use guest_threads::Threads;
use std::alloc::{AllocError, Global};

/// The one thread of a program at its start.
pub fn start_threads(
    alloc: Global,
    t: u32,
    program: &Program,
    arguments: &[u8],
) -> Result<Threads, AllocError>
    requires some { 1 ≤ length arguments.now }
    requires few { length arguments.now ≤ 4096 }
    ensures { IfOk result (λ threads. threads ≡ record {
      threads = map.insert map.empty t (start.start_thread (start.start_regs program.now arguments.now));
      spare = 0;
    }) }
{
    let regs = start_regs(alloc, program, arguments)?;
    let mut threads = Threads::new(alloc);
    threads.reserve(alloc)?;
    threads.insert(t, regs, 0, 0);
    Ok(threads)
}
