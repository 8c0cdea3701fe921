// The image of a process.
use crate::kernels::add_line;
use image_codec::{ProcImage, ThreadImage};
use std::alloc::{AllocError, Global};

pub fn add_process(alloc: Global, text: &mut String, p: &ProcImage) -> Result<(), AllocError> {
    let line = format!(in alloc;
        "process {}: break {} to {}, {} pages, {} waiters",
        p.pid.0,
        p.break_start,
        p.break_end,
        p.pages.len(),
        p.waiters.len()
    );
    add_line(text, line)?;
    for thread in &p.threads {
        add_thread(alloc, text, thread)?;
    }
    Ok(())
}

fn add_thread(alloc: Global, text: &mut String, thread: &ThreadImage) -> Result<(), AllocError> {
    let line = format!(in alloc;
        "thread {}: pc {:X}, mask {:X}, {} contexts",
        thread.tid,
        thread.part.regs.pc,
        thread.part.mask,
        thread.part.contexts.len()
    );
    add_line(text, line)
}
