ghost use Rattle.std.specs.Prelude.{◌≡◌, IfOk};
ghost use Rattle.launch_start.specs.Values.{summary};

use itoa::Buffer;
use std::alloc::{AllocError, Global};

/// The line that tells what the launch and the restart of a ring of so many processes left.
pub fn summary(
    alloc: Global,
    processes: u32,
    launched: &[u8],
    restarted: &[u8],
) -> Result<Vec<u8>, AllocError>
    ensures { IfOk result (λ line. line.items ≡ summary processes launched.now restarted.now) }
{
    let mut number = Buffer::new();
    let mut line = Vec::from_slice(alloc, b"ring ")?;
    line.extend_from_slice(number.format(processes).as_bytes())?;
    line.extend_from_slice(b": value ")?;
    line.extend_from_slice(launched)?;
    line.extend_from_slice(b", restart value ")?;
    line.extend_from_slice(restarted)?;
    line.extend_from_slice(b"\n")?;
    Ok(line)
}
