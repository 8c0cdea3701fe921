//! The paths that calls name files by. A path is one flat name.
ghost use Rattle.std.specs.Prelude.{◌≡◌, ◌≤◌, ◌<◌, ◌==◌, length, position, IfSome, IfOk};
ghost use Rattle.plain_machine.specs.Rows.Files as rows;
ghost use Rattle.host_files.specs.Paths.{unlink_path, open_path, path_told, path_found};

use sys_abi::Errno;
use sys_abi::errors::{EBADF, EINVAL, ENAMETOOLONG, ENOENT};
use sys_abi::flags::AT_FDCWD;

/// How many bytes a path has at most, its zero byte included.
const PATH_LIMIT: usize = 256;

/// Where the path of an unlinkat ends, if its other arguments are as they should be.
#[tactic(auto, unfolding(crate::specs::Paths::unlink_path, plain_process::specs::Attempts::and_then, plain_process::specs::Attempts::need))]
pub(crate) fn unlink_end(directory: u32, flags: u32, given: &[u8]) -> Result<usize, Errno>
    ensures value { unlink_path directory flags given.now ≡ path_told given.now result }
    ensures inside { IfOk result (λ end. end ≤ length given.now) }
{
    if directory != AT_FDCWD {
        return Err(Errno(EBADF));
    }
    if flags != 0 {
        return Err(Errno(EINVAL));
    }
    path_end(given).ok_or(Errno(ENAMETOOLONG))
}

/// Where the path of an openat ends, if it has a byte and the other arguments are as they should be.
#[tactic(auto, unfolding(crate::specs::Paths::open_path, plain_process::specs::Attempts::and_then, plain_process::specs::Attempts::need, plain_process::specs::Attempts::refuse_if))]
pub(crate) fn open_end(directory: u32, flags: u32, given: &[u8]) -> Result<usize, Errno>
    ensures value { open_path directory flags given.now ≡ path_told given.now result }
    ensures inside { IfOk result (λ end. end ≤ length given.now) }
{
    if directory != AT_FDCWD {
        return Err(Errno(EBADF));
    }
    let Some(end) = path_end(given) else {
        return Err(Errno(ENAMETOOLONG));
    };
    let name = &given[..end];
    if name.len() == 0 {
        return Err(Errno(ENOENT));
    }
    if flags % 4 == 3 {
        return Err(Errno(EINVAL));
    }
    Ok(end)
}

/// Where the path ends, which is before its first zero byte; None where that is too far.
#[tactic(auto, unfolding(plain_machine::specs::Rows::Files::path_of, plain_process::specs::Attempts::and_then, plain_process::specs::Attempts::need, plain_process::specs::Attempts::found))]
fn path_end(given: &[u8]) -> Option<usize>
    ensures value { rows.path_of given.now ≡ path_found given.now result }
    ensures inside { IfSome result (λ end. end ≤ length given.now) }
{
    let Some(end) = first_zero(given) else {
        return None;
    };
    if end >= PATH_LIMIT {
        return None;
    }
    Some(end)
}

fn first_zero(bytes: &[u8]) -> Option<usize>
    ensures value { result ≡ position (λ byte. byte == 0) bytes.now }
    ensures inside { IfSome result (λ place. place < length bytes.now) }
{
    bytes.iter().position(|byte| *byte == 0)
}
