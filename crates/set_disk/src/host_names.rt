//! The names that a folder's files have on the host.
ghost use Rattle.std.specs.Prelude.{◌≡◌, true, Some, IfOk, string_bytes};
ghost use Rattle.set_disk.specs.HostNames.{IsHostName, IsSmall, host_name, host_path};

use disk_folder::FileName;
use std::alloc::{AllocError, Global};

/// The name of a file in its folder.
pub fn name_of(alloc: Global, name: FileName) -> Result<String, AllocError>
    ensures { IfOk result (λ text. string_bytes text ≡ host_name name) }
{
    let FileName { slot, index } = name;
    format!(in alloc; "s{slot}_{index}.img")
}

/// The path of a file in the folder at a path.
pub fn path_of(alloc: Global, folder: &str, name: FileName) -> Result<String, AllocError>
    ensures { IfOk result (λ path. string_bytes path ≡ host_path folder.now name) }
{
    let FileName { slot, index } = name;
    format!(in alloc; "{folder}/s{slot}_{index}.img")
}

/// Whether a host file's name is that of a file of a folder.
pub fn is_used(alloc: Global, text: &str) -> Result<bool, AllocError>
    ensures yes { IfOk result (λ used. used ≡ true → IsHostName text.now) }
    ensures no { IfOk result (λ used. IsHostName text.now → used ≡ true) }
{
    let Some(name) = numbers_in(text) else {
        return Ok(false);
    };
    let spelled = name_of(alloc, name)?;
    Ok(spelled.as_str() == text)
}

/// The numbers that stand in a name where the ones of a file do. Other names may have them too, as with a
/// sign.
fn numbers_in(text: &str) -> Option<FileName>
    ensures { (name : FileName) → IsSmall name → text.now ≡ host_name name → result ≡ Some name }
{
    let (front, rest) = text.split_once('_')?;
    let slot = front.strip_prefix('s')?.parse::<u32>().ok()?;
    let (digits, _ending) = rest.split_once('.')?;
    let index = digits.parse::<u32>().ok()?;
    Some(FileName { slot, index })
}
