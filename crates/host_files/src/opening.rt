//! Files that are opened (`man 2 openat`).
ghost use Rattle.std.specs.Prelude.{◌≡◌, ◌≢◌, List, Some, None, IfOk, IfErr, OnErr};
ghost use Rattle.std.specs.FinMap as map;
ghost use Rattle.views.specs.Numbers.{Byte};
ghost use Rattle.plain_machine.specs.Rows.Files as rows;
ghost use Rattle.vfs_files.specs.FileTable.{open_refusal};
ghost use Rattle.host_descriptors.specs.OfHostTables.Conditions.{IsNewDesc};
ghost use Rattle.host_descriptors.specs.OfHostTables.Requests.{next_desc};
ghost use Rattle.host_descriptors.specs.OfHostTables.Serves.{Through, Serves, ByNumber, same};
ghost use Rattle.host_files.specs.Opening.{file_at_start, IsOpened, opening_at, IsRefusal};

use crate::paths::open_end;
use fd_book::{BookFault, Desc, Object};
use host_descriptors::{Attempt, Kernel, RowResult};
use std::alloc::AllocError;
use sys_abi::errors::{EEXIST, EMFILE, ENFILE, ENOENT, ENOSPC};
use sys_abi::flags::{O_CLOEXEC, O_TRUNC};
use sys_abi::{DescId, Errno, RealPid, Transfer};
use vfs_files::{FileFault, Files};

/// The access mode, O_APPEND and O_NONBLOCK.
const STATUS_FLAGS: u32 = 0xC03;

/// openat (`man 2 openat`), of the path in the transfer. `id` is the number of the new description, None
/// where its process has none left to give out.
pub fn openat(
    kernel: &mut Kernel,
    who: RealPid,
    directory: u32,
    flags: u32,
    id: Option<DescId>,
    transfer: &Transfer,
) -> RowResult
    requires { IsNewDesc kernel.old.book id }
    ensures ok { IfOk result (λ a. Through kernel.old who (λ g k p. id ≡ next_desc k p
        → Serves ByNumber same g kernel.old kernel.new transfer.now transfer.now a
        (rows.openat_row k p directory flags transfer.now))) }
    ensures err { OnErr result (kernel.new ≡ kernel.old) }
{
    let given = transfer.as_slice();
    let end = match open_end(directory, flags, given) {
        Ok(end) => end,
        Err(error) => return Ok(Attempt::Fails(error)),
    };
    match id {
        Some(id) => open_named(kernel, who, id, &given[..end], flags),
        None => Ok(Attempt::Fails(Errno(ENFILE))),
    }
}

/// Opens the file of the name. The description is placed first, and goes again where the file isn't opened.
fn open_named(kernel: &mut Kernel, who: RealPid, id: DescId, name: &[u8], flags: u32) -> RowResult
    requires { map.get kernel.old.book.descriptions id ≡ None }
    ensures ok { IfOk result (λ a. Through kernel.old who (λ g k p. (x : List Byte)
        → Some id ≡ next_desc k p
        → Serves ByNumber same g kernel.old kernel.new x x a (opening_at k p name.now flags))) }
    ensures err { OnErr result (kernel.new ≡ kernel.old) }
{
    kernel.book.whole();
    let fd = match kernel
        .book
        .place(who, id, unopened(flags), flags / O_CLOEXEC % 2 == 1)
    {
        Ok(fd) => fd,
        Err(BookFault::TooMany) => return Ok(Attempt::Fails(Errno(EMFILE))),
        Err(BookFault::BadFd | BookFault::Memory) => return Err(AllocError),
    };
    match open(&mut kernel.files, name, flags) {
        Ok(number) => {
            kernel
                .book
                .set_object(id, Object::File { number, offset: 0 });
            Ok(Attempt::Gives(fd.0))
        }
        Err(fault) => {
            let _ = kernel.book.close(who, fd);
            refusal(fault)
        }
    }
}

/// A description of no file yet: none has the number 0.
fn unopened(flags: u32) -> Desc
    ensures { result ≡ file_at_start 0 (rows.status_flags flags) }
{
    Desc {
        object: Object::File {
            number: 0,
            offset: 0,
        },
        flags: flags & STATUS_FLAGS,
        owner: None,
    }
}

/// The number of the file of the name, which is made where there is none, and made empty with O_TRUNC.
fn open(files: &mut Files, name: &[u8], flags: u32) -> Result<u32, FileFault>
    ensures ok { IfOk result (λ number. IsOpened files.old files.new name.now flags number) }
    ensures refused { IfErr result (λ fault. fault ≢ FileFault.Memory
        → open_refusal files.old name.now flags ≡ Some fault) }
    ensures err { OnErr result (files.new ≡ files.old) }
{
    let number = files.open_file(name, flags)?;
    if flags / O_TRUNC % 2 == 1 {
        files.truncate(number);
    }
    Ok(number)
}

/// What a file that was not opened comes to.
fn refusal(fault: FileFault) -> RowResult
    ensures { IfOk result (IsRefusal fault) }
{
    match fault {
        FileFault::NoEntry => Ok(Attempt::Fails(Errno(ENOENT))),
        FileFault::Exists => Ok(Attempt::Fails(Errno(EEXIST))),
        FileFault::Space => Ok(Attempt::Fails(Errno(ENOSPC))),
        FileFault::Memory => Err(AllocError),
    }
}
