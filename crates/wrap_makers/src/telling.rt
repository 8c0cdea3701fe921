//! The new number in the bytes that a clone gives (`man 2 clone`).
ghost use Rattle.std.specs.Prelude.{◌≡◌, ◌≤◌, ◌++◌, length};
ghost use Rattle.host_tables.specs.Serves.{bytes_or};
ghost use Rattle.plain_machine.specs.Rows.Clone.{number_if};
ghost use Rattle.wrap_makers.specs.Cloning.{is_told_twice, number_places};

use sys_abi::CloneForm;
use sys_abi::flags::{CLONE_CHILD_SETTID, CLONE_PARENT_SETTID};
use sys_abi::transfer::Transfer;

/// Puts the new number into the transfer, 4 bytes for each place that the flags name, in the place of what it
/// holds. Where they name none it stays as it is. Takes no memory.
pub(crate) fn tell_number(transfer: &mut Transfer, form: CloneForm, flags: u32, number: u32)
    ensures { transfer.new ≡ bytes_or transfer.old (number_places form flags number) }
{
    let in_parent = flags / CLONE_PARENT_SETTID % 2 == 1;
    put_places(transfer, in_parent, is_told_twice(form, flags), number);
}

/// Whether a thread's number goes to a second place. A child's own place is in its own memory.
fn is_told_twice(form: CloneForm, flags: u32) -> bool
    ensures { result ≡ is_told_twice form flags }
{
    match form {
        CloneForm::Fork => false,
        CloneForm::Thread => flags / CLONE_CHILD_SETTID % 2 == 1,
    }
}

fn put_places(transfer: &mut Transfer, once: bool, twice: bool, number: u32)
    ensures { transfer.new ≡ bytes_or transfer.old (number_if once number ++ number_if twice number) }
{
    if !once && !twice {
        return;
    }
    transfer.clear();
    put_number_if(transfer, once, number);
    put_number_if(transfer, twice, number);
}

fn put_number_if(transfer: &mut Transfer, is_wanted: bool, number: u32)
    requires { length transfer.old ≤ 4 }
    ensures { transfer.new ≡ transfer.old ++ number_if is_wanted number }
{
    if is_wanted {
        transfer.put(&number.to_le_bytes());
    }
}
