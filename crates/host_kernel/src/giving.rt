ghost use Rattle.std.specs.Prelude.{◌≡◌, ◌≤◌, length};
ghost use Rattle.sys_abi.specs.declared.transfer.TheConstants.{TRANSFER_LIMIT};
ghost use Rattle.host_tables.specs.declared.attempt.Attempt.TheVariants as answer;
ghost use Rattle.host_tables.specs.Serves.{bytes_or};

use host_tables::Attempt;
use sys_abi::transfer::Transfer;

/// A read gives these bytes, and answers how many they are: they stand in the transfer then, where there are
/// any.
pub(crate) fn give(bytes: &[u8], transfer: &mut Transfer) -> Attempt
    requires { length bytes.now ≤ TRANSFER_LIMIT }
    ensures answer { result ≡ answer.Gives (length bytes.now) }
    ensures bytes { transfer.new ≡ bytes_or transfer.old bytes.now }
{
    put_any(bytes, transfer);
    Attempt::Gives(bytes.len() as u32)
}

fn put_any(bytes: &[u8], transfer: &mut Transfer)
    requires { length bytes.now ≤ TRANSFER_LIMIT }
    ensures { transfer.new ≡ bytes_or transfer.old bytes.now }
{
    if bytes.is_empty() {
        return;
    }
    transfer.clear();
    transfer.put(bytes);
}
