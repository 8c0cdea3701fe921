ghost use Rattle.std.specs.Prelude.{◌≡◌};
ghost use Rattle.conn_table.specs.Unsupported as unsupported;

use id_maps::sys_abi::{Fd, Kind, Slot, VPid};

/// The unsupported row of the least process and descriptor, the first such where several have the same.
pub(crate) fn least_unsupported(rows: &[(VPid, Fd, Kind)]) -> Option<(VPid, Fd, Kind)>
    ensures { unsupported.IsLeastUnsupported rows.now result }
{
    let mut least = None;
    for row in rows {
        least = lesser(least, *row);
    }
    least
}

/// The row in place of the least one so far, where it is unsupported and comes before that one.
fn lesser(least: Option<(VPid, Fd, Kind)>, row: (VPid, Fd, Kind)) -> Option<(VPid, Fd, Kind)>
    ensures { result ≡ unsupported.lesser least row }
{
    if !is_unsupported(row.2) {
        return least;
    }
    match least {
        None => Some(row),
        Some(other) if comes_before(row, other) => Some(row),
        Some(_) => least,
    }
}

fn is_unsupported(kind: Kind) -> bool
    ensures { result ≡ unsupported.is_unsupported kind }
{
    match kind {
        Kind::Datagram | Kind::Counter => true,
        _ => false,
    }
}

fn comes_before(row: (VPid, Fd, Kind), other: (VPid, Fd, Kind)) -> bool
    ensures { result ≡ unsupported.comes_before row other }
{
    slot_of(row).cmp(&slot_of(other)).is_lt()
}

fn slot_of(row: (VPid, Fd, Kind)) -> Slot
    ensures { result ≡ unsupported.slot_of row }
{
    Slot {
        pid: row.0,
        fd: row.1.0,
    }
}
