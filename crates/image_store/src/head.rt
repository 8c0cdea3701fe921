ghost use Rattle.std.specs.Prelude.{◌≡◌, ◌≤◌, length, IfOk};
ghost use Rattle.std.specs.Option.{ForSome};
ghost use Rattle.disk_folder.specs.Crash.{Same};
ghost use Rattle.disk_folder.specs.Moments.{Passes};
ghost use Rattle.image_store.specs.Slots.{gate_of, info_of, manifest_of, generation_of};
ghost use Rattle.image_store.specs.StoreCauses.{HasCause};

use crate::set_info::SetInfo;
use disk_folder::{DiskFault, FileName, Folder};

/// How many bytes of a manifest tell whether its set counts.
const HEAD_LEN: usize = 16;

/// What the front of a slot's manifest tells.
#[derive(Drop)]
pub struct Head {
    /// The first byte, if there is one.
    pub gate: Option<u8>,
    /// The set of the slot, if it is complete.
    pub info: Option<SetInfo>,
}

/// Reads the front of a slot's manifest.
pub fn read_head<F: Folder>(disk: &mut F, slot: u32) -> Result<Head, DiskFault>
    ensures gate { IfOk result (λ head. ForSome (F.seen disk.old).files
        (λ files. gate_of (manifest_of files slot) ≡ head.gate)) }
    ensures info { IfOk result (λ head. ForSome (F.seen disk.old).files
        (λ files. info_of slot (manifest_of files slot) ≡ head.info)) }
    ensures same { (F.seen disk.new).files ≡ (F.seen disk.old).files }
    ensures crash { Passes Same (F.seen disk.old) (F.seen disk.new) }
    ensures cause { HasCause result DiskFault.Failed (F.seen disk.old).faults (F.seen disk.new).faults }
{
    let mut buf = [0; HEAD_LEN];
    let n = disk.read_at(FileName { slot, index: 0 }, 0, &mut buf)?;
    Ok(head_of(slot, &buf[..n]))
}

fn head_of(slot: u32, front: &[u8]) -> Head
    ensures gate { result.gate ≡ gate_of front.now }
    ensures info { result.info ≡ info_of slot front.now }
{
    Head {
        gate: front.first().copied(),
        info: info_of(slot, front),
    }
}

/// The set of a slot whose manifest begins so, if it is complete.
#[tactic(auto, unfolding(crate::specs::Slots::info_of, crate::specs::Slots::has_open_gate))]
fn info_of(slot: u32, front: &[u8]) -> Option<SetInfo>
    ensures { result ≡ info_of slot front.now }
{
    if front.len() >= HEAD_LEN && front[0] == 1 {
        Some(SetInfo {
            slot,
            generation: generation_of(front),
        })
    } else {
        None
    }
}

fn generation_of(front: &[u8]) -> u64
    requires { 16 ≤ length front.now }
    ensures { result ≡ generation_of front.now }
{
    u64::from_le_bytes([
        front[8], front[9], front[10], front[11], front[12], front[13], front[14], front[15],
    ])
}
