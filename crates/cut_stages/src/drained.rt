//! What was drained of all channels, for the images of a checkpoint.
ghost use Rattle.std.specs.Prelude.{◌≡◌, ◌<◌, ◌≤◌, true, length, IfOk};
ghost use Rattle.std.specs.Option.{option_copied};
ghost use Rattle.wire_channels.specs.declared.limits.TheConstants.{QUEUE_LIMIT};
ghost use Rattle.wire_net.specs.DrainedNets.{list_on};
ghost use Rattle.std.specs.Ordering.{eq_by_cmp};
ghost use Rattle.sys_abi.specs.Orders.{dir_cmp};
ghost use Rattle.drain_core.specs.Drains.{is_done};
ghost use Rattle.seen_kernel.specs.Seen.{all_in};
ghost use Rattle.cut_stages.specs.Drains as drains;
ghost use Rattle.cut_stages.specs.Resumptions as words;

use crate::base::Base;
use crate::outcome::PutOutcome;
use crate::written::Written;
use drain_core::Drain;
use plain_machine::PlainKernel;
use seen_kernel::kernel_of;
use std::alloc::{AllocError, Global};
use std::marker::Model;
use sys_abi::Dir;
use wire_net::{AgentEnd, CutRoom, DirBytes, DrainedNet, Room};

/// A system whose channels are drained. A contract sees the kernel part for which it stood when it was
/// suspended, of which images are made now.
#[derive(Drop)]
pub struct DrainedSet {
    base: Base,
    ends: Room<AgentEnd>,
    drained: DrainedNet,
    room: CutRoom,
}

impl Model for DrainedSet {
    ghost use Rattle.cut_stages.specs.Resumptions.{Held, coded_held, IsDrainedSet};

    ghost Value = { Held };

    ghost coded = { coded_held };

    ghost view = { λ s. record {
      kernel = s.base.stood.kernel;
      next_id = s.base.next_id;
      barrier = s.base.barrier;
    } };

    ghost invariant = { λ s. IsDrainedSet s.base.system s.base.next_id s.base.stood.kernel s.base.owners
        s.ends.items s.drained.lists s.room };
}

impl DrainedSet {
    /// Takes what the agents drained.
    pub fn begin(base: Base, ends: Room<AgentEnd>, drain: Drain) -> DrainedSet
        requires draining { drains.IsDraining base.system base.next_id base.stood.kernel base.owners ends.items
            drain }
        requires done { is_done base.system.kernel.net.channels drain ≡ true }
        ensures kernel { result.kernel ≡ base.stood.kernel }
        ensures next { result.next_id ≡ base.next_id }
        ensures barrier { result.barrier ≡ base.barrier }
    {
        let (drained, room) = drain.finish(&base.system.kernel.net);
        DrainedSet {
            base,
            ends,
            drained,
            room,
        }
    }

    /// The kernel part for which the system stood when it was suspended, with all bytes arrived, for the
    /// images.
    ///
    /// # Errors
    /// Memory was wanted. The set is as before.
    pub fn kernel(&self, alloc: Global) -> Result<PlainKernel, AllocError>
        ensures { IfOk result (λ kernel. kernel ≡ all_in self.now.kernel) }
    {
        kernel_of(
            alloc,
            &self.base.system,
            &self.base.owners,
            self.drained.lists.as_slice(),
            self.base.next_id,
        )
    }

    /// How many bytes of the direction are unread.
    pub fn count(&self, d: Dir) -> u32
        requires { d.side < 2 }
        ensures { result ≡ words.left_of self.now.kernel d }
    {
        count_in(self.drained.lists.as_slice(), d)
    }

    /// The images are written, or could not be: the bytes go back to the channels. Takes no memory.
    pub fn written(self, outcome: PutOutcome) -> Written
        ensures kernel { result.kernel ≡ self.kernel }
        ensures next { result.next_id ≡ self.next_id }
        ensures barrier { result.barrier ≡ self.barrier }
        ensures outcome { result.outcome ≡ outcome }
    {
        Written::begin(self.base, outcome, self.ends, self.drained, self.room)
    }
}

/// How many bytes the list of a direction has, 0 where it has none.
fn count_in(lists: &[DirBytes], d: Dir) -> u32
    requires { words.AreShort lists.now }
    ensures { result ≡ words.count_on lists.now d }
{
    match list_in(lists, d) {
        None => 0,
        Some(list) => length_of(list),
    }
}

fn length_of(list: &DirBytes) -> u32
    requires { length list.now.bytes ≤ QUEUE_LIMIT }
    ensures { result ≡ length list.now.bytes }
{
    list.bytes.len() as u32
}

fn list_in(lists: &[DirBytes], d: Dir) -> Option<&DirBytes>
    ensures { option_copied result ≡ list_on d lists.now }
{
    lists.iter().find(|list| is_of(list, d))
}

fn is_of(list: &DirBytes, d: Dir) -> bool
    ensures { result ≡ eq_by_cmp dir_cmp list.now.dir d }
{
    list.dir.cmp(&d).is_eq()
}
