ghost use Rattle.std.specs.Prelude.{◌≡◌};
ghost use Rattle.plain_machine.specs.Channels as channels;
ghost use Rattle.plain_machine.specs.Closing as words;

use crate::kernel::PlainKernel;
use plain_tables::closing::{close_channel, close_directions, close_pending, drop_unkept};
use plain_tables::description::{Object, is_held};
use plain_tables::sys_abi::{ConnId, DescId, Slot, VPid, VirtAddr};
use std::alloc::Global;

impl PlainKernel {
    fn close_side(&mut self, alloc: Global, conn: ConnId, side: u8)
        ensures { self.new ≡ channels.close_side self.old conn side }
    {
        close_directions(&self.channels, &mut self.directions, alloc, conn, side);
        close_channel(&mut self.channels, conn, side);
    }

    #[tactic(auto, unfolding(crate::specs::Channels::close_listener))]
    fn close_listener(&mut self, alloc: Global, address: VirtAddr)
        ensures { self.new ≡ channels.close_listener self.old address }
    {
        if let Some(listening) = self.listeners.remove(address) {
            close_pending(
                &mut self.channels,
                &mut self.directions,
                alloc,
                listening.queue.as_slice(),
            );
        }
    }

    /// Closes what a description that is gone stood for.
    fn let_go(&mut self, alloc: Global, description: DescId, object: Object)
        ensures { self.new ≡ words.let_go self.old description object }
    {
        match object {
            Object::Console => {}
            Object::File { number, .. } => {
                drop_unkept(&self.names, &self.descriptions, &mut self.files, number)
            }
            Object::Stream { conn, side } => self.close_side(alloc, conn, side),
            Object::Socket { .. } => {}
            Object::Listener { address } => self.close_listener(alloc, address),
            Object::Datagram { .. } => {
                self.inboxes.remove(description);
            }
            Object::Counter { .. } => {}
        }
    }

    /// Lets a description go to which no descriptor refers.
    #[tactic(auto, unfolding(crate::specs::Closing::released))]
    fn release(&mut self, alloc: Global, id: DescId)
        ensures { self.new ≡ words.released self.old id }
    {
        if is_held(&self.descriptors, id) {
            return;
        }
        let Some(description) = self.descriptions.get(id).copied() else {
            return;
        };
        self.descriptions.remove(id);
        self.let_go(alloc, id, description.object);
    }

    /// Closes a descriptor of the process, if it is there; the last one of a description takes with it what
    /// that stands for (`man 2 close`). Takes no memory.
    #[tactic(auto, unfolding(crate::specs::Closing::close_fd))]
    pub fn close_descriptor(&mut self, alloc: Global, p: VPid, fd: u32)
        ensures { self.new ≡ words.close_fd self.old p fd }
    {
        let at = Slot { pid: p, fd };
        let Some(descriptor) = self.descriptors.get(at).copied() else {
            return;
        };
        self.descriptors.remove(at);
        self.release(alloc, descriptor.desc);
    }
}
