/// Where bytes stand that have not reached their receiver.
#[derive(Clone, Copy)]
pub enum Place {
    /// The sender's queue, from which they move to the wire.
    Send,
    /// The wire, from which they move to the receiver's queue.
    Wire,
}
