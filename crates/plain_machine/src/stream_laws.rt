ghost use Rattle.plain_machine.specs.StreamLaws.{DatagramsKeep, InboxKeeps, ReceivedKeeps, SentKeeps, ReadsFlow, WritesFlow, ConsoleStays, ConsoleIsReady};

/// What each word of change on channels, datagram ends and messages keeps of a whole kernel part, and that a
/// read and a write lose and make no byte of a direction and that a write on the console changes nothing, for
/// proofs about calls. It does nothing.
pub fn stream_laws()
    ensures datagrams { DatagramsKeep }
    ensures inbox { InboxKeeps }
    ensures received { ReceivedKeeps }
    ensures sent { SentKeeps }
    ensures reads { ReadsFlow }
    ensures writes { WritesFlow }
    ensures console { ConsoleStays }
    ensures console_ready { ConsoleIsReady }
{}
