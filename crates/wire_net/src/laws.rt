ghost use Rattle.wire_net.specs.Laws.{SendsAtEnd, ReceivesFromFront, MovesKeepBytes, QueuesAlone};

/// What calls do to the bytes of a direction: they come out as they went in, in order, none lost or doubled,
/// and a move from queue to queue changes those of no direction, also where agents of a checkpoint hold a
/// part of them. It does nothing.
pub fn net_laws()
    ensures sends { SendsAtEnd }
    ensures receives { ReceivesFromFront }
    ensures moves { MovesKeepBytes }

    // Without agents a direction's bytes are those in its queues, the receiver's first.
    ensures queues { QueuesAlone }
{}
