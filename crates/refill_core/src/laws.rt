ghost use Rattle.refill_core.specs.Laws.{StepsAtEnds, MoveFits, MoveLowers, BeginFits, HoldsDrained};
ghost use Rattle.refill_core.specs.Runs.{GivesBack, EndsInTime};

/// What steps of agents and moves of bytes from queue to queue do while agents refill, how a refill begins,
/// what it holds all along, and what whole runs of steps and moves come to. It does nothing.
pub fn refill_laws()
    // A step of an agent takes bytes only from the front of the receivers' queues of ends for which it acts,
    // and adds bytes only at the back of their senders' queues; a returned list grows by the bytes that were
    // read behind the length of the frame, and what was drained stays.
    ensures steps { StepsAtEnds }

    // The notes of the agents fit the network after a move, and less is left to do where bytes were moved.
    ensures fits { MoveFits }
    ensures lowers { MoveLowers }

    // Notes of which nothing was sent or read fit a network whose live channels are empty.
    ensures begins { BeginFits }

    // The bytes of a direction that agents refill are what was drained of it, wherever they are.
    ensures holds { HoldsDrained }

    // Whatever steps and moves are made on the way, in any order, a refill that is done has given back to
    // each direction what was drained of it; and no more of them move bytes than there was work.
    ensures whole { GivesBack }
    ensures ends { EndsInTime }
{}
