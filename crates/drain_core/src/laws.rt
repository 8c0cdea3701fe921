ghost use Rattle.drain_core.specs.Laws.{StepsAtEnds, OthersStay, MoveFits, MoveLowers};
ghost use Rattle.drain_core.specs.Runs.{GivesWhatStood, EndsInTime};

/// What steps of agents and moves of bytes from queue to queue do while agents drain, and what whole runs of
/// them come to. It does nothing.
pub fn drain_laws()
    // A step of an agent takes bytes only from the front of the receivers' queues of ends for which it acts,
    // and adds bytes only at the back of their senders' queues; a list grows only by bytes that were taken.
    // Directions without notes are left as they are.
    ensures steps { StepsAtEnds }
    ensures others { OthersStay }

    // The notes of the agents fit the network after a move, and less is left to do where bytes were moved.
    ensures fits { MoveFits }
    ensures lowers { MoveLowers }

    // Whatever steps and moves are made on the way, in any order, a drain that is done gives a list for each
    // direction that was there when it began, of what stood in it then; and no more of them move bytes than
    // there was work.
    ensures whole { GivesWhatStood }
    ensures ends { EndsInTime }
{}
