ghost use Rattle.plain_machine.specs.Laws.{RecordIsLocal, StartIsValid, StepKeepsValid, RunOfOneMore, ConsoleOfOneMore, ReadIsLaunched, StartIsUser, UserStepsKeepUser, PutKeepsUser, FaultKeepsUser, LocalKeepsUser, DeliveryKeepsUser, AskedIsRequest, WaitersAreFew, StandsAsked, EachIsServed, ReadyByFront, ServeAdds};
ghost use Rattle.plain_machine.specs.BirthLaws.{BirthsAreForks, EndsAreOwn};
ghost use Rattle.plain_machine.specs.KernelLaws.{StartIsKernel, TakeKeeps, RaiseKeeps, RaiseForAllKeeps, NextThreadKeeps, ThreadEndKeeps, EndKeeps, ForkKeeps, CloseKeeps, AgainKeeps, PlacedKeeps, NumberedKeeps, PairKeeps, ArrivalKeeps};

/// The laws of runs, for proofs about traces. It does nothing.
pub fn run_laws()
    ensures local { RecordIsLocal }
    ensures births { BirthsAreForks }
    ensures ends { EndsAreOwn }
    ensures start { StartIsValid }
    ensures valid { StepKeepsValid }
    ensures run { RunOfOneMore }
    ensures console { ConsoleOfOneMore }

    // Of one process's part.
    ensures launched { ReadIsLaunched }
    ensures user_start { StartIsUser }
    ensures user_steps { UserStepsKeepUser }
    ensures user_put { PutKeepsUser }
    ensures user_fault { FaultKeepsUser }
    ensures user_local { LocalKeepsUser }
    ensures user_delivery { DeliveryKeepsUser }
    ensures user_asks { AskedIsRequest }
    ensures waiters { WaitersAreFew }

    // Of the calls that the kernel serves.
    ensures asked { StandsAsked }
    ensures served { EachIsServed }
    ensures ready { ReadyByFront }
    ensures adds { ServeAdds }
{}

/// What each word of change keeps of a whole kernel part, for proofs about calls. It does nothing.
pub fn kernel_laws()
    ensures start { StartIsKernel }
    ensures take { TakeKeeps }
    ensures raise { RaiseKeeps }
    ensures raise_for_all { RaiseForAllKeeps }
    ensures next_thread { NextThreadKeeps }
    ensures thread_end { ThreadEndKeeps }
    ensures end { EndKeeps }
    ensures fork { ForkKeeps }
    ensures close { CloseKeeps }
    ensures again { AgainKeeps }
    ensures placed { PlacedKeeps }
    ensures numbered { NumberedKeeps }
    ensures pair { PairKeeps }
    ensures arrival { ArrivalKeeps }
{}
