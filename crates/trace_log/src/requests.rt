ghost use Rattle.std.specs.Prelude.{◌≡◌, ◌+◌, ◌^◌, ◌<◌, ◌≤◌, IfSome};
ghost use Rattle.trace_log.specs.Requests.{first_tally, tally_after, asks};
ghost use Rattle.trace_log.specs.RequestLaws.{Begins, GoesOn, GoesOnByOne, HasFronts, IsARun, HasNoMarks, IsEachWithoutMarks, CountsWork, CountsCuts, RequestsAtMultiples, AtMostTwo, MarksFollowCuts, CutsAreCuts, CutsDiffer, CutStays, CutIsMade, OutcomesFit, OnlyLastIsOpen, StaysOpen, NoChannels, LogGrows};
ghost use Rattle.trace_log.specs.RequestSteps.{MarkStays, StandsAlone, Arrives, ArrivesMeanwhile, WorksMeanwhile, Lapses, IsRefusedForKind, IsRefused, IsCutNow, PassesDrained, PassesRefilled, Completes, FailsAfterCut};

use sys_abi::Record;

/// When a run asks for checkpoints, and from which generation on it counts its sets.
#[derive(Clone, Copy)]
pub struct Schedule {
    /// A request is made each time that so many work records have come, at least 1. None is made without it.
    pub every: Option<u32>,
    /// The generation of the set that was last when the run began, 0 where there was none.
    pub opening: u64,
}

/// What of a trace so far decides when the next request comes, and what its cut is called.
#[derive(Clone, Copy)]
pub struct Tally {
    /// The number of work records.
    pub work: u64,
    /// The greatest generation: that of the latest cut, and before the first cut the opening one.
    pub greatest: u64,
    /// Whether the latest cut has no `Complete` yet. Its set may then stand in the folder or not.
    pub is_unfinished: bool,
}

impl Schedule {
    /// Before the first record.
    pub fn first_tally(self) -> Tally
        ensures { result ≡ first_tally self }
    {
        Tally {
            work: 0,
            greatest: self.opening,
            is_unfinished: false,
        }
    }

    /// Whether the work record that was counted last asks for a checkpoint, unless a request is open.
    #[tactic(auto, unfolding(crate::specs::Requests::asks))]
    pub fn asks(self, tally: Tally) -> bool
        requires { IfSome self.every (λ every. 0 < every) }
        ensures { result ≡ asks self tally }
    {
        match self.every {
            Some(every) => tally.work % u64::from(every) == 0 && tally.greatest < u64::MAX - 1,
            None => false,
        }
    }
}

impl Tally {
    /// Goes past the record.
    #[tactic(auto, unfolding(crate::specs::Requests::tally_after))]
    pub fn pass(&mut self, event: &Record)
        requires { self.old.work + 1 < 2 ^ 64 }
        ensures value { self.new ≡ tally_after self.old event.now }
        ensures more { self.new.work ≤ self.old.work + 1 }
    {
        match *event {
            Record::User { .. } | Record::Call { .. } | Record::Deliver { .. } => self.work += 1,
            Record::Cut { generation } => {
                self.greatest = generation;
                self.is_unfinished = true;
            }
            Record::Complete { .. } => self.is_unfinished = false,
            _ => {}
        }
    }
}

/// The laws of requests and marks, for proofs about traces. It does nothing.
pub fn request_laws()
    ensures begins { Begins }
    ensures joins { GoesOn }
    ensures goes_on { GoesOnByOne }
    ensures fronts { HasFronts }
    ensures run { IsARun }
    ensures no_marks { HasNoMarks }
    ensures without_marks { IsEachWithoutMarks }
    ensures work { CountsWork }
    ensures cuts { CountsCuts }
    ensures multiples { RequestsAtMultiples }
    ensures two { AtMostTwo }
    ensures marks { MarksFollowCuts }
    ensures are_cuts { CutsAreCuts }
    ensures differ { CutsDiffer }
    ensures stays { CutStays }
    ensures made { CutIsMade }
    ensures outcomes { OutcomesFit }
    ensures last_open { OnlyLastIsOpen }
    ensures stays_open { StaysOpen }
    ensures no_channels { NoChannels }
    ensures log { LogGrows }
{}

/// How a request goes on, record by record, for proofs about traces. It does nothing.
pub fn request_steps()
    ensures stays { MarkStays }
    ensures alone { StandsAlone }
    ensures arrives { Arrives }
    ensures arrives_meanwhile { ArrivesMeanwhile }
    ensures works_meanwhile { WorksMeanwhile }
    ensures lapses { Lapses }
    ensures refused_for_kind { IsRefusedForKind }
    ensures refused { IsRefused }
    ensures cut { IsCutNow }
    ensures drained { PassesDrained }
    ensures refilled { PassesRefilled }
    ensures completes { Completes }
    ensures fails { FailsAfterCut }
{}
