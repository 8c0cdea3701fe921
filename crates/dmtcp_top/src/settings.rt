ghost use Rattle.std.specs.Prelude.{◌≡◌};
ghost use Rattle.dmtcp_top.specs.Jobs.{settings_of};
ghost use Rattle.dmtcp_top.specs.Launches.{schedule_of};

use job_words::Job;
use trace_log::Schedule;

/// What a job sets for its run.
#[derive(Clone, Copy)]
pub struct Settings {
    /// After how many records of work each a checkpoint is asked for, if ever.
    pub every: Option<u32>,
    /// How many records the trace has room for.
    pub records: u32,
}

/// How many records the trace of a ring has room for.
const RING_RECORDS: u32 = 1_000_000;

impl Settings {
    /// What this job sets.
    pub fn of(job: &Job) -> Self
        ensures { result ≡ settings_of job.now }
    {
        match job {
            Job::Launch(job) => Settings::new(job.every, job.records),
            Job::Restart(job) => Settings::new(job.every, job.records),
            Job::Ring(job) => Settings::new(Some(job.every), RING_RECORDS),
            Job::Help => Settings::new(None, 0),
        }
    }

    /// When checkpoints are asked for, after a set of this generation.
    pub fn schedule(self, opening: u64) -> Schedule
        ensures { result ≡ schedule_of self opening }
    {
        Schedule {
            every: self.every,
            opening,
        }
    }

    fn new(every: Option<u32>, records: u32) -> Self
        ensures { result ≡ record { every = every; records = records } }
    {
        Settings { every, records }
    }
}
