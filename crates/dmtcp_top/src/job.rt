ghost use Rattle.std.specs.Prelude.{◌≡◌, ◌↔◌, map, string_bytes, IfOk, IfErr, IsTrue};
ghost use Rattle.job_words.specs.Outlines.{outline_of};
ghost use Rattle.job_words.specs.declared.job.Job.{Job};
ghost use Rattle.dmtcp_top.specs.Jobs.{Asks, IsBuilt};
ghost use Rattle.dmtcp_top.specs.Loads.{RefusesWords};

use endings::Ending;
use job_words::{Job, Outline, WordFault, outline_words, read_words};
use std::alloc::Global;

/// The job that the words ask for, or how the call ends without one. Whether they ask for one that is built
/// is told without memory.
pub(crate) fn read_job<'a>(alloc: Global, words: &[String]) -> Result<Job, Ending<'a>>
    ensures found { IfOk result (Asks (map string_bytes words.now)) }
    ensures refused { IfErr result (λ ending. RefusesWords ending (map string_bytes words.now)) }
{
    if !is_built(outline_words(words)) {
        return Err(Ending::Usage);
    }
    match read_words(alloc, words) {
        Ok(job) => Ok(job),
        Err(WordFault::Usage) => Err(Ending::Usage),
        Err(WordFault::Memory) => Err(Ending::Memory),
    }
}

/// Whether jobs of this outline are built.
fn is_built(outline: Outline) -> bool
    ensures { (job : Job) → outline ≡ outline_of job → IsTrue result ↔ IsBuilt job }
{
    match outline {
        Outline::Launch(launch) => launch.workers == 0,
        Outline::Restart(restart) => restart.workers == 0,
        Outline::Ring(ring) => ring.workers == 0,
        Outline::Help => true,
    }
}
