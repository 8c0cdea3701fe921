//! On which nodes the hosts of a run are.
ghost use Rattle.std.specs.Prelude.{◌≡◌, List};
ghost use Rattle.rebuild_tables.specs.Hosts.{IsHosts};
ghost use Rattle.option_words.specs.Options.{Text};
ghost use Rattle.job_words.specs.declared.job.Job.TheVariants.{Launch, Restart};
ghost use Rattle.dmtcp_top.specs.Hosts as words;
ghost use Rattle.dmtcp_top.specs.Jobs.{Asks};

use host_tables::Hosts;
use job_words::{LaunchJob, RestartJob};

/// Where the hosts of a launch are: each is on the node of its number.
pub(crate) fn launch_hosts(job: &LaunchJob) -> Hosts
    requires { (words : List Text) × Asks words (Launch job.now) }
    ensures is { result ≡ words.launch_hosts job.now }
    ensures within { IsHosts result }
{
    Hosts {
        nodes: job.nodes,
        shift: 0,
        pid_base: 1_000,
        port_base: 20_000,
    }
}

/// Where the hosts of a restart are, as its words say.
pub(crate) fn restart_hosts(job: &RestartJob) -> Hosts
    requires { (words : List Text) × Asks words (Restart job.now) }
    ensures is { result ≡ words.restart_hosts job.now }
    ensures within { IsHosts result }
{
    Hosts {
        nodes: job.nodes,
        shift: job.shift,
        pid_base: job.pid_base,
        port_base: job.port_base,
    }
}
