ghost use Rattle.std.specs.Prelude.{◌≡◌, ◌∷◌, ◌++◌, ℕ, List, map, string_bytes};
ghost use Rattle.std.specs.Fmt.{decimal};
ghost use Rattle.option_words.specs.declared.option_key.Form.TheVariants as form;
ghost use Rattle.option_words.specs.Options.{Setting, AreSettings, given_or, words_of_all};
ghost use Rattle.option_words.specs.declared.option_key.OptionKey.TheVariants as key;
ghost use Rattle.option_words.specs.Reading.{texts_of};
ghost use Rattle.job_words.specs.declared.job.Job.{Job};
ghost use Rattle.job_words.specs.Commands.{IsLaunch, nodes_of};
ghost use Rattle.job_words.specs.Jobs.{IsJob};
ghost use Rattle.job_words.specs.Outlines.{outline_of};
ghost use Rattle.job_words.specs.Programs.{ProgramText, program_word, hosts_of};

use crate::programs::hosts_in;
use option_words::{Form, OptionKey, read_options};

/// What a job is, and where it runs: as much of it as words tell without memory.
#[derive(Clone, Copy)]
pub enum Outline {
    Launch(LaunchOutline),
    Restart(RestartOutline),
    Ring(RingOutline),
    /// The forms of the command line are asked for.
    Help,
}

/// Where a launch runs.
#[derive(Clone, Copy)]
pub struct LaunchOutline {
    pub nodes: u32,
    /// The number above the greatest host.
    pub hosts: u32,
    pub workers: u32,
}

/// Where a restart runs.
#[derive(Clone, Copy)]
pub struct RestartOutline {
    pub nodes: u32,
    pub workers: u32,
    pub shift: u32,
    pub pid_base: u32,
    pub port_base: u32,
}

/// Where a ring runs.
#[derive(Clone, Copy)]
pub struct RingOutline {
    pub workers: u32,
}

/// The outline of the job that the words ask for. Takes no memory. Of words that ask for none it tells
/// nothing.
pub fn outline_words(words: &[String]) -> Outline
    ensures { (job : Job) → IsJob (map string_bytes words.now) job → result ≡ outline_of job }
{
    let Some((form, rest)) = words.split_first() else {
        return Outline::Help;
    };
    match form.as_str() {
        "launch" => Outline::Launch(launch_outline(rest)),
        "restart" => Outline::Restart(restart_outline(rest)),
        "ring" => Outline::Ring(ring_outline(rest)),
        _ => Outline::Help,
    }
}

/// Where the launch runs of the words behind `launch`.
fn launch_outline(words: &[String]) -> LaunchOutline
    ensures { (given : List Setting) (programs : List ProgramText) → IsLaunch given programs
        → texts_of words.now ≡ words_of_all given ++ map program_word programs
        → result ≡ record {
          nodes = nodes_of given programs;
          hosts = hosts_of programs;
          workers = given_or key.Workers given 0;
        } }
{
    let (options, rest) = read_options(Form::Launch, words);
    let hosts = hosts_in(rest).unwrap_or(0);
    LaunchOutline {
        nodes: options.get(OptionKey::Nodes).unwrap_or(hosts),
        hosts,
        workers: options.get(OptionKey::Workers).unwrap_or(0),
    }
}

/// Where the restart runs of the words behind `restart`.
fn restart_outline(words: &[String]) -> RestartOutline
    ensures { (given : List Setting) → AreSettings form.Restart given → texts_of words.now ≡ words_of_all given
        → result ≡ record {
          nodes = given_or key.Nodes given 16;
          workers = given_or key.Workers given 0;
          shift = given_or key.Shift given 0;
          pid_base = given_or key.PidBase given 2000;
          port_base = given_or key.PortBase given 30000;
        } }
{
    let (options, _) = read_options(Form::Restart, words);
    RestartOutline {
        nodes: options.get(OptionKey::Nodes).unwrap_or(16),
        workers: options.get(OptionKey::Workers).unwrap_or(0),
        shift: options.get(OptionKey::Shift).unwrap_or(0),
        pid_base: options.get(OptionKey::PidBase).unwrap_or(2_000),
        port_base: options.get(OptionKey::PortBase).unwrap_or(30_000),
    }
}

/// Where the ring runs of the words behind `ring`.
fn ring_outline(words: &[String]) -> RingOutline
    ensures { (n : ℕ) (given : List Setting) → AreSettings form.Ring given
        → texts_of words.now ≡ decimal n ∷ words_of_all given
        → result ≡ record { workers = given_or key.Workers given 0 } }
{
    let Some((_, words)) = words.split_first() else {
        return RingOutline { workers: 0 };
    };
    let (options, _) = read_options(Form::Ring, words);
    RingOutline {
        workers: options.get(OptionKey::Workers).unwrap_or(0),
    }
}
