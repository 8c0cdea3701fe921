ghost use Rattle.std.specs.Prelude.{◌≡◌, ◌<◌, ◌^◌, ℕ, true, false, List, ◌++◌, map, Some, None, IfOk, OnOk, IfErr, string_bytes};
ghost use Rattle.std.specs.Fmt.{decimal};
ghost use Rattle.clap.specs.Matches.{found_of};
ghost use Rattle.clap.specs.Simple.{app_of, matches_of};
ghost use Rattle.clap.specs.Takes.{takes};
ghost use Rattle.clap.specs.Walk.{first_of, rows_of, texts};
ghost use Rattle.job_words.specs.declared.word_fault.WordFault.TheVariants.{Memory};
ghost use Rattle.option_words.specs.declared.option_key.Form.TheVariants as form;
ghost use Rattle.option_words.specs.Options.{Setting, AreSettings, words_of_all};
ghost use Rattle.job_words.specs.Jobs.{IsRestartOf, IsRingOf};
ghost use Rattle.job_words.specs.Parsed.{heard, heard_at, option_rule, plain_app, restart_app, ring_app, rule_at, with_rules, AreOptions, IsNumber};
ghost use Rattle.option_words.specs.Reading.{texts_of};

use crate::job::{RestartJob, RingJob};
use crate::word_fault::WordFault;
use clap::error::ErrorKind;
use clap::{Arg, ArgMatches, Command};
use option_words::decimal_in;
use std::alloc::{AllocError, Global};

/// The options of a restart, each with what it is where it isn't given.
const RESTART_OPTIONS: [(&str, &[&str]); 7] = [
    ("nodes", &["16"]),
    ("workers", &["0"]),
    ("every", &[]),
    ("records", &["1000000"]),
    ("shift", &["0"]),
    ("pid-base", &["2000"]),
    ("port-base", &["30000"]),
];

/// The options of a ring, likewise.
const RING_OPTIONS: [(&str, &[&str]); 2] = [("workers", &["0"]), ("every", &["1000"])];

/// The restart of the words of its options.
pub(crate) fn restart_of(alloc: Global, words: &[String]) -> Result<RestartJob, WordFault>
    requires { AreOptions form.Restart (texts_of words.now) }
    ensures ok { IfOk result (λ job. (given : List Setting) → AreSettings form.Restart given → texts_of words.now ≡ words_of_all given
        → IsRestartOf given job) }
    ensures err { IfErr result (λ fault. fault ≡ Memory) }
{
    let matches = parse(restart_command(alloc)?, words)?;
    Ok(RestartJob {
        nodes: value_of(&matches, "nodes"),
        workers: value_of(&matches, "workers"),
        every: number_of(&matches, "every"),
        records: value_of(&matches, "records"),
        shift: value_of(&matches, "shift"),
        pid_base: value_of(&matches, "pid-base"),
        port_base: value_of(&matches, "port-base"),
    })
}

/// The ring of so many processes with the words of its options.
pub(crate) fn ring_of(alloc: Global, processes: u32, words: &[String]) -> Result<RingJob, WordFault>
    requires { AreOptions form.Ring (texts_of words.now) }
    ensures ok { IfOk result (λ job. (given : List Setting) → AreSettings form.Ring given → texts_of words.now ≡ words_of_all given
        → IsRingOf processes given job) }
    ensures err { IfErr result (λ fault. fault ≡ Memory) }
{
    let matches = parse(ring_command(alloc)?, words)?;
    Ok(RingJob {
        processes,
        workers: value_of(&matches, "workers"),
        every: value_of(&matches, "every"),
    })
}

fn restart_command<'a>(alloc: Global) -> Result<Command<'a>, AllocError>
    ensures { IfOk result (λ command. app_of command ≡ restart_app) }
{
    command_with(alloc, "restart", &RESTART_OPTIONS)
}

fn ring_command<'a>(alloc: Global) -> Result<Command<'a>, AllocError>
    ensures { IfOk result (λ command. app_of command ≡ ring_app) }
{
    command_with(alloc, "ring", &RING_OPTIONS)
}

/// A command of these options, whose first word is an argument.
fn command_with<'a>(
    alloc: Global,
    name: &'a str,
    options: &[(&'a str, &'a [&'a str])],
) -> Result<Command<'a>, AllocError>
    ensures { IfOk result (λ command. app_of command ≡ with_rules (plain_app name.entry.now) (map rule_at options.now)) }
{
    let mut args = Vec::new(alloc);
    add_args(alloc, &mut args, options)?;
    plain(alloc, name).args(args)
}

/// A command whose first word is an argument, without a flag for help.
fn plain<'a>(alloc: Global, name: &'a str) -> Command<'a>
    ensures { app_of result ≡ plain_app name.entry.now }
{
    Command::new(alloc, name)
        .no_binary_name(true)
        .disable_help_flag(true)
}

/// Puts an argument for each option behind those that there are.
fn add_args<'a>(
    alloc: Global,
    args: &mut Vec<Arg<'a>>,
    options: &[(&'a str, &'a [&'a str])],
) -> Result<(), AllocError>
    ensures { OnOk result (map heard args.new.items ≡ map heard args.old.items ++ map heard_at options.now) }
{
    for (name, defaults) in options {
        args.push(arg_of(alloc, name, defaults))?;
    }
    Ok(())
}

fn arg_of<'a>(alloc: Global, name: &'a str, defaults: &'a [&'a str]) -> Arg<'a>
    ensures { heard result ≡ (option_rule name.entry.now (texts defaults.entry.now), false) }
{
    Arg::new(alloc, name).long(name).default_values(defaults)
}

/// What the parse finds. For words that the command takes it fails for want of memory alone.
fn parse<'a>(command: Command<'a>, words: &'a [String]) -> Result<ArgMatches<'a>, WordFault>
    requires { takes (app_of command) (texts_of words.now) ≡ true }
    ensures ok { IfOk result (λ matches. rows_of (found_of matches) ≡ matches_of (app_of command.entry) (texts_of words.entry.now)) }
    ensures err { IfErr result (λ fault. fault ≡ Memory) }
{
    match command.try_get_matches_from(words) {
        Ok(matches) => Ok(matches),
        Err(error) => match error.kind() {
            ErrorKind::OutOfMemory => Err(WordFault::Memory),
            _ => unreachable!(),
        },
    }
}

/// The number that was found for an option.
fn number_of(matches: &ArgMatches<'_>, id: &str) -> Option<u32>
    ensures none { first_of id.now (rows_of (found_of matches.now)) ≡ None → result ≡ None }
    ensures some { (n : ℕ) → n < 2 ^ 32 → first_of id.now (rows_of (found_of matches.now)) ≡ Some (decimal n) → result ≡ Some n }
{
    let text = matches.get_str(id)?;
    decimal_in(text)
}

/// The number that was found for an option that has a default.
fn value_of(matches: &ArgMatches<'_>, id: &str) -> u32
    requires { IsNumber (first_of id.now (rows_of (found_of matches.now))) }
    ensures { (n : ℕ) → n < 2 ^ 32 → first_of id.now (rows_of (found_of matches.now)) ≡ Some (decimal n) → result ≡ n }
{
    number_of(matches, id).unwrap()
}
