ghost use Rattle.std.specs.Prelude.{◌≡◌, ◌↔◌, ℕ, [], ◌∷◌, codes, map, All, IsTrue, IfOk, IfErr, Ok, Err, string_bytes};
ghost use Rattle.job_words.specs.declared.word_fault.WordFault.TheVariants.{Usage};
ghost use Rattle.job_words.specs.Commands.{Command, SpellNothing, OneCommand, HasNoZero};
ghost use Rattle.job_words.specs.Jobs.{IsJob, OneJob};
ghost use Rattle.job_words.specs.Answers.{AnswersFor, IsRefusal};
ghost use Rattle.option_words.specs.Reading.{texts_of};

use crate::job::{Job, LaunchJob};
use crate::parsed::{restart_of, ring_of};
use crate::programs::{nodes_for, programs_of};
use crate::word_fault::WordFault;
use option_words::{Form, OptionKey, number_in, read_options};
use std::alloc::Global;

/// The fewest and the most processes of a ring.
const LEAST_RING: u32 = 2;

const GREATEST_RING: u32 = 16;

/// The job that the words ask for, which are those after the program's own name. `Usage` exactly where the
/// words are of no command; it never gives way to want of memory. `help` alone wants none.
pub fn read_words(alloc: Global, words: &[String]) -> Result<Job, WordFault>
    ensures found { IfOk result (IsJob (map string_bytes words.now)) }
    ensures usage { (result ≡ Err Usage) ↔ SpellNothing (map string_bytes words.now) }
    ensures help { map string_bytes words.now ≡ codes "help" ∷ [] → IfErr result (λ fault. fault ≡ Usage) }
{
    if are_plain(words) {
        read_form(alloc, words)
    } else {
        Err(WordFault::Usage)
    }
}

/// The job of words without a zero byte.
fn read_form(alloc: Global, words: &[String]) -> Result<Job, WordFault>
    ensures found { IfOk result (AnswersFor (texts_of words.now)) }
    ensures usage { (result ≡ Err Usage) ↔ IsRefusal (texts_of words.now) }
    ensures help { texts_of words.now ≡ codes "help" ∷ [] → IfErr result (λ fault. fault ≡ Usage) }
{
    let Some((form, rest)) = words.split_first() else {
        return Err(WordFault::Usage);
    };
    match form.as_str() {
        "launch" => launch(alloc, rest),
        "restart" => restart(alloc, rest),
        "ring" => ring(alloc, rest),
        "help" => help(rest),
        _ => Err(WordFault::Usage),
    }
}

/// Whether no word holds a zero byte.
fn are_plain(words: &[String]) -> bool
    ensures { IsTrue result ↔ All (λ word. HasNoZero (string_bytes word)) words.now }
{
    words.iter().all(|word| is_plain(word.as_str()))
}

fn is_plain(word: &str) -> bool
    ensures { IsTrue result ↔ HasNoZero word.now }
{
    word.as_bytes().iter().all(|byte| *byte != 0)
}

/// The job of the words behind `launch`.
fn launch(alloc: Global, words: &[String]) -> Result<Job, WordFault>
    ensures found { IfOk result (AnswersFor (codes "launch" ∷ texts_of words.now)) }
    ensures usage { (result ≡ Err Usage) ↔ IsRefusal (codes "launch" ∷ texts_of words.now) }
{
    let (options, rest) = read_options(Form::Launch, words);
    let Some(nodes) = nodes_for(options.get(OptionKey::Nodes), rest) else {
        return Err(WordFault::Usage);
    };
    let file = options.files.to_list(alloc)?;
    let programs = programs_of(alloc, rest)?;
    Ok(Job::Launch(LaunchJob {
        nodes,
        workers: options.get(OptionKey::Workers).unwrap_or(0),
        every: options.get(OptionKey::Every),
        records: options.get(OptionKey::Records).unwrap_or(1_000_000),
        file,
        programs,
    }))
}

/// The job of the words behind `restart`.
fn restart(alloc: Global, words: &[String]) -> Result<Job, WordFault>
    ensures found { IfOk result (AnswersFor (codes "restart" ∷ texts_of words.now)) }
    ensures usage { (result ≡ Err Usage) ↔ IsRefusal (codes "restart" ∷ texts_of words.now) }
{
    let (_, rest) = read_options(Form::Restart, words);
    if rest.is_empty() {
        Ok(Job::Restart(restart_of(alloc, words)?))
    } else {
        Err(WordFault::Usage)
    }
}

/// The job of the words behind `ring`.
fn ring(alloc: Global, words: &[String]) -> Result<Job, WordFault>
    ensures found { IfOk result (AnswersFor (codes "ring" ∷ texts_of words.now)) }
    ensures usage { (result ≡ Err Usage) ↔ IsRefusal (codes "ring" ∷ texts_of words.now) }
{
    let Some((count, words)) = words.split_first() else {
        return Err(WordFault::Usage);
    };
    let Some(processes) = number_in(count.as_str(), LEAST_RING, GREATEST_RING) else {
        return Err(WordFault::Usage);
    };
    let (_, rest) = read_options(Form::Ring, words);
    if rest.is_empty() {
        Ok(Job::Ring(ring_of(alloc, processes, words)?))
    } else {
        Err(WordFault::Usage)
    }
}

/// The job of the words behind `help`.
fn help(words: &[String]) -> Result<Job, WordFault>
    ensures found { IfOk result (AnswersFor (codes "help" ∷ texts_of words.now)) }
    ensures usage { (result ≡ Err Usage) ↔ IsRefusal (codes "help" ∷ texts_of words.now) }
    ensures ample { IfErr result (λ fault. fault ≡ Usage) }
{
    if words.is_empty() {
        Ok(Job::Help)
    } else {
        Err(WordFault::Usage)
    }
}

/// Laws of command lines: words are of one command, and ask for one job, at most. It does nothing.
pub fn word_laws()
    ensures command { OneCommand }
    ensures job { OneJob }
{}
