ghost use Rattle.std.specs.Prelude.{◌≡◌, ◌+◌, ◌≤◌, ℕ, max, List, [], ◌∷◌, ◌++◌, map, All, IfSome, IfNone, IfOk, unwrap_or};
ghost use Rattle.job_words.specs.Programs.{ProgramText, IsProgram, program_word, hosts_of};
ghost use Rattle.job_words.specs.Jobs.{start_of};
ghost use Rattle.job_words.specs.Parts.{ArePartsOf, ArePrograms, IsProgramWord, AreCounted, StandsFirst, IsNodesOf, zero_at_comma, with_zeros};
ghost use Rattle.option_words.specs.Reading.{texts_of};

use crate::job::NamedProgram;
use option_words::{FileName, number_in};
use std::alloc::{AllocError, Global};
use views::list_of::ListOf;

/// The greatest number of a host.
const LAST_HOST: u32 = 15;

/// The longest name of a program's file, in bytes.
const LONGEST_NAME: usize = 255;

/// How many bytes a program's name and arguments may have, each with its zero byte.
const MOST_BYTES: usize = 4_096;

/// How many programs a launch may have.
const MOST_PROGRAMS: usize = 128;

/// The parts of a program's word. It takes no memory.
#[derive(Clone, Copy)]
pub(crate) struct Parts<'a> {
    host: u32,
    name: &'a str,
    /// The name and the arguments, with a comma before each argument.
    listed: &'a str,
}

/// The parts of a program's word. `None` exactly where the word is of no program.
pub(crate) fn parts_of(word: &str) -> Option<Parts<'_>>
    ensures some { IfSome result (λ parts. (program : ProgramText) × IsProgram program × (word.now ≡ program_word program) × ArePartsOf program parts) }
    ensures host { IfSome result (λ parts. parts.host ≤ 15) }
    ensures none { IfNone result ((program : ProgramText) → IsProgram program → word.now ≡ program_word program → ⊥) }
{
    let (host, listed) = word.split_once(':')?;
    let host = number_in(host, 0, LAST_HOST)?;
    let name = name_of(listed);
    if name.is_empty() {
        return None;
    }
    if name.len() > LONGEST_NAME {
        return None;
    }
    if listed.len() >= MOST_BYTES {
        return None;
    }
    Some(Parts { host, name, listed })
}

/// What stands before the first comma.
fn name_of(listed: &str) -> &str
    ensures { StandsFirst listed.now result.now }
{
    match listed.split_once(',') {
        Some((name, _)) => name,
        None => listed,
    }
}

/// One more than the greatest host of these programs. `None` exactly where some word is of no program.
pub(crate) fn hosts_in(words: &[String]) -> Option<u32>
    ensures some { IfSome result (λ hosts. AreCounted (texts_of words.now) hosts) }
    ensures none { IfNone result ((programs : List ProgramText) → ArePrograms (texts_of words.now) programs → ⊥) }
{
    let mut hosts = 0;
    for word in words {
        let parts = parts_of(word.as_str())?;
        hosts = larger(hosts, parts.host);
    }
    Some(hosts)
}

/// One more than the host, or as many hosts as there were before.
fn larger(hosts: u32, host: u32) -> u32
    requires { host ≤ 15 }
    ensures { result ≡ max hosts (host + 1) }
{
    if hosts <= host { host + 1 } else { hosts }
}

/// How many nodes a launch of these programs has, where so many are asked for. `None` exactly where the words
/// are of no programs that it may have.
pub(crate) fn nodes_for(asked: Option<u32>, words: &[String]) -> Option<u32>
    ensures some { IfSome result (λ nodes. (programs : List ProgramText) × IsNodesOf asked (texts_of words.now) programs × (nodes ≡ unwrap_or asked (hosts_of programs))) }
    ensures none { IfNone result ((programs : List ProgramText) → IsNodesOf asked (texts_of words.now) programs → ⊥) }
{
    if words.is_empty() {
        return None;
    }
    if words.len() > MOST_PROGRAMS {
        return None;
    }
    let hosts = hosts_in(words)?;
    let nodes = asked.unwrap_or(hosts);
    if hosts <= nodes { Some(nodes) } else { None }
}

/// The programs of these words, in order.
pub(crate) fn programs_of(
    alloc: Global,
    words: &[String],
) -> Result<ListOf<NamedProgram>, AllocError>
    requires { All IsProgramWord (texts_of words.now) }
    ensures { IfOk result (λ list. (programs : List ProgramText) → ArePrograms (texts_of words.now) programs
        → list ≡ map start_of programs) }
{
    let mut list = ListOf::new(alloc);
    for word in words {
        list.push(program_of(alloc, word.as_str())?)?;
    }
    Ok(list)
}

/// The program of this word.
fn program_of(alloc: Global, word: &str) -> Result<NamedProgram, AllocError>
    requires { IsProgramWord word.now }
    ensures { IfOk result (λ named. (program : ProgramText) → IsProgram program → word.now ≡ program_word program
        → named ≡ start_of program) }
{
    let Some(parts) = parts_of(word) else {
        unreachable!()
    };
    Ok(NamedProgram {
        host: parts.host,
        name: FileName::from_string(String::from_str(alloc, parts.name)?),
        arguments: argument_bytes(alloc, parts.listed)?,
    })
}

/// The texts between the commas, each with a zero byte at its end.
fn argument_bytes(alloc: Global, listed: &str) -> Result<ListOf<u8>, AllocError>
    ensures { IfOk result (λ bytes. bytes ≡ with_zeros listed.now) }
{
    let mut bytes = ListOf::from_vec(zeros_at_commas(alloc, listed)?);
    bytes.push(0)?;
    Ok(bytes)
}

fn zeros_at_commas(alloc: Global, listed: &str) -> Result<Vec<u8>, AllocError>
    ensures { IfOk result (λ bytes. bytes.items ≡ map zero_at_comma listed.now) }
{
    let text = listed.as_bytes();
    let mut bytes = Vec::with_capacity(alloc, text.len())?;
    for byte in text {
        bytes.push(zero_at_comma(*byte))?;
    }
    Ok(bytes)
}

fn zero_at_comma(byte: u8) -> u8
    ensures { result ≡ zero_at_comma byte }
{
    if byte == b',' { 0 } else { byte }
}
