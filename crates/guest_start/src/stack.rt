ghost use Rattle.std.specs.Prelude.{◌≡◌, ◌+◌, ◌-◌, ◌*◌, ◌/◌, ◌≤◌, ◌++◌, length, replicate, vec_len, IfOk, OnOk};
ghost use Rattle.plain_process.specs.Memory as memory;
ghost use Rattle.plain_process.specs.Start as start;

use std::alloc::{AllocError, Global};

/// The stack is the 64 pages below this address.
const STACK_END: usize = 0x8000_0000;

const STACK_START: usize = 0x7FFC_0000;

/// The place of each argument string: that of the first byte, and of each byte after a zero byte.
fn argument_places(alloc: Global, arguments: &[u8]) -> Result<Vec<u32>, AllocError>
    requires some { 1 ≤ length arguments.now }
    requires few { length arguments.now ≤ 4096 }
    ensures places { IfOk result (λ places. places.items ≡ start.argument_places arguments.now) }
    ensures few { IfOk result (λ places. vec_len places ≤ 4096) }
{
    let first = STACK_END - arguments.len();
    let mut places = Vec::new(alloc);
    let mut is_fresh = true;
    for (index, byte) in arguments.iter().enumerate() {
        if is_fresh {
            places.push((first + index) as u32)?;
        }
        is_fresh = *byte == 0;
    }
    Ok(places)
}

/// The greatest multiple of 16 with room for the words of so many strings, which have so many bytes.
fn sp_below(length: usize, count: usize) -> usize
    requires few { length ≤ 4096 }
    requires count { count ≤ 4096 }
    ensures sp { result ≡ 16 * ((2147483648 - length - 4 * (count + 5)) / 16) }
    ensures low { 2147221504 ≤ result }
    ensures room { result + 4 * (count + 5) + length ≤ 2147483648 }
{
    (STACK_END - length - 4 * (count + 5)) / 16 * 16
}

/// The stack pointer at the start.
#[tactic(auto, unfolding(plain_process::specs::Start::start_sp))]
pub fn start_sp(alloc: Global, arguments: &[u8]) -> Result<u32, AllocError>
    requires some { 1 ≤ length arguments.now }
    requires few { length arguments.now ≤ 4096 }
    ensures { IfOk result (λ sp. sp ≡ start.start_sp arguments.now) }
{
    let places = argument_places(alloc, arguments)?;
    Ok(sp_below(arguments.len(), places.len()) as u32)
}

/// argc, the pointers and four zero words.
fn start_words(alloc: Global, places: &[u32]) -> Result<Vec<u32>, AllocError>
    requires few { length places.now ≤ 4096 }
    ensures words { IfOk result (λ words. words.items ≡ start.start_words places.now) }
    ensures len { IfOk result (λ words. vec_len words ≡ length places.now + 5) }
{
    let mut words = Vec::new(alloc);
    words.push(places.len() as u32)?;
    words.extend_from_slice(places)?;
    words.extend_from_slice(&[0, 0, 0, 0])?;
    Ok(words)
}

/// Appends a word's bytes.
fn put_word(bytes: &mut Vec<u8>, word: u32) -> Result<(), AllocError>
    ensures { OnOk result (bytes.new.items ≡ bytes.old.items ++ memory.low_bytes 4 word) }
{
    bytes.extend_from_slice(&word.to_le_bytes())
}

/// Appends the bytes of words.
fn put_words(bytes: &mut Vec<u8>, words: &[u32]) -> Result<(), AllocError>
    ensures { OnOk result (bytes.new.items ≡ bytes.old.items ++ start.words_bytes words.now) }
{
    for word in words {
        put_word(bytes, *word)?;
    }
    Ok(())
}

/// Appends zeros.
fn put_zeros(alloc: Global, bytes: &mut Vec<u8>, count: usize) -> Result<(), AllocError>
    ensures { OnOk result (bytes.new.items ≡ bytes.old.items ++ replicate count 0) }
{
    let zeros = vec![in alloc; 0; count]?;
    bytes.extend_from_slice(&zeros)
}

/// What the stack's pages hold at the start.
#[tactic(auto, unfolding(plain_process::specs::Start::start_stack, plain_process::specs::Start::start_sp))]
pub fn start_stack(alloc: Global, arguments: &[u8]) -> Result<Vec<u8>, AllocError>
    requires some { 1 ≤ length arguments.now }
    requires few { length arguments.now ≤ 4096 }
    ensures stack { IfOk result (λ stack. stack.items ≡ start.start_stack arguments.now) }
    ensures size { IfOk result (λ stack. length stack.items ≡ 262144) }
{
    let places = argument_places(alloc, arguments)?;
    let count = places.len();
    let words = start_words(alloc, &places)?;
    let sp = sp_below(arguments.len(), count);
    let mut bytes = Vec::new(alloc);
    put_zeros(alloc, &mut bytes, sp - STACK_START)?;
    put_words(&mut bytes, &words)?;
    put_zeros(
        alloc,
        &mut bytes,
        STACK_END - arguments.len() - (sp + 4 * (count + 5)),
    )?;
    bytes.extend_from_slice(arguments)?;
    Ok(bytes)
}
