ghost use Rattle.std.specs.Prelude.{◌≡◌, ◌<◌, ◌^◌, ◌++◌, [], length, slice_get, All, OnOk};
ghost use Rattle.std.specs.List.{flat_map};
ghost use Rattle.image_format.specs.Format.{number_text, counted, each, n32, unsigned};
ghost use Rattle.image_process.specs.ProcessImages.{tids_of, word_format, registers_format, context_format, thread_format};
ghost use Rattle.image_process.specs.ProcessFits.{ContextWords, ThreadWords};
ghost use Rattle.image_process.specs.ProcessTexts.{registers_text, context_text, thread_text, list_text};
ghost use Rattle.image_process.specs.ProcessTests.{is_context_count, is_count_of_threads, is_number};
ghost use Rattle.image_format.specs.Reading.{Gives, read};
ghost use Rattle.plain_process.specs.Valid.{IsWord};

use image_format::fields::{Fault, put_u32, u32_at};
use plain_process::{Context, Regs, ThreadPart};
use shared_items::ThreadEntry;
use std::alloc::{AllocError, Global};
use views::list_of::ListOf;

/// How many threads a process has at most, and how many contexts each of them saves.
const THREAD_LIMIT: u32 = 64;

const CONTEXT_LIMIT: u32 = 64;

/// A thread of a process, by its number.
#[derive(Drop)]
pub struct ThreadImage {
    pub tid: u32,
    pub part: ThreadPart,
}

fn is_count_of_threads(threads: &[ThreadEntry], count: u32) -> bool
    ensures { result ≡ is_count_of_threads (tids_of threads.now) count }
{
    1 <= count && count <= THREAD_LIMIT && threads.len() == count as usize
}

#[tactic(auto, unfolding(crate::specs::ProcessImages::word_format))]
pub(crate) fn word_at(text: &[u8]) -> Result<(u32, &[u8]), Fault>
    ensures { Gives (λ x. (x.0, x.1.now)) result (read word_format text.now) }
{
    u32_at(text)
}

/// Fills the slice with the next words. After a fault it has some of them.
#[tactic(auto, using(image_format::proofs::Loop::words_more, image_format::proofs::Loop::words_end, image_format::proofs::Loop::words_done))]
fn fill_words<'a>(text: &'a [u8], words: &mut [u32]) -> Result<&'a [u8], Fault>
    ensures { Gives (λ rest. (words.new, rest.now)) result
        (read (each (λ _. word_format) (length words.old) []) text.now) }
{
    let mut rest = text;
    for i in 0..words.len() {
        let (word, more) = word_at(rest)?;
        words[i] = word;
        rest = more;
    }
    Ok(rest)
}

/// The registers x1 to x31, with x0 before them.
#[tactic(auto, unfolding(crate::specs::ProcessImages::registers_format, image_format::specs::Reading::read, image_format::specs::Reading::read_next))]
fn registers_at(text: &[u8]) -> Result<([u32; 32], &[u8]), Fault>
    ensures { Gives (λ x. (x.0, x.1.now)) result (read registers_format text.now) }
{
    let mut x = [0; 32];
    let rest = fill_words(text, &mut x[1..])?;
    Ok((x, rest))
}

#[tactic(auto, unfolding(crate::specs::ProcessImages::context_format, image_format::specs::Reading::read, image_format::specs::Reading::read_next))]
fn context_at(text: &[u8]) -> Result<(Context, &[u8]), Fault>
    ensures { Gives (λ x. (x.0, x.1.now)) result (read context_format text.now) }
{
    let (x, rest) = registers_at(text)?;
    let (pc, rest) = word_at(rest)?;
    let (mask, rest) = word_at(rest)?;
    let regs = Regs { x, pc };
    Ok((Context { regs, mask }, rest))
}

#[tactic(auto, unfolding(image_format::specs::Format::counted, image_format::specs::Reading::read, image_format::specs::Reading::read_next, image_format::specs::Reading::read_if), using(image_format::proofs::Loop::goes_on, image_format::proofs::Loop::one_item, image_format::proofs::Loop::is_done))]
fn contexts_at(alloc: Global, text: &[u8]) -> Result<(ListOf<Context>, &[u8]), Fault>
    ensures { Gives (λ x. (x.0, x.1.now)) result
        (read (counted is_context_count (λ _. context_format)) text.now) }
{
    let (count, mut rest) = u32_at(text)?;
    let is_allowed = count <= CONTEXT_LIMIT;
    if !is_allowed {
        return Err(Fault::Left(text.len()));
    }
    let mut contexts = ListOf::new(alloc);
    for _item in 0..count {
        let (context, more) = context_at(rest)?;
        contexts.push(context)?;
        rest = more;
    }
    Ok((contexts, rest))
}

/// The number of the thread at this place.
fn tid_of(threads: &[ThreadEntry], place: usize) -> Option<u32>
    ensures { result ≡ slice_get (tids_of threads.now) place }
{
    Some(threads.get(place)?.tid)
}

/// The number that has to stand there.
#[tactic(auto, unfolding(image_format::specs::Reading::read, image_format::specs::Reading::read_if))]
pub(crate) fn number_at(expected: Option<u32>, text: &[u8]) -> Result<(u32, &[u8]), Fault>
    ensures { Gives (λ x. (x.0, x.1.now)) result (read (unsigned n32 (is_number expected)) text.now) }
{
    let (number, rest) = u32_at(text)?;
    match expected {
        Some(expected) if expected == number => Ok((number, rest)),
        _ => Err(Fault::Left(text.len())),
    }
}

#[tactic(auto, unfolding(crate::specs::ProcessImages::thread_format, image_format::specs::Reading::read, image_format::specs::Reading::read_next, image_format::specs::Reading::read_if))]
fn thread_at<'a>(
    alloc: Global,
    threads: &[ThreadEntry],
    front: &[ThreadImage],
    text: &'a [u8],
) -> Result<(ThreadImage, &'a [u8]), Fault>
    ensures { Gives (λ x. (x.0, x.1.now)) result
        (read (thread_format (tids_of threads.now) front.now) text.now) }
{
    let (tid, rest) = number_at(tid_of(threads, front.len()), text)?;
    let (x, rest) = registers_at(rest)?;
    let (pc, rest) = word_at(rest)?;
    let (mask, rest) = word_at(rest)?;
    let (clear_tid, rest) = word_at(rest)?;
    let (contexts, rest) = contexts_at(alloc, rest)?;
    let regs = Regs { x, pc };
    let part = ThreadPart {
        regs,
        mask,
        clear_tid,
        contexts,
    };
    Ok((ThreadImage { tid, part }, rest))
}

#[tactic(auto, unfolding(image_format::specs::Format::counted, image_format::specs::Reading::read, image_format::specs::Reading::read_next, image_format::specs::Reading::read_if), using(image_format::proofs::Loop::goes_on, image_format::proofs::Loop::one_item, image_format::proofs::Loop::is_done))]
pub(crate) fn threads_at<'a>(
    alloc: Global,
    threads: &[ThreadEntry],
    text: &'a [u8],
) -> Result<(ListOf<ThreadImage>, &'a [u8]), Fault>
    ensures { Gives (λ x. (x.0, x.1.now)) result
        (read (counted (is_count_of_threads (tids_of threads.now)) (thread_format (tids_of threads.now)))
        text.now) }
{
    let (count, mut rest) = u32_at(text)?;
    if !is_count_of_threads(threads, count) {
        return Err(Fault::Left(text.len()));
    }
    let mut images = ListOf::new(alloc);
    for _item in 0..count {
        let (image, more) = thread_at(alloc, threads, images.as_slice(), rest)?;
        images.push(image)?;
        rest = more;
    }
    Ok((images, rest))
}

#[tactic(auto, using(image_format::proofs::Writing::puts_none, image_format::proofs::Writing::puts_more, image_format::proofs::Writing::puts_all))]
fn put_words(bytes: &mut Vec<u8>, words: &[u32]) -> Result<(), AllocError>
    ensures { OnOk result (bytes.new.items ≡ bytes.old.items ++ flat_map (number_text n32) words.now) }
{
    for word in words {
        put_u32(bytes, *word)?;
    }
    Ok(())
}

#[tactic(auto, unfolding(crate::specs::ProcessTexts::registers_text), using(image_format::proofs::Writing::all_below))]
fn put_registers(bytes: &mut Vec<u8>, x: &[u32; 32]) -> Result<(), AllocError>
    ensures value { OnOk result (bytes.new.items ≡ bytes.old.items ++ registers_text x.now) }
    ensures words { All IsWord x.now }
{
    put_words(bytes, &x[1..])
}

#[tactic(auto, unfolding(crate::specs::ProcessTexts::context_text))]
fn put_context(bytes: &mut Vec<u8>, context: &Context) -> Result<(), AllocError>
    ensures value { OnOk result (bytes.new.items ≡ bytes.old.items ++ context_text context.now) }
    ensures words { OnOk result (ContextWords context.now) }
{
    put_registers(bytes, &context.regs.x)?;
    put_u32(bytes, context.regs.pc)?;
    put_u32(bytes, context.mask)
}

#[tactic(auto, using(image_format::proofs::Writing::puts_none, image_format::proofs::Writing::puts_more, image_format::proofs::Writing::puts_all))]
fn put_each_context(bytes: &mut Vec<u8>, contexts: &[Context]) -> Result<(), AllocError>
    ensures value { OnOk result
        (bytes.new.items ≡ bytes.old.items ++ flat_map context_text contexts.now) }
    ensures words { OnOk result (All ContextWords contexts.now) }
{
    for context in contexts {
        put_context(bytes, context)?;
    }
    Ok(())
}

#[tactic(auto, unfolding(crate::specs::ProcessTexts::list_text))]
fn put_contexts(bytes: &mut Vec<u8>, contexts: &[Context]) -> Result<(), AllocError>
    requires { length contexts.now < 2 ^ 32 }
    ensures value { OnOk result (bytes.new.items ≡ bytes.old.items ++ list_text context_text contexts.now) }
    ensures words { OnOk result (All ContextWords contexts.now) }
{
    put_u32(bytes, contexts.len() as u32)?;
    put_each_context(bytes, contexts)
}

#[tactic(auto, unfolding(crate::specs::ProcessTexts::thread_text))]
fn put_thread(bytes: &mut Vec<u8>, thread: &ThreadImage) -> Result<(), AllocError>
    requires { length thread.now.part.contexts < 2 ^ 32 }
    ensures value { OnOk result (bytes.new.items ≡ bytes.old.items ++ thread_text thread.now) }
    ensures words { OnOk result (ThreadWords thread.now) }
{
    put_u32(bytes, thread.tid)?;
    put_registers(bytes, &thread.part.regs.x)?;
    put_u32(bytes, thread.part.regs.pc)?;
    put_u32(bytes, thread.part.mask)?;
    put_u32(bytes, thread.part.clear_tid)?;
    put_contexts(bytes, thread.part.contexts.as_slice())
}

#[tactic(auto, using(image_format::proofs::Writing::puts_none, image_format::proofs::Writing::puts_more, image_format::proofs::Writing::puts_all))]
fn put_each_thread(bytes: &mut Vec<u8>, threads: &[ThreadImage]) -> Result<(), AllocError>
    requires { All (λ thread. length thread.part.contexts < 2 ^ 32) threads.now }
    ensures value { OnOk result (bytes.new.items ≡ bytes.old.items ++ flat_map thread_text threads.now) }
    ensures words { OnOk result (All ThreadWords threads.now) }
{
    for thread in threads {
        put_thread(bytes, thread)?;
    }
    Ok(())
}

#[tactic(auto, unfolding(crate::specs::ProcessTexts::list_text))]
pub(crate) fn put_threads(bytes: &mut Vec<u8>, threads: &[ThreadImage]) -> Result<(), AllocError>
    requires count { length threads.now < 2 ^ 32 }
    requires contexts { All (λ thread. length thread.part.contexts < 2 ^ 32) threads.now }
    ensures value { OnOk result (bytes.new.items ≡ bytes.old.items ++ list_text thread_text threads.now) }
    ensures words { OnOk result (All ThreadWords threads.now) }
{
    put_u32(bytes, threads.len() as u32)?;
    put_each_thread(bytes, threads)
}
