// Who waits on a process's words, in its image.
ghost use Rattle.std.specs.Prelude.{◌≡◌, ◌==◌, ◌<◌, ◌^◌, ◌++◌, length, map as each_of, All, OnOk};
ghost use Rattle.std.specs.List.{flat_map, list_any};
ghost use Rattle.image_format.specs.Format.{any, counted};
ghost use Rattle.image_process.specs.ProcessImages.{tids_of, waiter_format};
ghost use Rattle.image_process.specs.ProcessFits.{WaiterWords};
ghost use Rattle.image_process.specs.ProcessTexts.{waiter_text, list_text};
ghost use Rattle.image_process.specs.ProcessTests.{is_waiting};
ghost use Rattle.image_format.specs.Reading.{Gives, read};

use crate::thread_image::word_at;
use image_format::fields::{Fault, put_u32, u32_at};
use plain_process::Waiter;
use shared_items::ThreadEntry;
use std::alloc::{AllocError, Global};
use views::list_of::ListOf;

fn has_thread(threads: &[ThreadEntry], tid: u32) -> bool
    ensures { result ≡ list_any (λ thread. thread.tid == tid) threads.now }
{
    threads.iter().any(|thread| thread.tid == tid)
}

fn has_waiter(waiters: &[Waiter], tid: u32) -> bool
    ensures { result ≡ list_any (λ waiter. waiter.tid == tid) waiters.now }
{
    waiters.iter().any(|waiter| waiter.tid == tid)
}

fn is_waiting(threads: &[ThreadEntry], before: &[Waiter], tid: u32) -> bool
    ensures { result ≡ is_waiting (tids_of threads.now) (each_of (λ waiter. waiter.tid) before.now) tid }
{
    has_thread(threads, tid) && !has_waiter(before, tid)
}

#[tactic(auto, unfolding(crate::specs::ProcessImages::waiter_format, image_format::specs::Reading::read, image_format::specs::Reading::read_next, image_format::specs::Reading::read_if))]
fn waiter_at<'a>(
    threads: &[ThreadEntry],
    front: &[Waiter],
    text: &'a [u8],
) -> Result<(Waiter, &'a [u8]), Fault>
    ensures { Gives (λ x. (x.0, x.1.now)) result
        (read (waiter_format (tids_of threads.now) front.now) text.now) }
{
    let (tid, rest) = u32_at(text)?;
    if !is_waiting(threads, front, tid) {
        return Err(Fault::Left(text.len()));
    }
    let (address, rest) = word_at(rest)?;
    Ok((Waiter { tid, address }, rest))
}

#[tactic(auto, unfolding(image_format::specs::Format::counted, image_format::specs::Reading::read, image_format::specs::Reading::read_next, image_format::specs::Reading::read_if), using(image_format::proofs::Loop::goes_on, image_format::proofs::Loop::one_item, image_format::proofs::Loop::is_done))]
pub fn waiters_at<'a>(
    alloc: Global,
    threads: &[ThreadEntry],
    text: &'a [u8],
) -> Result<(ListOf<Waiter>, &'a [u8]), Fault>
    ensures { Gives (λ x. (x.0, x.1.now)) result
        (read (counted any (waiter_format (tids_of threads.now))) text.now) }
{
    let (count, mut rest) = u32_at(text)?;
    let mut waiters = ListOf::new(alloc);
    for _item in 0..count {
        let (waiter, more) = waiter_at(threads, waiters.as_slice(), rest)?;
        waiters.push(waiter)?;
        rest = more;
    }
    Ok((waiters, rest))
}

#[tactic(auto, unfolding(crate::specs::ProcessTexts::waiter_text))]
fn put_waiter(bytes: &mut Vec<u8>, waiter: &Waiter) -> Result<(), AllocError>
    ensures value { OnOk result (bytes.new.items ≡ bytes.old.items ++ waiter_text waiter.now) }
    ensures words { OnOk result (WaiterWords waiter.now) }
{
    put_u32(bytes, waiter.tid)?;
    put_u32(bytes, waiter.address)
}

#[tactic(auto, using(image_format::proofs::Writing::puts_none, image_format::proofs::Writing::puts_more, image_format::proofs::Writing::puts_all))]
fn put_each_waiter(bytes: &mut Vec<u8>, waiters: &[Waiter]) -> Result<(), AllocError>
    ensures value { OnOk result (bytes.new.items ≡ bytes.old.items ++ flat_map waiter_text waiters.now) }
    ensures words { OnOk result (All WaiterWords waiters.now) }
{
    for waiter in waiters {
        put_waiter(bytes, waiter)?;
    }
    Ok(())
}

#[tactic(auto, unfolding(crate::specs::ProcessTexts::list_text))]
pub fn put_waiters(bytes: &mut Vec<u8>, waiters: &[Waiter]) -> Result<(), AllocError>
    requires { length waiters.now < 2 ^ 32 }
    ensures value { OnOk result (bytes.new.items ≡ bytes.old.items ++ list_text waiter_text waiters.now) }
    ensures words { OnOk result (All WaiterWords waiters.now) }
{
    put_u32(bytes, waiters.len() as u32)?;
    put_each_waiter(bytes, waiters)
}
