//! The processes of a shared image, as bytes of its file.

ghost use Rattle.std.specs.Prelude.{◌≡◌, ◌^◌, ◌<◌, ◌++◌, length, All, OnOk};
ghost use Rattle.shared_items.specs.SharedFits.{state_of, status_of};
ghost use Rattle.shared_items.specs.SharedTexts.{HasCounts, list_text, thread_text, descriptor_text, life_text, process_text};

use image_format::fields::{put_u8, put_u32};
use shared_items::{DescriptorEntry, ProcessEntry, ThreadEntry};
use std::alloc::AllocError;
use sys_abi::Life;

#[tactic(auto, unfolding(shared_items::specs::SharedTexts::thread_text))]
fn put_thread(bytes: &mut Vec<u8>, thread: &ThreadEntry) -> Result<(), AllocError>
    ensures { OnOk result (bytes.new.items ≡ bytes.old.items ++ thread_text thread.now) }
{
    put_u32(bytes, thread.tid)?;
    put_u32(bytes, thread.pending)
}

#[tactic(auto, using(image_format::proofs::Writing::puts_none, image_format::proofs::Writing::puts_more, image_format::proofs::Writing::puts_all))]
fn put_threads(bytes: &mut Vec<u8>, items: &[ThreadEntry]) -> Result<(), AllocError>
    requires { length items.now < 2 ^ 32 }
    ensures { OnOk result (bytes.new.items ≡ bytes.old.items ++ list_text thread_text items.now) }
{
    put_u32(bytes, items.len() as u32)?;
    for item in items {
        put_thread(bytes, item)?;
    }
    Ok(())
}

#[tactic(auto, unfolding(shared_items::specs::SharedTexts::descriptor_text))]
fn put_descriptor(bytes: &mut Vec<u8>, descriptor: &DescriptorEntry) -> Result<(), AllocError>
    ensures { OnOk result (bytes.new.items ≡ bytes.old.items ++ descriptor_text descriptor.now) }
{
    put_u32(bytes, descriptor.number)?;
    put_u32(bytes, descriptor.desc.pid.0)?;
    put_u32(bytes, descriptor.desc.num)?;
    put_u8(bytes, if descriptor.cloexec { 1 } else { 0 })
}

#[tactic(auto, using(image_format::proofs::Writing::puts_none, image_format::proofs::Writing::puts_more, image_format::proofs::Writing::puts_all))]
fn put_descriptors(bytes: &mut Vec<u8>, items: &[DescriptorEntry]) -> Result<(), AllocError>
    requires { length items.now < 2 ^ 32 }
    ensures { OnOk result (bytes.new.items ≡ bytes.old.items ++ list_text descriptor_text items.now) }
{
    put_u32(bytes, items.len() as u32)?;
    for item in items {
        put_descriptor(bytes, item)?;
    }
    Ok(())
}

#[tactic(auto, unfolding(shared_items::specs::SharedTexts::life_text))]
fn put_life(bytes: &mut Vec<u8>, life: Life) -> Result<(), AllocError>
    ensures { OnOk result (bytes.new.items ≡ bytes.old.items ++ life_text life) }
{
    let (state, status) = match life {
        Life::Live => (0, 0),
        Life::Zombie(status) => (1, status),
    };
    put_u8(bytes, state)?;
    put_u32(bytes, status)
}

#[tactic(auto, unfolding(shared_items::specs::SharedTexts::process_text))]
fn put_process(bytes: &mut Vec<u8>, process: &ProcessEntry) -> Result<(), AllocError>
    requires { HasCounts process.now }
    ensures { OnOk result (bytes.new.items ≡ bytes.old.items ++ process_text process.now) }
{
    put_u32(bytes, process.pid.0)?;
    put_u32(bytes, process.parent)?;
    put_u32(bytes, process.host)?;
    put_u32(bytes, process.made)?;
    put_life(bytes, process.life)?;
    put_u32(bytes, process.pending)?;
    put_threads(bytes, process.threads.as_slice())?;
    put_descriptors(bytes, process.descriptors.as_slice())
}

#[tactic(auto, using(image_format::proofs::Writing::puts_none, image_format::proofs::Writing::puts_more, image_format::proofs::Writing::puts_all))]
pub fn put_processes(bytes: &mut Vec<u8>, items: &[ProcessEntry]) -> Result<(), AllocError>
    requires size { length items.now < 2 ^ 32 }
    requires counts { All HasCounts items.now }
    ensures { OnOk result (bytes.new.items ≡ bytes.old.items ++ list_text process_text items.now) }
{
    put_u32(bytes, items.len() as u32)?;
    for item in items {
        put_process(bytes, item)?;
    }
    Ok(())
}
