// A run of sets, each put after the other.
ghost use Rattle.std.specs.Prelude.{◌≡◌, All, IfOk, length};
ghost use Rattle.store_runs.specs.StoreRuns.{IsSmall};

use crate::asserts::holds;
use crate::crashes::counts_with;
use image_store::{SetBytes, Store, StoreFault};
use set_disk::MemFolder;
use std::alloc::{AllocError, Global};
use std::process::Abort;
use std::test::Fail;
use store_runs::put_all;
use views::list_of::ListOf;

const FIRST: &str = "first";

const SECOND: &str = "second";

/// A set of one image.
fn set_of(alloc: Global, text: &str) -> Result<SetBytes, AllocError>
    ensures small { IfOk result (λ set. IsSmall set) }
{
    let mut files = Vec::new(alloc);
    files.push(ListOf::from_vec(text.as_bytes().to_vec(alloc)?))?;
    Ok(SetBytes::of_files(ListOf::from_vec(files)))
}

fn both(alloc: Global) -> Result<[SetBytes; 2], AllocError>
    ensures small { IfOk result (λ sets. All IsSmall sets) }
{
    let first = set_of(alloc, FIRST)?;
    let second = set_of(alloc, SECOND)?;
    Ok([first, second])
}

/// Opens an empty folder, and puts sets one after another.
#[tactic(auto, unfolding(image_store::specs::StoreStates::generation_after))]
fn put_each(
    rt: &(impl Abort + AllocGlobal),
    folder: &mut MemFolder,
    sets: &[SetBytes; 2],
) -> Result<Store, StoreFault>
    requires { All IsSmall sets.now }
{
    let alloc = rt.alloc();
    let store = Store::open_store(alloc, folder, 0)?;
    holds(rt, store.last().is_none());
    put_all(store, alloc, folder, sets)
}

/// Puts both sets into an empty folder. Tells the slot and the generation of the last one.
fn last_put(
    rt: &(impl Abort + AllocGlobal),
    folder: &mut MemFolder,
) -> Result<Option<(u32, u64)>, StoreFault> {
    let sets = both(rt.alloc())?;
    let store = put_each(rt, folder, &sets)?;
    match store.last() {
        Some(info) => Ok(Some((info.slot, info.generation))),
        None => Ok(None),
    }
}

#[test]
fn a_run_of_two_sets_leaves_the_second_one(rt: HostRuntime) -> Result<(), Fail> {
    let mut folder = MemFolder::new(rt.alloc(), &[])?;
    holds(&rt, last_put(&rt, &mut folder) == Ok(Some((1, 2))));
    holds(
        &rt,
        counts_with(rt.alloc(), &mut folder, &[SECOND]) == Ok(true),
    );
    Ok(())
}
