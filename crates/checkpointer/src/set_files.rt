ghost use Rattle.std.specs.Prelude.{◌≡◌, ℕ, ◌<◌, ◌≤◌, ◌++◌, List, length, IfOk, OnOk};
ghost use Rattle.std.specs.FinMap as map;
ghost use Rattle.plain_process.specs.Valid.{Each};
ghost use Rattle.plain_machine.specs.Tests.{full_arrive};
ghost use Rattle.trace_log.specs.Requests.{CanBeHeld};
ghost use Rattle.shared_items.specs.SharedFormat.{SpellsShared};
ghost use Rattle.shared_items.specs.SharedFits.{IsShared};
ghost use Rattle.image_codec.specs.KernelImages.{shared_of};
ghost use Rattle.staged_cut.specs.HandedOn.{state_of, CanBegin};
ghost use Rattle.checkpointer.specs.Images.{AreFilesOf, HasFile, IsFileOf};
ghost use Rattle.checkpointer.specs.Sets.{SpellsState};

use id_maps::ByPid;
use image_codec::{SetBytes, shared_image, write_process, write_shared};
use plain_machine::PlainKernel;
use staged_cut::{Guest, Start};
use std::alloc::{AllocError, Global};
use views::list_of::ListOf;

/// The files of a set that spells the state at which this start is: the shared image, and the image of each live
/// process in rising order of their numbers.
pub fn images(alloc: Global, start: &Start) -> Result<SetBytes, AllocError>
    requires ready { CanBegin start.now }
    requires held { CanBeHeld (state_of start.now) }
    requires arrived { full_arrive (state_of start.now) ≡ state_of start.now }
    ensures spelled { IfOk result (λ set. SpellsState set.files (state_of start.now)) }
    ensures some { IfOk result (λ set. 0 < length set.files) }
    ensures few { IfOk result (λ set. length set.files ≤ 129) }
{
    let first = shared_file(alloc, &start.kernel)?;
    let mut files = ListOf::new(alloc);
    files.push(first)?;
    push_files(alloc, &start.guests, &mut files)?;
    Ok(SetBytes::of_files(files))
}

/// The file of the shared image.
fn shared_file(alloc: Global, kernel: &PlainKernel) -> Result<ListOf<u8>, AllocError>
    requires { IsShared (shared_of kernel.now) }
    ensures { IfOk result (λ file. SpellsShared file (shared_of kernel.now)) }
{
    let shared = shared_image(alloc, kernel)?;
    let file = write_shared(alloc, &shared)?;
    Ok(ListOf::from_vec(file))
}

/// Puts the file of each process behind those that are there.
fn push_files(
    alloc: Global,
    guests: &ByPid<Guest>,
    files: &mut ListOf<ListOf<u8>>,
) -> Result<(), AllocError>
    requires { Each guests.now (λ p guest. HasFile guest) }
    ensures { OnOk result ((texts : List (List ℕ)) × ((files.new ≡ files.old ++ texts)
        × AreFilesOf (map.entries guests.now) texts)) }
{
    for (_, guest) in guests.iter() {
        files.push(process_file(alloc, guest)?)?;
    }
    Ok(())
}

/// The file of a process's image.
fn process_file(alloc: Global, guest: &Guest) -> Result<ListOf<u8>, AllocError>
    requires { HasFile guest.now }
    ensures { IfOk result (λ file. IsFileOf guest.now file) }
{
    let image = guest.image(alloc)?;
    let file = write_process(alloc, &image)?;
    Ok(ListOf::from_vec(file))
}
