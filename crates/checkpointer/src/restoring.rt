ghost use Rattle.std.specs.Prelude.{◌≡◌, ℕ, List, All, IfOk, map as each};
ghost use Rattle.std.specs.FinMap as map;
ghost use Rattle.plain_process.specs.Valid.{IsByte};
ghost use Rattle.image_codec.specs.Sets.{SpellsFiles, IsStateOf};
ghost use Rattle.staged_cut.specs.HandedOn.{state_of, CanBegin};
ghost use Rattle.checkpointer.specs.Images.{IsWithin, guest_entry};

use id_maps::ByPid;
use image_codec::{ProcImage, restored_kernel};
use rebuild::Decoded;
use staged_cut::{Guest, Start};
use std::alloc::{AllocError, Global};
use views::list_of::ListOf;

/// From where a computation begins whose state the values of a set stand for. It takes the pages as they are.
pub fn restored(alloc: Global, decoded: Decoded) -> Result<Start, AllocError>
    requires spelled { (files : List (List ℕ))
        × (All (λ file. All IsByte file) files × SpellsFiles files decoded.shared decoded.procs) }
    ensures ready { IfOk result (λ start. CanBegin start) }
    ensures state { IfOk result (λ start. IsStateOf decoded.shared decoded.procs (state_of start)) }
{
    let Decoded { shared, procs } = decoded;
    Ok(Start {
        kernel: restored_kernel(alloc, &shared)?,
        guests: guests_of(alloc, procs)?,
    })
}

/// The processes of the images.
fn guests_of(alloc: Global, images: ListOf<ProcImage>) -> Result<ByPid<Guest>, AllocError>
    requires { All IsWithin images }
    ensures { IfOk result (λ guests. guests ≡ map.from_entries (each guest_entry images)) }
{
    let mut guests = ByPid::new(alloc);
    let mut images = images.into_vec();
    while let Some(image) = images.pop() {
        guests.insert(image.pid, Guest::of_image(alloc, image)?)?;
    }
    Ok(guests)
}
