ghost use Rattle.std.specs.Prelude.{◌≡◌, ◌+◌, ◌^◌, ◌<◌, List, length, IfOk};
ghost use Rattle.image_process.specs.declared.process_image.ProcImage.{ProcImage};
ghost use Rattle.image_format.specs.Files.{IsRead};
ghost use Rattle.image_codec.specs.Sets.{live_count, SpellsFiles, DamagedFiles, SpellsImages, DamagedImages};
ghost use Rattle.rebuild.specs.Places.{IsDamageOf};
ghost use Rattle.sys_abi.specs.Lives.{lives};

use image_codec::{Damage, ProcImage, ProcessEntry, ReadFault, SetBytes, Shared, read_process};
use shared_reader::read_shared;
use std::alloc::Global;
use views::list_of::ListOf;

/// The values that the files of a set spell: the shared image, and the image of each live process in
/// rising order of their numbers.
#[derive(Drop)]
pub struct Decoded {
    pub shared: Shared,
    pub procs: ListOf<ProcImage>,
}

/// The values that the files spell. A damage is of the first file that is not as it is to be: file 1 is
/// the shared image. A number of files that is not that of its live processes is a damage at its end.
pub fn decode_set(alloc: Global, set: &SetBytes) -> Result<Decoded, ReadFault>
    ensures found { IfOk result (λ d. SpellsFiles set.now.files d.shared d.procs) }
    ensures only { (d : Decoded) → SpellsFiles set.now.files d.shared d.procs → IsRead result d }
    ensures exact { IsDamageOf (DamagedFiles set.now.files) result }
{
    let Some((first, images)) = set.files.as_slice().split_first() else {
        return Err(ReadFault::Damaged(Damage { file: 1, offset: 0 }));
    };
    let shared = match read_shared(alloc, first.as_slice()) {
        Ok(shared) => shared,
        Err(fault) => return Err(fault),
    };
    if images.len() != live_count(&shared) {
        let offset = first.len() as u64;
        return Err(ReadFault::Damaged(Damage { file: 1, offset }));
    }
    match images_at(alloc, &shared, images) {
        Ok(procs) => Ok(Decoded { shared, procs }),
        Err(fault) => Err(fault),
    }
}

fn lives(process: &ProcessEntry) -> bool
    ensures { result ≡ lives process.now.life }
{
    process.life.is_live()
}

#[tactic(auto, unfolding(image_codec::specs::Sets::live_count))]
fn live_count(shared: &Shared) -> usize
    ensures { result ≡ live_count shared.now }
{
    shared
        .processes
        .iter()
        .filter(|process| lives(process))
        .count()
}

/// The image of each process, from file 2 on.
fn images_at(
    alloc: Global,
    shared: &Shared,
    files: &[ListOf<u8>],
) -> Result<ListOf<ProcImage>, ReadFault>
    requires { 2 + length files.now < 2 ^ 32 }
    ensures found { IfOk result (λ images. SpellsImages shared.now 2 files.now images) }
    ensures only { (images : List ProcImage) → SpellsImages shared.now 2 files.now images → IsRead result images }
    ensures exact { IsDamageOf (DamagedImages shared.now 2 files.now) result }
{
    let mut images = ListOf::new(alloc);
    let mut file = 2;
    for bytes in files {
        match read_process(alloc, file, bytes.as_slice(), shared) {
            Ok(image) => images.push(image)?,
            Err(fault) => return Err(fault),
        }
        file += 1;
    }
    Ok(images)
}
