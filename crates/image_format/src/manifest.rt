ghost use Rattle.std.specs.Prelude.{◌≡◌, ℕ, ◌++◌, ◌^◌, ◌<◌, All, IfOk, OnOk};
ghost use Rattle.std.specs.List.{flat_map};
ghost use Rattle.image_format.specs.Files.{IsRead, IsDamagedAt};
ghost use Rattle.image_format.specs.Format.{number_text, counted, n64};
ghost use Rattle.image_format.specs.Manifests.{manifest_format, length_format, is_image_count};
ghost use Rattle.image_format.specs.Manifests.{SpellsManifest, DamagedManifest};
ghost use Rattle.image_format.specs.ManifestTexts.{IsManifest, IsManifestText};
ghost use Rattle.image_format.specs.Reading.{Gives, read};

use crate::damage::{ReadFault, damaged};
use crate::fields::{
    Fault, after_magic, put_bytes, put_u8, put_u32, put_u64, u8_at, u32_at, u64_at,
};
use std::alloc::{AllocError, Global};
use views::list_of::ListOf;

/// What a manifest tells of its set: the generation, and for each further file of the slot its length in
/// bytes.
#[derive(Drop)]
pub struct Manifest {
    pub generation: u64,
    /// Of 1 to 129 files, the shared image first.
    pub lengths: ListOf<u64>,
}

const COMPLETE: u8 = 1;

fn is_image_count(count: u32) -> bool
    ensures { result ≡ is_image_count count }
{
    1 <= count && count <= 129
}

#[tactic(auto, unfolding(crate::specs::Manifests::length_format))]
fn length_at(text: &[u8]) -> Result<(u64, &[u8]), Fault>
    ensures { Gives (λ x. (x.0, x.1.now)) result (read length_format text.now) }
{
    u64_at(text)
}

#[tactic(auto, unfolding(crate::specs::Format::counted, crate::specs::Reading::read, crate::specs::Reading::read_next, crate::specs::Reading::read_if), using(crate::proofs::Loop::goes_on, crate::proofs::Loop::one_item, crate::proofs::Loop::is_done))]
fn lengths_at(alloc: Global, text: &[u8]) -> Result<(ListOf<u64>, &[u8]), Fault>
    ensures { Gives (λ x. (x.0, x.1.now)) result
        (read (counted is_image_count (λ _. length_format)) text.now) }
{
    let (count, items) = u32_at(text)?;
    if !is_image_count(count) {
        return Err(Fault::Left(text.len()));
    }
    let mut lengths = ListOf::new(alloc);
    let mut rest = items;
    for _item in 0..count {
        let (length, more) = length_at(rest)?;
        lengths.push(length)?;
        rest = more;
    }
    Ok((lengths, rest))
}

#[tactic(auto, unfolding(crate::specs::Manifests::manifest_format, crate::specs::Reading::read, crate::specs::Reading::read_next, crate::specs::Reading::read_if))]
fn manifest_at(alloc: Global, text: &[u8]) -> Result<(Manifest, &[u8]), Fault>
    ensures { Gives (λ x. (x.0, x.1.now)) result (read manifest_format text.now) }
{
    let (gate, rest) = u8_at(text)?;
    if gate != COMPLETE {
        return Err(Fault::Left(text.len()));
    }
    let rest = after_magic(rest, b"DMTSET1")?;
    let (generation, rest) = u64_at(rest)?;
    let (lengths, rest) = lengths_at(alloc, rest)?;
    Ok((
        Manifest {
            generation,
            lengths,
        },
        rest,
    ))
}

#[tactic(auto, using(crate::proofs::Writing::puts_none, crate::proofs::Writing::puts_more, crate::proofs::Writing::puts_all))]
fn put_lengths(bytes: &mut Vec<u8>, lengths: &[u64]) -> Result<(), AllocError>
    ensures value { OnOk result
        (bytes.new.items ≡ bytes.old.items ++ flat_map (number_text n64) lengths.now) }
    ensures range { All (λ size. size < 2 ^ 64) lengths.now }
{
    for length in lengths {
        put_u64(bytes, *length)?;
    }
    Ok(())
}

#[tactic(auto, unfolding(crate::specs::ManifestTexts::manifest_text))]
fn manifest_text(alloc: Global, m: &Manifest) -> Result<Vec<u8>, AllocError>
    requires { IsManifest m.now }
    ensures { IfOk result (λ bytes. IsManifestText bytes.items m.now) }
{
    let generation = m.generation;
    let mut bytes = Vec::new(alloc);
    put_u8(&mut bytes, COMPLETE)?;
    put_bytes(&mut bytes, b"DMTSET1")?;
    put_u64(&mut bytes, generation)?;
    put_u32(&mut bytes, m.lengths.len() as u32)?;
    put_lengths(&mut bytes, m.lengths.as_slice())?;
    Ok(bytes)
}

/// The bytes of the manifest's file.
pub fn write_manifest(alloc: Global, m: &Manifest) -> Result<Vec<u8>, AllocError>
    requires { IsManifest m.now }
    ensures { IfOk result (λ bytes. SpellsManifest bytes.items m.now) }
{
    manifest_text(alloc, m)
}

/// The manifest that the file spells. The damage is of file 0.
pub fn read_manifest(alloc: Global, bytes: &[u8]) -> Result<Manifest, ReadFault>
    ensures found { IfOk result (λ m. SpellsManifest bytes.now m) }
    ensures only { (m : Manifest) → SpellsManifest bytes.now m → IsRead result m }
    ensures exact { IsDamagedAt 0 (DamagedManifest bytes.now) result }
{
    match manifest_at(alloc, bytes) {
        Ok((m, rest)) => {
            if rest.is_empty() {
                Ok(m)
            } else {
                Err(damaged(0, bytes, rest.len()))
            }
        }
        Err(Fault::Left(left)) => Err(damaged(0, bytes, left)),
        Err(Fault::Memory) => Err(ReadFault::Memory),
    }
}
