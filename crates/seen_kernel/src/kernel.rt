//! A kernel part with all its tables.
ghost use Rattle.std.specs.Prelude.{◌≡◌, ℕ, Option, IfOk};
ghost use Rattle.plain_machine.specs.declared.kernel.PlainKernel as plain;
ghost use Rattle.host_tables.specs.Descriptions.{Stage};
ghost use Rattle.seen_kernel.specs.Seen as words;

use crate::channels::seen_channels;
use crate::directions::seen_directions;
use crate::files::{seen_files, seen_names};
use crate::listeners::seen_listeners;
use crate::makers::seen_makers;
use crate::{seen_descriptions, seen_descriptors, seen_processes};
use host_tables::System;
use id_maps::{ByAddress, ByConn, ByDesc, ByDir, ByName, ByPid, BySlot};
use plain_machine::PlainKernel;
use plain_tables::{Channel, Description, Direction, Listening, Process};
use std::alloc::{AllocError, Global};
use sys_abi::{Descriptor, Maker, RealPid};
use views::list_of::ListOf;
use views::number_map::NumberMap;
use wire_net::DirBytes;

/// Processes with their makers, and what they hold.
type Holders = (
    ByPid<Process>,
    ByPid<Maker>,
    BySlot<Descriptor>,
    ByDesc<Description>,
);

/// The numbers of files by their names, and their bytes by their numbers.
type Stored = (ByName<u32>, NumberMap<ListOf<u8>>);

/// Channels, their directions and the listeners.
type Connected = (ByConn<Channel>, ByDir<Direction>, ByAddress<Listening>);

/// The kernel part for which the system stands, with all bytes arrived: by the owners that are kept of
/// descriptions, and the lists of the bytes of directions. Its next number is given.
pub fn kernel_of(
    alloc: Global,
    system: &System,
    owners: &ByDesc<Option<RealPid>>,
    lists: &[DirBytes],
    next_id: u32,
) -> Result<PlainKernel, AllocError>
    ensures { IfOk result (λ seen. (held : Option Stage) (k : plain.PlainKernel)
        → words.IsToldBy system.now held owners.now lists.now k → k.next_id ≡ next_id
        → seen ≡ words.all_in k) }
{
    let (processes, makers, descriptors, descriptions) = seen_holders(alloc, system, owners)?;
    let (names, files) = seen_stored(alloc, system)?;
    let (channels, directions, listeners) = seen_connected(alloc, system, lists, &descriptions)?;
    Ok(PlainKernel {
        processes,
        makers,
        descriptors,
        descriptions,
        names,
        files,
        next_file: system.kernel.files.next_file(),
        channels,
        directions,
        listeners,
        inboxes: ByDesc::new(alloc),
        next_id,
    })
}

/// Processes, their makers, their descriptors, and the descriptions with the owners that are kept.
fn seen_holders(
    alloc: Global,
    system: &System,
    owners: &ByDesc<Option<RealPid>>,
) -> Result<Holders, AllocError>
    ensures { IfOk result (λ seen. (held : Option Stage) (lists : words.Lists) (k : plain.PlainKernel)
        → words.IsToldBy system.now held owners.now lists k → seen ≡ words.holders_of k) }
{
    let processes = seen_processes(alloc, &system.kernel.procs, &system.ids)?;
    let makers = seen_makers(alloc, &system.conns, &processes)?;
    let descriptors = seen_descriptors(
        alloc,
        &system.kernel.book,
        &system.kernel.procs,
        &system.ids,
    )?;
    let descriptions = seen_descriptions(
        alloc,
        &system.kernel.book,
        &system.ids,
        &system.conns,
        owners,
    )?;
    Ok((processes, makers, descriptors, descriptions))
}

/// The names and the files.
fn seen_stored(alloc: Global, system: &System) -> Result<Stored, AllocError>
    ensures { IfOk result (λ seen. (held : Option Stage) (k : plain.PlainKernel)
        → words.StandsFor system.now held k → seen ≡ words.stored_of k) }
{
    let names = seen_names(alloc, &system.kernel.files)?;
    let files = seen_files(alloc, &system.kernel.files)?;
    Ok((names, files))
}

/// The channels, the directions with the bytes of their lists, and the listeners at the addresses of these
/// descriptions.
fn seen_connected(
    alloc: Global,
    system: &System,
    lists: &[DirBytes],
    descriptions: &ByDesc<Description>,
) -> Result<Connected, AllocError>
    ensures { IfOk result (λ seen. (held : Option Stage) (owners : words.Owners) (k : plain.PlainKernel)
        → words.IsToldBy system.now held owners lists.now k → descriptions.now ≡ k.descriptions
        → seen ≡ words.connected_of k) }
{
    let channels = seen_channels(alloc, &system.conns)?;
    let directions = seen_directions(alloc, &system.kernel.net, lists)?;
    let listeners = seen_listeners(alloc, &system.kernel.net, &system.ids, descriptions)?;
    Ok((channels, directions, listeners))
}
