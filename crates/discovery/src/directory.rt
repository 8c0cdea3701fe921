ghost use Rattle.std.specs.Prelude.{◌≡◌, OnOk, OnErr};
ghost use Rattle.std.specs.FinMap as map;
ghost use Rattle.discovery.specs.Directories.{place_of, is_asked, with_place, with_look_up};

use crate::publication::Publication;
use id_maps::ByConn;
use std::alloc::{AllocError, Global};
use std::marker::Model;
use sys_abi::{ConnId, RealAddr};

/// The addresses at which channels can be reached, by the channels' names.
#[derive(Drop)]
pub struct Directory {
    publications: ByConn<Publication>,
}

impl Model for Directory {
    ghost use Rattle.discovery.specs.Directories.{Publications, coded_publications};

    ghost Value = { Publications };

    ghost coded = { coded_publications };

    ghost view = { λ directory. directory.publications };
}

impl Directory {
    /// Nothing is published, and no memory is held yet.
    pub fn new(alloc: Global) -> Directory
        ensures { result ≡ map.empty }
    {
        Directory {
            publications: ByConn::new(alloc),
        }
    }

    /// Publishes where the channel can be reached, in place of what was published under its name before. It
    /// counts as not looked up yet. After a failed allocation all is as before.
    pub fn publish(&mut self, id: ConnId, at: RealAddr) -> Result<(), AllocError>
        ensures ok { OnOk result (self.new ≡ with_place self.old id at) }
        ensures err { OnErr result (self.new ≡ self.old) }
    {
        let publication = Publication { at, asked: false };
        self.publications.insert(id, publication)?;
        Ok(())
    }

    /// Looks up where the channel can be reached: the address that was published last, and none exactly where
    /// nothing was published under its name. Takes no memory.
    pub fn find(&mut self, id: ConnId) -> Option<RealAddr>
        ensures found { result ≡ place_of self.old id }
        ensures asked { self.new ≡ with_look_up self.old id }
    {
        look_up(&mut self.publications, id)
    }

    /// Whether the channel was looked up since it was published last. A channel that wasn't published was
    /// not. Takes no memory.
    pub fn asked(&self, id: ConnId) -> bool
        ensures { result ≡ is_asked self.now id }
    {
        match self.publications.get(id) {
            Some(publication) => publication.asked,
            None => false,
        }
    }
}

/// The address of the channel, which then counts as looked up.
fn look_up(publications: &mut ByConn<Publication>, id: ConnId) -> Option<RealAddr>
    ensures found { result ≡ place_of publications.old id }
    ensures asked { publications.new ≡ with_look_up publications.old id }
{
    let Some(publication) = publications.get_mut(id) else {
        return None;
    };
    let at = publication.at;
    *publication = Publication { at, asked: true };
    Some(at)
}
