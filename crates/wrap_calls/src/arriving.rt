//! Bytes arrive.
ghost use Rattle.std.specs.Prelude.{◌≡◌, ◌<◌, min};
ghost use Rattle.std.specs.FinMap as map;
ghost use Rattle.wrap_passing.specs.OfWrapNames.Changes.{missing_in, after_arrival};

use crate::direction_arriving::arrive;
use crate::wrapped::Wrapped;
use sys_abi::Dir;
use wrap_passing::Change;

impl Wrapped {
    /// Has so many bytes of the direction arrive, at most those that are on the way, and tells how many.
    /// Takes no memory.
    pub fn arrive(&mut self, dir: Dir, n: u32) -> u32
        requires { dir.side < 2 }
        ensures count { result ≡ min n (missing_in (map.get self.old.directions dir)) }
        ensures arrived { self.new ≡ after_arrival self.old dir n }
    {
        let next = self.stood.then(&Change::Arrive(dir, n));
        let count = arrive(&mut self.system, dir, n);
        self.stood = next;
        count
    }
}
