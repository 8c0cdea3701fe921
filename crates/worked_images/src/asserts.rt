ghost use Rattle.std.specs.Prelude.{◌≡◌, true};

use std::process::Abort;

/// Asserts it, so that what follows may stand on it.
pub fn holds(rt: &impl Abort, is_so: bool)
    ensures { is_so ≡ true }
{
    assert!(rt; is_so);
}
