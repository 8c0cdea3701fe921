ghost use Rattle.std.specs.Prelude.{◌≡◌, true};

use std::process::Abort;
use views::duplicate::Duplicate;

/// The bytes are those that they are to be.
pub fn same_bytes(rt: &impl Abort, given: &[u8], want: &[u8]) {
    assert!(rt; given == want);
}

/// A copy of the value is equal to it.
pub fn is_copied<T: Duplicate + PartialEq>(rt: &(impl Abort + AllocGlobal), value: T) {
    let copy = value.duplicate(rt.alloc()).expect(rt, "memory");
    assert!(rt; copy == value);
}

/// Asserts it, so that what follows may stand on it.
pub fn holds(rt: &impl Abort, is_so: bool)
    ensures { is_so ≡ true }
{
    assert!(rt; is_so);
}
