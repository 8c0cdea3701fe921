use std::process::Abort;

/// Asserts it.
pub fn holds(rt: &impl Abort, is_so: bool) {
    assert!(rt; is_so);
}
