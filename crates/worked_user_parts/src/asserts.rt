use std::process::Abort;

/// Asserts that each step of a table was answered as the table says: so many in turn of so many.
pub fn all(rt: &impl Abort, answered: usize, steps: usize) {
    assert_eq!(rt; answered, steps);
}
