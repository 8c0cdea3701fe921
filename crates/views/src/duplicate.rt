ghost use Rattle.std.specs.Prelude.{◌≡◌, IfOk};

use crate::list_of::ListOf;
use std::alloc::{AllocError, Global};
use std::collections::BTreeMap;

/// A value that can be copied whole, into memory of its own.
pub trait Duplicate: Drop {
    fn duplicate(&self, alloc: Global) -> Result<Self, AllocError>
        ensures { IfOk result (λ copy. copy ≡ self.now) };
}

impl Duplicate for bool {
    fn duplicate(&self, alloc: Global) -> Result<Self, AllocError> {
        Ok(*self)
    }
}

impl Duplicate for u8 {
    fn duplicate(&self, alloc: Global) -> Result<Self, AllocError> {
        Ok(*self)
    }
}

impl Duplicate for u16 {
    fn duplicate(&self, alloc: Global) -> Result<Self, AllocError> {
        Ok(*self)
    }
}

impl Duplicate for u32 {
    fn duplicate(&self, alloc: Global) -> Result<Self, AllocError> {
        Ok(*self)
    }
}

impl Duplicate for u64 {
    fn duplicate(&self, alloc: Global) -> Result<Self, AllocError> {
        Ok(*self)
    }
}

impl Duplicate for i32 {
    fn duplicate(&self, alloc: Global) -> Result<Self, AllocError> {
        Ok(*self)
    }
}

impl<T: Duplicate> Duplicate for Option<T> {
    fn duplicate(&self, alloc: Global) -> Result<Self, AllocError> {
        match self {
            None => Ok(None),
            Some(value) => Ok(Some(value.duplicate(alloc)?)),
        }
    }
}

impl<T: Duplicate> Duplicate for ListOf<T> {
    fn duplicate(&self, alloc: Global) -> Result<Self, AllocError> {
        Ok(ListOf::from_vec(duplicate_items(self.as_slice(), alloc)?))
    }
}

/// A copy of each item, in order.
pub fn duplicate_items<T: Duplicate>(items: &[T], alloc: Global) -> Result<Vec<T>, AllocError>
    ensures { IfOk result (λ copy. copy.items ≡ items.now) }
{
    let mut copy = Vec::new(alloc);
    for item in items {
        copy.push(item.duplicate(alloc)?)?;
    }
    Ok(copy)
}

/// A copy of each entry, in the order of the keys.
pub fn duplicate_tree<K: Ord + Duplicate, V: Duplicate>(
    tree: &BTreeMap<K, V>,
    alloc: Global,
) -> Result<BTreeMap<K, V>, AllocError>
    ensures { IfOk result (λ copy. copy.entries ≡ tree.now.entries) }
{
    let mut copy = BTreeMap::new(alloc);
    for (key, value) in tree.iter().rev() {
        copy.insert(key.duplicate(alloc)?, value.duplicate(alloc)?)?;
    }
    Ok(copy)
}
