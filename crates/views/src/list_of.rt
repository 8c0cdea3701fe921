ghost use Rattle.std.specs.Prelude.{◌≡◌, ◌<◌, ◌↔◌, [], ◌∷◌, ◌++◌, length, slice_get, slice_set, IsTrue, OnOk, OnErr};
ghost use Rattle.std.specs.Option.{option_copied};
ghost use Rattle.std.specs.Slice.Iter.{iter_rest};
ghost use Rattle.std.specs.Cmp.Lexicographic.{pointwise, lists_equiv, lists_per};

use std::alloc::{AllocError, Global};
use std::marker::Model;
use std::slice;

/// A list whose contracts speak of its elements alone, and not of its buffer.
#[derive(Drop)]
pub struct ListOf<T> {
    elements: Vec<T>,
}

impl<T> Model for ListOf<T> {
    ghost use Rattle.std.specs.Prelude.{List};

    ghost Value = { List T };

    ghost view = { λ l. l.elements.items };
}

impl<T> ListOf<T> {
    /// The empty list, which holds no memory yet.
    pub fn new(alloc: Global) -> Self
        ensures { result ≡ [] }
    {
        ListOf {
            elements: Vec::new(alloc),
        }
    }

    /// The elements of the vector, in its buffer.
    pub fn from_vec(items: Vec<T>) -> Self
        ensures { result ≡ items.items }
    {
        ListOf { elements: items }
    }

    /// The vector of the elements, in the list's buffer.
    pub fn into_vec(self) -> Vec<T>
        ensures { result.items ≡ self }
    {
        self.elements
    }

    pub fn as_slice(&self) -> &[T]
        ensures { result.now ≡ self.now }
    {
        self.elements.as_slice()
    }

    pub fn len(&self) -> usize
        ensures { result ≡ length self.now }
    {
        self.elements.len()
    }

    pub fn is_empty(&self) -> bool
        ensures { IsTrue result ↔ (self.now ≡ []) }
    {
        self.elements.is_empty()
    }

    pub fn get(&self, index: usize) -> Option<&T>
        ensures { option_copied result ≡ slice_get self.now index }
    {
        self.elements.as_slice().get(index)
    }

    pub fn iter(&self) -> slice::Iter<'_, T>
        ensures { iter_rest result ≡ self.now }
    {
        self.elements.iter()
    }

    /// Puts the item at the end. After a failed allocation the list is as before, and the item is
    /// dropped.
    pub fn push(&mut self, item: T) -> Result<(), AllocError>
    where
        T: Drop,
        ensures ok { OnOk result (self.new ≡ self.old ++ item ∷ []) }
        ensures err { OnErr result (self.new ≡ self.old) }
    {
        self.elements.push(item)?;
        Ok(())
    }

    /// Puts the item in the place of the one at the index.
    pub fn set(&mut self, index: usize, item: T)
    where
        T: Drop,
        requires { index < length self.old }
        ensures { self.new ≡ slice_set self.old index item }
    {
        self.elements[index] = item;
    }
}

impl<'a, T> IntoIterator for &'a ListOf<T> {
    type Item = &'a T;

    type IntoIter = slice::Iter<'a, T>;

    ghost into_iter_gives = { λ list it. iter_rest it ≡ list.now };

    fn into_iter(self) -> Self::IntoIter {
        self.iter()
    }
}

impl<T: PartialEq> PartialEq for ListOf<T> {
    ghost eq = { pointwise T.eq };

    ghost laws = { lists_per T.laws };

    fn eq(&self, other: &Self) -> bool {
        self.elements == other.elements
    }
}

impl<T: Eq> Eq for ListOf<T> {
    ghost laws = { lists_equiv T.Eq.laws };
}
