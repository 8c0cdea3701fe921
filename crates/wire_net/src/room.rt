ghost use Rattle.std.specs.Prelude.{◌≡◌, ◌+◌, ◌<◌, ◌≤◌, [], ◌∷◌, ◌++◌, length, IfOk};
ghost use Rattle.wire_net.specs.Reserves.{reserve};

use std::alloc::{AllocError, Global};
use std::marker::Model;
use std::mem;
use views::list_of::ListOf;

/// A list with room that was taken before: as long as it is no longer than its room it grows without memory.
#[derive(Drop)]
pub struct Room<T> {
    items: Vec<T>,
    room: usize,
}

impl<T> Model for Room<T> {
    ghost use Rattle.std.specs.Prelude.{◌≤◌, vec_capacity};
    ghost use Rattle.wire_net.specs.Reserves.{Reserve, reserve, reserve_code};

    ghost Value = { Reserve T };

    ghost coded = { reserve_code T.code };

    ghost view = { λ a. reserve a.items.items a.room };

    ghost invariant = { λ a. a.room ≤ vec_capacity a.items };
}

impl<T> Room<T> {
    /// An empty list with room for so many items.
    pub fn with_room(alloc: Global, room: usize) -> Result<Room<T>, AllocError>
        ensures { IfOk result (λ list. list ≡ reserve [] room) }
    {
        Ok(Room {
            items: Vec::with_capacity(alloc, room)?,
            room,
        })
    }

    pub fn len(&self) -> usize
        ensures { result ≡ length self.now.items }
    {
        self.items.len()
    }

    /// How many items it holds without memory.
    pub fn room(&self) -> usize
        ensures { result ≡ self.now.room }
    {
        self.room
    }

    pub fn as_slice(&self) -> &[T]
        ensures { result.now ≡ self.now.items }
    {
        self.items.as_slice()
    }

    /// Puts an item at the end. Takes no memory.
    pub fn push(&mut self, item: T)
        requires { length self.old.items < self.old.room }
        ensures { self.new ≡ reserve (self.old.items ++ item ∷ []) self.old.room }
    {
        self.items.push_reserved(item);
    }

    /// The list, whose buffer it takes along. Nothing and no room is left. Takes no memory.
    pub fn take(&mut self) -> ListOf<T>
        ensures taken { result ≡ self.old.items }
        ensures left { self.new ≡ reserve [] 0 }
    {
        let alloc = *self.items.allocator();
        self.room = 0;
        ListOf::from_vec(mem::replace(&mut self.items, Vec::new(alloc)))
    }
}

impl<T: Drop> Room<T> {
    /// Exchanges what it holds with a list, whose buffer it takes along. Its room is then as long as the list
    /// was. Takes no memory.
    pub fn exchange(&mut self, list: &mut ListOf<T>)
        ensures taken { self.new ≡ reserve list.old (length list.old) }
        ensures left { list.new ≡ self.old.items }
    {
        let alloc = *self.items.allocator();
        let items = mem::replace(list, ListOf::new(alloc)).into_vec();
        self.room = items.len();
        *list = ListOf::from_vec(mem::replace(&mut self.items, items));
    }
}

impl<T: Copy> Room<T> {
    /// Puts the items of the piece at the end. Takes no memory.
    pub fn put(&mut self, piece: &[T])
        requires { length self.old.items + length piece.now ≤ self.old.room }
        ensures { self.new ≡ reserve (self.old.items ++ piece.now) self.old.room }
    {
        let _ = self.items.extend_from_slice(piece);
    }
}
