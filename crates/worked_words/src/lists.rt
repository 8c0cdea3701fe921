// Lists and maps that grow and are copied.
use crate::asserting::{holds, is_copied};
use views::duplicate::Duplicate;
use views::list_of::ListOf;
use views::number_map::NumberMap;

/// Whether this is a copy of the list, of 8 and 9.
fn is_copy(copy: &ListOf<u32>, list: &ListOf<u32>) -> bool {
    copy.as_slice() == [8, 9].as_slice()
        && copy == list
        && copy.get(1).copied() == Some(9)
        && copy.get(2).is_none()
}

#[test]
fn lists_grow_and_are_copied(rt: HostRuntime) {
    let mut list = ListOf::<u32>::new(rt.alloc());
    list.push(7).expect(&rt, "memory");
    list.push(9).expect(&rt, "memory");
    list.set(0, 8);
    let copy = list.duplicate(rt.alloc()).expect(&rt, "memory");
    holds(&rt, is_copy(&copy, &list));
}

/// Whether the map has `Some(true)` at 3, and a further key 5.
fn is_whole(map: &NumberMap<Option<bool>>) -> bool {
    map.get(3).copied() == Some(Some(true))
        && map.next_above(None) == Some(3)
        && map.next_above(Some(3)) == Some(5)
        && map.next_above(Some(5)).is_none()
}

#[test]
fn maps_grow_and_are_copied(rt: HostRuntime) {
    let mut map = NumberMap::<Option<bool>>::new(rt.alloc());
    holds(&rt, map.insert(5, None) == Ok(None));
    holds(&rt, map.insert(3, Some(true)) == Ok(None));
    holds(&rt, map.insert(5, Some(false)) == Ok(Some(None)));
    let copy = map.duplicate(rt.alloc()).expect(&rt, "memory");
    holds(&rt, map.remove(3) == Some(Some(true)));
    holds(&rt, is_whole(&copy));
}

#[test]
fn numbers_are_copied(rt: HostRuntime) {
    is_copied(&rt, true);
    is_copied(&rt, 8u8);
    is_copied(&rt, 16u16);
    is_copied(&rt, 32u32);
    is_copied(&rt, 64u64);
    is_copied(&rt, -32i32);
}
