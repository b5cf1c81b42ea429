//! Lists of bounded length.
use crate::builders::put;
use engine_parts::BoundedList;
use snapshot::Write;
use std::process::Abort;

// A list of room for four with the numbers 1, 2 and 3.
fn three() -> BoundedList<u8, 4> {
    let mut list = BoundedList::new();
    let _ = list.push(1);
    let _ = list.push(2);
    let _ = list.push(3);
    list
}

// The list has exactly these entries, and room for more unless it has four.
fn lists(rt: &impl Abort, list: &BoundedList<u8, 4>, entries: &[u8]) {
    assert_eq!(rt; list.as_slice(), entries);
    assert_eq!(rt; list.len(), entries.len());
    assert_eq!(rt; list.is_full(), entries.len() == 4);
    for (place, entry) in entries.iter().enumerate() {
        assert_eq!(rt; list.get(place), Some(*entry), "at {place}");
    }
    for place in [entries.len(), 4, usize::MAX] {
        assert_eq!(rt; list.get(place), None, "at {place}");
    }
}

#[test]
fn list_takes_entries_at_its_end_until_it_is_full(rt: HostRuntime) {
    let mut list = BoundedList::new();
    lists(&rt, &list, &[]);
    assert!(rt; list.push(1));
    lists(&rt, &list, &[1]);
    assert!(rt; list.push(2));
    assert!(rt; list.push(3));
    assert!(rt; list.push(4));
    lists(&rt, &list, &[1, 2, 3, 4]);
    assert!(rt; !list.push(5));
    lists(&rt, &list, &[1, 2, 3, 4]);
}

#[test]
fn list_takes_an_entry_before_any_other_or_at_the_end(rt: HostRuntime) {
    let cases = [
        (0, [9, 1, 2, 3]),
        (1, [1, 9, 2, 3]),
        (2, [1, 2, 9, 3]),
        (3, [1, 2, 3, 9]),
        (4, [1, 2, 3, 9]),
        (usize::MAX, [1, 2, 3, 9]),
    ];
    for (place, entries) in cases {
        let mut list = three();
        assert!(rt; list.insert(place, 9), "at {place}");
        lists(&rt, &list, &entries);
        assert!(rt; !list.insert(place, 8), "at {place}");
        lists(&rt, &list, &entries);
    }
    let mut list = BoundedList::new();
    assert!(rt; list.insert(0, 7));
    lists(&rt, &list, &[7]);
}

#[test]
fn list_gives_up_an_entry_and_later_ones_move_up(rt: HostRuntime) {
    for (place, entries) in [(0, [2, 3]), (1, [1, 3]), (2, [1, 2])] {
        let mut list = three();
        list.remove(place);
        lists(&rt, &list, &entries);
    }
    for place in [3, 4, usize::MAX] {
        let mut list = three();
        list.remove(place);
        lists(&rt, &list, &[1, 2, 3]);
    }
    let mut list = three();
    assert!(rt; list.push(4));
    list.remove(3);
    lists(&rt, &list, &[1, 2, 3]);
    assert!(rt; list.push(5));
    list.remove(0);
    lists(&rt, &list, &[2, 3, 5]);
}

#[test]
fn list_puts_an_entry_in_the_place_of_another_and_nowhere_else(rt: HostRuntime) {
    for (place, entries) in [(0, [9, 2, 3]), (2, [1, 2, 9]), (3, [1, 2, 3])] {
        let mut list = three();
        list.put(place, 9);
        lists(&rt, &list, &entries);
    }
}

#[test]
fn list_without_room_takes_nothing(rt: HostRuntime) {
    let mut list: BoundedList<u8, 0> = BoundedList::new();
    assert!(rt; list.is_full());
    assert!(rt; !list.push(1));
    assert!(rt; !list.insert(0, 1));
    assert_eq!(rt; list.len(), 0);
}

#[test]
fn list_finds_the_first_entry_with_a_key(rt: HostRuntime) {
    let mut list: BoundedList<Write, 3> = BoundedList::new();
    assert_eq!(rt; list.with_key(9), None);
    let _ = list.push(put(5, 1));
    let _ = list.push(put(4, 2));
    let _ = list.push(put(5, 3));
    assert_eq!(rt; list.with_key(5), Some(put(5, 1)));
    assert_eq!(rt; list.with_key(4), Some(put(4, 2)));
    assert_eq!(rt; list.with_key(9), None);
    list.remove(0);
    assert_eq!(rt; list.with_key(5), Some(put(5, 3)));
}
