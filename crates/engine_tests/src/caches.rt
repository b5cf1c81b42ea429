//! A worker's cache: its eight entries in the order of their use, what a store's answer and a notice make of an entry, and
//! which entry answers.
use engine_model::{CacheEntry, Notice};
use engine_parts::{CACHES, Cache};
use snapshot::{CACHE_KEYS, Interval, OPEN_END, Reading};
use std::process::Abort;

fn reading(value: u32, timestamp: u64, promise: u64) -> Reading {
    Reading {
        value,
        timestamp,
        promise,
    }
}

fn entry(key: u8, reading: Reading) -> CacheEntry {
    CacheEntry { key, reading }
}

fn notice(key: u8, reading: Reading) -> Notice {
    Notice {
        worker: 0,
        key,
        reading,
    }
}

// What the cache has of a key.
fn held(cache: &Cache, key: u8) -> Option<Reading> {
    cache.look_up(key).map(|entry| entry.reading)
}

// The reading that answers a leg with these ends.
fn answering(cache: &Cache, low: u64, high: u64, key: u8) -> Option<Reading> {
    let entry = cache.answering(Interval { low, high }, key)?;
    Some(entry.reading)
}

// A cache with the keys 0 to 7, used in this order, each known from time 10 to 20.
fn full() -> Cache {
    let mut cache = Cache::new();
    for key in 0..8 {
        cache.use_latest(entry(key, reading(100 + u32::from(key), 10, 20)));
    }
    cache
}

// The cache has exactly these eight keys, used in this order: further keys, one after another, take their places.
fn is_in_order(rt: &impl Abort, mut cache: Cache, keys: [u8; CACHE_KEYS]) {
    for (fresh, key) in (50..58).zip(keys) {
        assert!(rt; cache.holds(key), "key {key} is replaced too early");
        cache.use_latest(entry(fresh, reading(0, 0, 0)));
        assert!(rt; !cache.holds(key), "key {key} is replaced too late");
        assert!(rt; cache.holds(fresh), "key {fresh}");
    }
}

#[test]
fn there_is_a_cache_for_each_of_eight_workers_and_a_new_one_has_no_entry(rt: HostRuntime) {
    assert_eq!(rt; CACHES, 8);
    let cache = Cache::new();
    for key in 0..64 {
        assert_eq!(rt; held(&cache, key), None);
        assert!(rt; !cache.holds(key));
        assert_eq!(rt; answering(&cache, 0, OPEN_END, key), None);
    }
}

#[test]
fn ninth_key_replaces_the_entry_used_longest_ago(rt: HostRuntime) {
    let mut cache = full();
    cache.use_latest(entry(63, reading(163, 12, 14)));
    assert_eq!(rt; held(&cache, 0), None);
    assert_eq!(rt; held(&cache, 1), Some(reading(101, 10, 20)));
    assert_eq!(rt; held(&cache, 7), Some(reading(107, 10, 20)));
    assert_eq!(rt; held(&cache, 63), Some(reading(163, 12, 14)));
    is_in_order(&rt, cache, [1, 2, 3, 4, 5, 6, 7, 63]);
}

#[test]
fn entry_that_is_used_again_becomes_the_latest_and_another_is_replaced(rt: HostRuntime) {
    is_in_order(&rt, full(), [0, 1, 2, 3, 4, 5, 6, 7]);
    let cases = [
        (0, [1, 2, 3, 4, 5, 6, 7, 0]),
        (3, [0, 1, 2, 4, 5, 6, 7, 3]),
        (7, [0, 1, 2, 3, 4, 5, 6, 7]),
    ];
    for (key, order) in cases {
        let mut cache = full();
        cache.use_latest(entry(key, reading(1, 11, 19)));
        assert_eq!(rt; held(&cache, key), Some(reading(1, 11, 19)), "key {key}");
        is_in_order(&rt, cache, order);
    }
}

#[test]
fn key_that_is_put_in_again_and_again_has_one_entry(rt: HostRuntime) {
    let mut cache = full();
    for time in 0..20 {
        cache.use_latest(entry(5, reading(1, time, time)));
    }
    assert_eq!(rt; held(&cache, 5), Some(reading(1, 19, 19)));
    is_in_order(&rt, cache, [0, 1, 2, 3, 4, 6, 7, 5]);
}

#[test]
fn answer_at_a_time_before_the_entry_leaves_the_cache_as_it_is(rt: HostRuntime) {
    for time in [0, 9] {
        let mut cache = full();
        cache.keep_answer(time, entry(2, reading(1, time, time)));
        assert_eq!(rt; held(&cache, 2), Some(reading(102, 10, 20)), "at {time}");
        is_in_order(&rt, cache, [0, 1, 2, 3, 4, 5, 6, 7]);
    }
}

#[test]
fn answer_at_the_time_of_the_entry_or_later_replaces_it_and_is_the_latest(rt: HostRuntime) {
    // the time that was asked counts, and not that of the answer
    let answers = [
        (10, reading(1, 10, 15)),
        (11, reading(1, 11, 12)),
        (30, reading(1, 5, 9)),
        (OPEN_END, reading(1, 40, 41)),
    ];
    for (time, answer) in answers {
        let mut cache = full();
        cache.keep_answer(time, entry(2, answer));
        assert_eq!(rt; held(&cache, 2), Some(answer), "at {time}");
        is_in_order(&rt, cache, [0, 1, 3, 4, 5, 6, 7, 2]);
    }
}

#[test]
fn answer_for_a_key_without_entry_is_kept_at_any_time(rt: HostRuntime) {
    for time in [0, OPEN_END] {
        let mut cache = full();
        cache.keep_answer(time, entry(9, reading(1, 0, 3)));
        assert_eq!(rt; held(&cache, 9), Some(reading(1, 0, 3)), "at {time}");
        is_in_order(&rt, cache, [1, 2, 3, 4, 5, 6, 7, 9]);
    }
}

#[test]
fn entry_answers_where_its_times_meet_the_interval(rt: HostRuntime) {
    let cache = full();
    let meeting = Some(reading(104, 10, 20));
    let cases = [
        (0, 9, None),
        (0, 10, meeting),
        (10, 10, meeting),
        (12, 13, meeting),
        (0, OPEN_END, meeting),
        (20, 20, meeting),
        (20, OPEN_END, meeting),
        (21, OPEN_END, None),
    ];
    for (low, high, expected) in cases {
        assert_eq!(rt;
            answering(&cache, low, high, 4),
            expected,
            "from {low} to {high}"
        );
        assert_eq!(rt;
            answering(&cache, low, high, 8),
            None,
            "from {low} to {high}"
        );
    }
}

#[test]
fn entry_that_answers_keeps_its_place_until_it_is_used(rt: HostRuntime) {
    let cache = full();
    assert_eq!(rt;
        answering(&cache, 0, OPEN_END, 0),
        Some(reading(100, 10, 20))
    );
    is_in_order(&rt, cache, [0, 1, 2, 3, 4, 5, 6, 7]);
}

#[test]
fn notice_of_a_later_version_replaces_the_reading_and_an_earlier_one_has_no_effect(
    rt: HostRuntime,
) {
    let kept = reading(103, 10, 20);
    // the reading of a notice, and what the entry has afterwards
    let cases = [
        (reading(1, 11, 11), reading(1, 11, 11)),
        (reading(1, 30, 30), reading(1, 30, 30)),
        (reading(1, 30, 45), reading(1, 30, 45)),
        (reading(1, 9, 9), kept),
        (reading(1, 9, 40), kept),
        (reading(1, 0, 20), kept),
    ];
    for (notice_reading, expected) in cases {
        let mut cache = full();
        cache.take_notice(notice(3, notice_reading));
        assert_eq!(rt;
            held(&cache, 3),
            Some(expected),
            "notice {notice_reading:?}"
        );
        assert_eq!(rt; held(&cache, 2), Some(reading(102, 10, 20)));
        assert_eq!(rt; held(&cache, 4), Some(reading(104, 10, 20)));
        is_in_order(&rt, cache, [0, 1, 2, 3, 4, 5, 6, 7]);
    }
}

#[test]
fn notice_of_the_same_version_leaves_the_larger_promise(rt: HostRuntime) {
    for (promise, expected) in [(10, 20), (19, 20), (20, 20), (21, 21), (99, 99)] {
        let mut cache = full();
        cache.take_notice(notice(3, reading(103, 10, promise)));
        assert_eq!(rt;
            held(&cache, 3),
            Some(reading(103, 10, expected)),
            "promise {promise}"
        );
        is_in_order(&rt, cache, [0, 1, 2, 3, 4, 5, 6, 7]);
    }
}

#[test]
fn notice_of_a_key_without_entry_has_no_effect(rt: HostRuntime) {
    let mut cache = full();
    cache.take_notice(notice(8, reading(1, 30, 30)));
    assert_eq!(rt; held(&cache, 8), None);
    is_in_order(&rt, cache, [0, 1, 2, 3, 4, 5, 6, 7]);
    let mut empty = Cache::new();
    empty.take_notice(notice(0, reading(1, 30, 30)));
    assert_eq!(rt; held(&empty, 0), None);
}

// A full cache, after notices of its first and of its last entry.
fn first_and_last_noticed() -> Cache {
    let mut cache = full();
    cache.take_notice(notice(0, reading(1, 30, 30)));
    cache.take_notice(notice(7, reading(2, 31, 31)));
    cache
}

#[test]
fn notices_of_first_and_last_entry_leave_the_order_of_use(rt: HostRuntime) {
    is_in_order(&rt, first_and_last_noticed(), [0, 1, 2, 3, 4, 5, 6, 7]);
    let mut cache = first_and_last_noticed();
    assert_eq!(rt; held(&cache, 0), Some(reading(1, 30, 30)));
    assert_eq!(rt; held(&cache, 7), Some(reading(2, 31, 31)));
    cache.use_latest(entry(9, reading(3, 32, 32)));
    assert_eq!(rt; held(&cache, 0), None);
    assert_eq!(rt; held(&cache, 7), Some(reading(2, 31, 31)));
}
