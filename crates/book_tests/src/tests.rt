//! Tests of the book's writer and reader: what is written, every refusal with its number and place, and the order of checks.
use book::{Account, Extent, Listing, last_byte, list_book, read_account, read_book};
use snapshot::{
    AccountHead, BookFault, ChainReading, Interval, Layer, NO_READING, NO_WRITE, Reading, Write,
};
use std::alloc::Global;
use std::io::{self, ErrorKind};
use std::process::Abort;
use std::test::Fail;

const OPEN_END: u64 = 281_474_976_710_656;

// The bytes of `EMPTY`: mark and counts, low, high, timestamp, last byte.
const SHORTEST: [u8; 29] = *b"\xC3\x3C\x00\x00\
    \x00\x00\x00\x00\x00\x00\x00\x00\
    \x00\x01\x00\x00\x00\x00\x00\x00\
    \x00\x00\x00\x00\x00\x00\x00\x00\
    \xFE";

// The bytes of `SAMPLE`: mark and counts, low, high, timestamp, three readings, two writes, last byte.
const SAMPLE_BYTES: [u8; 105] = *b"\xC3\x3C\x03\x02\
    \x00\x00\x00\x00\x00\x00\x00\x14\
    \x00\x00\x00\x00\x00\x00\x00\x1E\
    \x00\x00\x00\x00\x00\x00\x00\x33\
    \x03\x07\x00\x00\x00\x01\x00\x00\x00\x00\x00\x00\x00\x0A\x00\x00\x00\x00\x00\x00\x00\x28\
    \x01\x09\xFF\xFF\xFF\xFF\x00\x00\x00\x00\x00\x00\x00\x14\x00\x00\x00\x00\x00\x00\x00\x32\
    \x07\x3F\x00\x00\x01\x00\x00\x00\x00\x00\x00\x00\x00\x0F\x00\x00\x00\x00\x00\x00\x00\x1E\
    \x02\x00\x00\x00\x05\
    \x28\x00\x00\x00\x06\
    \xCF";

const SAMPLE_READINGS: [ChainReading; 3] = [
    ChainReading {
        worker: 3,
        key: 7,
        reading: Reading {
            value: 1,
            timestamp: 10,
            promise: 40,
        },
    },
    ChainReading {
        worker: 1,
        key: 9,
        reading: Reading {
            value: 4_294_967_295,
            timestamp: 20,
            promise: 50,
        },
    },
    ChainReading {
        worker: 7,
        key: 63,
        reading: Reading {
            value: 256,
            timestamp: 15,
            promise: 30,
        },
    },
];

const SAMPLE_WRITES: [Write; 2] = [Write { key: 2, value: 5 }, Write { key: 40, value: 6 }];

// A lawful account of three readings and two writes.
const SAMPLE: Account<'static> = Account {
    interval: Interval { low: 20, high: 30 },
    timestamp: 51,
    readings: &SAMPLE_READINGS,
    writes: &SAMPLE_WRITES,
};

// The account of a chain that read and wrote nothing.
const EMPTY: Account<'static> = Account {
    interval: Interval {
        low: 0,
        high: OPEN_END,
    },
    timestamp: 0,
    readings: &[],
    writes: &[],
};

fn made(worker: u8, key: u8, value: u32, timestamp: u64, promise: u64) -> ChainReading {
    ChainReading {
        worker,
        key,
        reading: Reading {
            value,
            timestamp,
            promise,
        },
    }
}

fn held(key: u8) -> Write {
    Write {
        key,
        value: 4_294_967_295,
    }
}

// The call was refused by the book, with this number and byte place, and names no place, leg or key.
fn refused<T: Drop>(
    rt: &impl Abort,
    answer: Result<T, BookFault>,
    number: u8,
    start: usize,
) -> Result<(), Fail> {
    match answer {
        Ok(_) => Err(Fail::new("accepted")),
        Err(fault) => {
            assert_eq!(rt; fault.fault.refusal.number(), number);
            assert_eq!(rt; fault.start, start);
            assert_eq!(rt; fault.fault.layer, Layer::Book);
            assert_eq!(rt;
                [fault.fault.place, fault.fault.leg, fault.fault.key],
                [255, 255, 255]
            );
            Ok(())
        }
    }
}

// Writing.

#[test]
fn shortest_account_is_written(rt: HostRuntime) {
    let mut buffer = [7u8; 31];
    assert_eq!(rt; EMPTY.write(&mut buffer).ok(), Some(29));
    assert_eq!(rt; &buffer[0..29], &SHORTEST[..]);
    assert_eq!(rt; &buffer[29..31], &[7, 7][..]);
}

#[test]
fn sample_is_written(rt: HostRuntime) {
    let mut buffer = [0u8; 105];
    assert_eq!(rt; SAMPLE.write(&mut buffer).ok(), Some(105));
    assert_eq!(rt; &buffer[..], &SAMPLE_BYTES[..]);
}

#[test]
fn longest_account_comes_back(rt: HostRuntime) -> Result<(), Fail> {
    let mut readings = [made(7, 63, 4_294_967_295, 5, 9); 32];
    readings[31] = made(0, 1, 2, 8, 8);
    let writes = [0, 1, 2, 3, 4, 5, 62, 63].map(held);
    let interval = Interval { low: 8, high: 8 };
    let account = Account {
        interval,
        timestamp: 10,
        readings: &readings,
        writes: &writes,
    };
    let mut buffer = [7u8; 774];
    assert_eq!(rt; account.write(&mut buffer).ok(), Some(773));
    assert_eq!(rt; buffer[773], 7);
    let mut read_readings = [NO_READING; 32];
    let mut read_writes = [NO_WRITE; 8];
    let Ok(read) = read_account(&buffer, 0, &mut read_readings, &mut read_writes) else {
        return Err(Fail::new("not read"));
    };
    assert_eq!(rt; read.end, 773);
    assert_eq!(rt;
        read.head,
        AccountHead {
            interval,
            timestamp: 10,
            readings: 32,
            writes: 8,
        }
    );
    assert!(rt; read_readings == readings);
    assert!(rt; read_writes == writes);
    Ok(())
}

// Writing this account is refused as unlawful, also into a buffer that is too short, and the buffer stays.
fn is_unlawful(rt: &impl Abort, account: Account<'_>) -> Result<(), Fail> {
    let mut buffer = [7u8; 105];
    refused(rt, account.write(&mut buffer), 21, 0)?;
    assert!(rt; buffer == [7u8; 105]);
    refused(rt, account.write(&mut []), 21, 0)
}

#[test]
fn unlawful_accounts_are_not_written(rt: HostRuntime) -> Result<(), Fail> {
    for (low, high) in [(19, 30), (21, 30), (20, 29), (20, 31)] {
        let interval = Interval { low, high };
        is_unlawful(&rt, Account { interval, ..SAMPLE })?;
    }
    for timestamp in [0, 50, OPEN_END] {
        is_unlawful(
            &rt,
            Account {
                timestamp,
                ..SAMPLE
            },
        )?;
    }
    Ok(())
}

#[test]
fn unlawful_readings_are_not_written(rt: HostRuntime) -> Result<(), Fail> {
    let [first, second, third] = SAMPLE_READINGS;
    let worker = [made(8, 7, 1, 10, 40), second, third];
    is_unlawful(
        &rt,
        Account {
            readings: &worker,
            ..SAMPLE
        },
    )?;
    let key = [made(3, 64, 1, 10, 40), second, third];
    is_unlawful(
        &rt,
        Account {
            readings: &key,
            ..SAMPLE
        },
    )?;
    // the ends are right, and apart
    let apart = Account {
        interval: Interval { low: 31, high: 30 },
        readings: &[first, made(1, 9, 0, 31, 50), third],
        ..SAMPLE
    };
    is_unlawful(&rt, apart)?;
    // only the second's timestamp is above its promise
    let backward = Account {
        interval: Interval { low: 50, high: 40 },
        readings: &[
            made(0, 0, 0, 0, 40),
            made(1, 9, 0, 50, 49),
            made(0, 0, 0, 0, 50),
        ],
        ..SAMPLE
    };
    is_unlawful(&rt, backward)
}

#[test]
fn unlawful_writes_are_not_written(rt: HostRuntime) -> Result<(), Fail> {
    let [first, second] = SAMPLE_WRITES;
    let out_of_range = Write { key: 64, value: 6 };
    for writes in [[second, first], [first, first], [first, out_of_range]] {
        is_unlawful(
            &rt,
            Account {
                writes: &writes,
                ..SAMPLE
            },
        )?;
    }
    Ok(())
}

#[test]
fn unlawful_sizes_are_not_written(rt: HostRuntime) -> Result<(), Fail> {
    let mut buffer = [7u8; 1000];
    let many_readings = Account {
        interval: Interval { low: 0, high: 0 },
        readings: &[NO_READING; 33],
        ..EMPTY
    };
    refused(&rt, many_readings.write(&mut buffer), 21, 0)?;
    let many_writes = Account {
        timestamp: 1,
        writes: &[0, 1, 2, 3, 4, 5, 6, 7, 8].map(held),
        ..EMPTY
    };
    refused(&rt, many_writes.write(&mut buffer), 21, 0)?;
    let timestamp_without_writes = Account {
        timestamp: 1,
        ..EMPTY
    };
    refused(&rt, timestamp_without_writes.write(&mut buffer), 21, 0)?;
    let promise_at_the_open_end = Account {
        readings: &[made(0, 0, 0, 0, OPEN_END)],
        ..EMPTY
    };
    refused(&rt, promise_at_the_open_end.write(&mut buffer), 21, 0)?;
    assert!(rt; buffer == [7u8; 1000]);
    Ok(())
}

#[test]
fn short_buffer_is_refused(rt: HostRuntime) -> Result<(), Fail> {
    let mut buffer = [7u8; 104];
    refused(&rt, SAMPLE.write(&mut buffer), 10, 0)?;
    assert!(rt; buffer == [7u8; 104]);
    Ok(())
}

// Reading.

// Reading at this place is refused with this number, and both lists stay.
fn is_refused(rt: &impl Abort, book: &[u8], start: usize, number: u8) -> Result<(), Fail> {
    let mut readings = [made(9, 9, 9, 9, 9); 32];
    let mut writes = [held(9); 8];
    refused(
        rt,
        read_account(book, start, &mut readings, &mut writes),
        number,
        start,
    )?;
    assert!(rt; readings == [made(9, 9, 9, 9, 9); 32]);
    assert!(rt; writes == [held(9); 8]);
    Ok(())
}

// The sample's bytes with another byte at this place, and the last byte made right again.
fn changed(at: usize, byte: u8) -> [u8; 105] {
    let mut bytes = SAMPLE_BYTES;
    if at < 104 {
        bytes[104] ^= bytes[at] ^ byte;
        bytes[at] = byte;
    }
    bytes
}

#[test]
fn account_comes_back_from_any_place(rt: HostRuntime) -> Result<(), Fail> {
    let mut book = [0u8; 300];
    let _ = SAMPLE.write(&mut book[100..300]);
    let mut readings = [NO_READING; 4];
    let mut writes = [NO_WRITE; 3];
    let Ok(read) = read_account(&book, 100, &mut readings, &mut writes) else {
        return Err(Fail::new("not read"));
    };
    assert_eq!(rt; read.end, 205);
    assert_eq!(rt;
        read.head,
        AccountHead {
            interval: Interval { low: 20, high: 30 },
            timestamp: 51,
            readings: 3,
            writes: 2,
        }
    );
    let [r0, r1, r2] = SAMPLE_READINGS;
    let [w0, w1] = SAMPLE_WRITES;
    assert_eq!(rt; readings, [r0, r1, r2, NO_READING]);
    assert_eq!(rt; writes, [w0, w1, NO_WRITE]);
    Ok(())
}

#[test]
fn cut_accounts_are_refused(rt: HostRuntime) -> Result<(), Fail> {
    is_refused(&rt, &[], 0, 18)?;
    is_refused(&rt, &SAMPLE_BYTES[0..3], 0, 18)?;
    is_refused(&rt, &SAMPLE_BYTES[0..104], 0, 18)?;
    is_refused(&rt, &SAMPLE_BYTES, 105, 18)?;
    is_refused(&rt, &SAMPLE_BYTES, 18_446_744_073_709_551_615, 18)
}

#[test]
fn damaged_accounts_are_refused(rt: HostRuntime) -> Result<(), Fail> {
    // place, byte there, refusal
    let damages: [(usize, u8, u8); 16] = [
        (0, 0xC2, 19),
        (1, 0x3D, 19),
        (2, 33, 21),
        (3, 9, 21),
        (11, 21, 21),
        (19, 29, 21),
        (27, 50, 21),
        (21, 1, 21),
        (28, 8, 21),
        (29, 64, 21),
        (41, 41, 21),
        (43, 1, 21),
        (49, 29, 21),
        (94, 40, 21),
        (94, 41, 21),
        (99, 64, 21),
    ];
    for (at, byte, number) in damages {
        is_refused(&rt, &changed(at, byte), 0, number)?;
    }
    let mut last = SAMPLE_BYTES;
    last[104] ^= 1;
    is_refused(&rt, &last, 0, 20)
}

#[test]
fn short_lists_are_refused(rt: HostRuntime) -> Result<(), Fail> {
    let mut two_readings = [made(9, 9, 9, 9, 9); 2];
    let mut two_writes = [held(9); 2];
    refused(
        &rt,
        read_account(&SAMPLE_BYTES, 0, &mut two_readings, &mut two_writes),
        10,
        0,
    )?;
    assert!(rt; two_readings == [made(9, 9, 9, 9, 9); 2]);
    assert!(rt; two_writes == [held(9); 2]);
    let mut three_readings = [made(9, 9, 9, 9, 9); 3];
    let mut one_write = [held(9)];
    refused(
        &rt,
        read_account(&SAMPLE_BYTES, 0, &mut three_readings, &mut one_write),
        10,
        0,
    )?;
    assert!(rt; three_readings == [made(9, 9, 9, 9, 9); 3]);
    assert!(rt; one_write == [held(9)]);
    Ok(())
}

#[test]
fn lists_may_be_just_long_enough(rt: HostRuntime) {
    let mut readings = [NO_READING; 3];
    let mut writes = [NO_WRITE; 2];
    assert!(rt; read_account(&SAMPLE_BYTES, 0, &mut readings, &mut writes).is_ok());
    assert!(rt; readings == SAMPLE_READINGS);
    assert!(rt; writes == SAMPLE_WRITES);
}

#[test]
fn first_failed_check_refuses(rt: HostRuntime) -> Result<(), Fail> {
    // three bytes, of which the first is no mark
    is_refused(&rt, &[0, 0x3C, 0], 0, 18)?;
    // no mark, and 33 readings
    is_refused(&rt, &[0xC3, 0, 33, 0], 0, 19)?;
    // 33 readings, and cut short
    is_refused(&rt, &[0xC3, 0x3C, 33, 0], 0, 21)?;
    // cut short, and the last byte present is wrong
    let mut cut = SAMPLE_BYTES;
    cut[103] ^= 1;
    is_refused(&rt, &cut[0..104], 0, 18)?;
    // last byte wrong, and unlawful
    let mut wrong = changed(11, 21);
    wrong[104] ^= 1;
    is_refused(&rt, &wrong, 0, 20)?;
    // unlawful, and lists too short
    refused(
        &rt,
        read_account(&changed(11, 21), 0, &mut [], &mut []),
        21,
        0,
    )
}

// The last byte and the listing.

#[test]
fn last_byte_is_the_exclusive_or(rt: HostRuntime) {
    assert_eq!(rt; last_byte(&[]), 0);
    assert_eq!(rt; last_byte(&[0xC3, 0x3C]), 0xFF);
    assert_eq!(rt; last_byte(&SHORTEST[0..28]), 0xFE);
    assert_eq!(rt; last_byte(&SHORTEST), 0);
}

fn lists(rt: &(impl Abort + AllocGlobal), book: &[u8], text: &str) -> Result<(), Fail> {
    let mut heads = Vec::new(rt.alloc());
    let ending = read_book(book, &mut heads)?;
    let listing = Listing {
        heads: heads.as_slice(),
        ending,
    };
    assert_eq!(rt; format!(in rt.alloc(); "{listing}")?.as_str(), text);
    let mut output = Vec::new(rt.alloc());
    let extent = list_book(rt.alloc(), book, &mut output)?;
    assert_eq!(rt; extent, Extent::Whole);
    assert_eq!(rt; output.as_slice(), text.as_bytes());
    Ok(())
}

#[test]
fn books_are_listed(rt: HostRuntime) -> Result<(), Fail> {
    lists(&rt, &[], "end 0\n")?;
    lists(&rt, &SHORTEST, "0 281474976710656 0 0 0\nend 1\n")?;
    lists(&rt, &SHORTEST[0..28], "bad 18 0\n")?;
    let mut two = SHORTEST.to_vec(rt.alloc())?;
    two.extend_from_slice(&SAMPLE_BYTES)?;
    lists(
        &rt,
        two.as_slice(),
        "0 281474976710656 0 0 0\n20 30 51 3 2\nend 2\n",
    )?;
    two.push(0xC3)?;
    lists(
        &rt,
        two.as_slice(),
        "0 281474976710656 0 0 0\n20 30 51 3 2\nbad 18 134\n",
    )
}

// So many of the shortest accounts, one after another.
fn shortest_accounts(heap: Global, count: usize) -> io::Result<Vec<u8>> {
    let mut book = Vec::new(heap);
    for _ in 0..count {
        book.extend_from_slice(&SHORTEST)?;
    }
    Ok(book)
}

// The lines of so many of the shortest accounts, and this last one.
fn shortest_lines(heap: Global, count: usize, last: &str) -> io::Result<Vec<u8>> {
    let mut text = Vec::new(heap);
    for _ in 0..count {
        text.extend_from_slice(b"0 281474976710656 0 0 0\n")?;
    }
    text.extend_from_slice(last.as_bytes())?;
    Ok(text)
}

// 2,259 of the shortest accounts have 65,511 bytes, and the next one would end behind the limit.
#[test]
fn input_is_cut_within_an_account(rt: HostRuntime) -> Result<(), Fail> {
    let book = shortest_accounts(rt.alloc(), 2_300)?;
    let mut output = b"before\n".to_vec(rt.alloc())?;
    let extent = list_book(rt.alloc(), book.as_slice(), &mut output)?;
    assert_eq!(rt; extent, Extent::Front);
    let expected = shortest_lines(rt.alloc(), 2_259, "bad 18 65511\n")?;
    assert_eq!(rt; &output[..7], b"before\n".as_slice());
    assert!(rt; output[7..] == expected[..]);
    Ok(())
}

// 65,536 bytes are all listed; of one more it is told.
#[test]
fn one_byte_more_is_told(rt: HostRuntime) -> Result<(), Fail> {
    for (bytes, extent) in [(65_536, Extent::Whole), (65_537, Extent::Front)] {
        let book = vec![in rt.alloc(); 0; bytes]?;
        let mut output = Vec::new(rt.alloc());
        let listed = list_book(rt.alloc(), book.as_slice(), &mut output)?;
        assert_eq!(rt; listed, extent, "{bytes} bytes");
        assert_eq!(rt; output.as_slice(), b"bad 19 0\n".as_slice());
    }
    Ok(())
}

// Errors of the input and of the output.

// A reader of these bytes that gives few at a time, is interrupted before each, and fails behind them.
#[derive(Drop)]
struct Failing<'a> {
    bytes: &'a [u8],
    interrupted: bool,
}

impl io::Read for Failing<'_> {
    fn read(&mut self, buffer: &mut [u8]) -> io::Result<usize> {
        self.interrupted = !self.interrupted;
        if self.interrupted {
            return Err(io::Error::from(ErrorKind::Interrupted));
        }
        if self.bytes.is_empty() {
            return Err(io::Error::other("the input failed"));
        }
        let count = buffer.len().min(self.bytes.len()).min(10);
        buffer[..count].copy_from_slice(&self.bytes[..count]);
        self.bytes = &self.bytes[count..];
        Ok(count)
    }
}

#[test]
fn failing_input_leaves_the_output(rt: HostRuntime) -> Result<(), Fail> {
    for size in [0, 28, 29, 105] {
        let input = Failing {
            bytes: &SAMPLE_BYTES[..size],
            interrupted: false,
        };
        let mut output = b"before\n".to_vec(rt.alloc())?;
        let Err(error) = list_book(rt.alloc(), input, &mut output) else {
            return Err(Fail::new("accepted"));
        };
        assert_eq!(rt; error.kind(), ErrorKind::Other);
        assert_eq!(rt; output.as_slice(), b"before\n".as_slice());
    }
    Ok(())
}

// A writer that has room for so many bytes, takes few at a time, is interrupted before each, and refuses more.
#[derive(Drop)]
struct Narrow {
    taken: Vec<u8>,
    room: usize,
    interrupted: bool,
}

impl io::Write for Narrow {
    fn write(&mut self, bytes: &[u8]) -> io::Result<usize> {
        self.interrupted = !self.interrupted;
        if self.interrupted {
            return Err(io::Error::from(ErrorKind::Interrupted));
        }
        let count = bytes.len().min(self.room).min(10);
        self.taken.extend_from_slice(&bytes[..count])?;
        self.room -= count;
        Ok(count)
    }

    fn flush(&mut self) -> io::Result<()> {
        Ok(())
    }
}

#[test]
fn output_that_takes_no_more_has_the_front_of_the_text(rt: HostRuntime) -> Result<(), Fail> {
    let expected = b"20 30 51 3 2\nend 1\n";
    for room in [0, 1, 12, 13, 18] {
        let mut output = Narrow {
            taken: Vec::new(rt.alloc()),
            room,
            interrupted: false,
        };
        let Err(error) = list_book(rt.alloc(), SAMPLE_BYTES.as_slice(), &mut output) else {
            return Err(Fail::new("accepted"));
        };
        assert_eq!(rt; error.kind(), ErrorKind::WriteZero);
        assert_eq!(rt; output.taken.as_slice(), &expected[..room]);
    }
    let mut output = Narrow {
        taken: Vec::new(rt.alloc()),
        room: 19,
        interrupted: false,
    };
    list_book(rt.alloc(), SAMPLE_BYTES.as_slice(), &mut output)?;
    assert_eq!(rt; output.taken.as_slice(), expected.as_slice());
    Ok(())
}
