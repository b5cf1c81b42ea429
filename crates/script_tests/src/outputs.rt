//! Tests of the three outputs: what the book gains, and which output is written first.
use crate::tests::{NarrowWriter, broken, narrow, played};
use book::read_book;
use script::{Outputs, PlayError, play};
use snapshot::{AccountHead, Interval};
use std::alloc::Global;
use std::test::Fail;

// Two commits with writes and one without are accepted. One is refused for its clock reading, one for room in its caller's list,
// and one chain is abandoned.
const COMMITS: &[u8] =
    b"begin 0 5\nread 0 0 3\nwrite 0 0 3 7\ncommit 0 0 4\nbegin 1 0\nwrite 1 0 9 1\n\
    commit 1 0 281474976710656\ncommit 1 0 0 32 0\nabandon 1\nbegin 2 2\nread 2 0 3\ncommit 2 0 0\nstep\nbegin 3 1\n\
    write 3 0 1 1\nwrite 3 0 2 2\ncommit 3 0 2\n";

// The last lines of the three accounts, as the format of the book has their bytes.
const ACCOUNTS: [&[u8]; 3] = [
    b"\xC3\x3C\x01\x01\x00\x00\x00\x00\x00\x00\x00\x00\x00\x00\x00\x00\x00\x00\x00\x00\x00\x00\x00\x00\x00\x00\x00\x04\
    \x05\x03\x00\x00\x00\x00\x00\x00\x00\x00\x00\x00\x00\x00\x00\x00\x00\x00\x00\x00\x00\x00\x03\x00\x00\x00\x07\xF9",
    b"\xC3\x3C\x01\x00\x00\x00\x00\x00\x00\x00\x00\x04\x00\x00\x00\x00\x00\x00\x00\x04\x00\x00\x00\x00\x00\x00\x00\x00\
    \x02\x03\x00\x00\x00\x07\x00\x00\x00\x00\x00\x00\x00\x04\x00\x00\x00\x00\x00\x00\x00\x04\xF8",
    b"\xC3\x3C\x00\x02\x00\x00\x00\x00\x00\x00\x00\x00\x00\x01\x00\x00\x00\x00\x00\x00\x00\x00\x00\x00\x00\x00\x00\x05\
    \x01\x00\x00\x00\x01\x02\x00\x00\x00\x02\xF9",
];

fn head(low: u64, high: u64, timestamp: u64, readings: usize, writes: usize) -> AccountHead {
    AccountHead {
        interval: Interval { low, high },
        timestamp,
        readings,
        writes,
    }
}

#[test]
fn book_gains_the_bytes_of_each_account_that_is_committed(rt: HostRuntime) -> Result<(), Fail> {
    let outputs = played(rt.alloc(), COMMITS)?;
    let mut expected = Vec::new(rt.alloc());
    for account in ACCOUNTS {
        expected.extend_from_slice(account)?;
    }
    assert_eq!(rt; outputs.book.as_slice(), expected.as_slice());
    let mut heads = Vec::new(rt.alloc());
    assert!(rt; read_book(outputs.book.as_slice(), &mut heads)?.is_none());
    assert!(rt;
        heads.as_slice()
            == [
                head(0, 0, 4, 1, 1),
                head(4, 4, 0, 1, 0),
                head(0, 281_474_976_710_656, 5, 0, 2),
            ]
            .as_slice()
    );
    assert_eq!(rt;
        outputs.messages.as_slice(),
        b"line 13: unknown word (word 1)\n".as_slice()
    );
    Ok(())
}

#[test]
fn book_goes_on_behind_what_it_has(rt: HostRuntime) -> Result<(), Fail> {
    let mut outputs = played(rt.alloc(), COMMITS)?;
    let size = outputs.book.len();
    let mut input = COMMITS;
    play(rt.alloc(), &mut input, &mut outputs)?;
    assert_eq!(rt; outputs.book.len(), 2 * size);
    let (first, second) = outputs.book.as_slice().split_at(size);
    assert_eq!(rt; first, second);
    Ok(())
}

#[test]
fn script_without_a_commit_adds_nothing_to_the_book(rt: HostRuntime) -> Result<(), Fail> {
    let outputs = played(
        rt.alloc(),
        b"store newest\nbegin 0 0\nwrite 0 0 1 1\nabandon 0\ncommit 0 0 1\ncount\nprune 0\n",
    )?;
    assert!(rt; outputs.book.is_empty());
    assert!(rt; outputs.messages.is_empty());
    Ok(())
}

fn narrow_book(heap: Global, room: usize) -> Outputs<Vec<u8>, NarrowWriter, Vec<u8>> {
    Outputs {
        printed: Vec::new(heap),
        book: NarrowWriter {
            fails: true,
            ..narrow(heap, room, 7)
        },
        messages: Vec::new(heap),
    }
}

#[test]
fn account_that_the_book_does_not_take_is_not_printed(rt: HostRuntime) -> Result<(), Fail> {
    let whole = played(rt.alloc(), COMMITS)?;
    // the lines before the first commit
    let before = b"begin 0 5 -> leg 0\nread 0 0 3 -> value 0\nwrite 0 0 3 7 -> done\n";
    for room in [0, 1, 55, ACCOUNTS[0].len() - 1] {
        let mut outputs = narrow_book(rt.alloc(), room);
        let mut input = COMMITS;
        let played = play(rt.alloc(), &mut input, &mut outputs);
        assert!(rt; matches!(played, Err(PlayError::Book(_))));
        assert_eq!(rt; outputs.printed.as_slice(), before.as_slice());
        assert_eq!(rt; outputs.book.taken.as_slice(), &ACCOUNTS[0][..room]);
    }
    // and the first account, once the book has it
    let mut outputs = narrow_book(rt.alloc(), ACCOUNTS[0].len());
    let mut input = COMMITS;
    let played = play(rt.alloc(), &mut input, &mut outputs);
    assert!(rt; matches!(played, Err(PlayError::Book(_))));
    assert!(rt;
        whole
            .printed
            .as_slice()
            .starts_with(outputs.printed.as_slice())
    );
    assert!(rt;
        outputs
            .printed
            .as_slice()
            .ends_with(b"\nread 2 0 3 -> value 7\n")
    );
    let text = format!(in rt.alloc(); "{}", PlayError::Book(broken()))?;
    assert_eq!(rt; text.as_str(), "the book cannot be written: broken");
    Ok(())
}

#[test]
fn account_of_which_a_byte_is_printed_is_in_the_book(rt: HostRuntime) -> Result<(), Fail> {
    let whole = played(rt.alloc(), COMMITS)?;
    for room in 0..whole.printed.len() {
        let mut outputs = Outputs {
            printed: narrow(rt.alloc(), room, 50),
            book: Vec::new(rt.alloc()),
            messages: Vec::new(rt.alloc()),
        };
        let mut input = COMMITS;
        let played = play(rt.alloc(), &mut input, &mut outputs);
        assert!(rt; matches!(played, Err(PlayError::Output(_))));
        assert!(rt; whole.book.as_slice().starts_with(outputs.book.as_slice()));
        let printed = outputs.printed.taken.as_slice();
        let mut committed = Vec::new(rt.alloc());
        // the line of a commit that is accepted begins so
        for (line, account) in ["commit 0 0 4 ->", "commit 2 0 0 ->", "commit 3 0 2 ->"]
            .iter()
            .zip(ACCOUNTS.iter())
        {
            if has_line(printed, line.as_bytes()) {
                committed.extend_from_slice(account)?;
            }
        }
        assert!(rt;
            outputs.book.as_slice().starts_with(committed.as_slice()),
            "{room}"
        );
    }
    Ok(())
}

// Does one of these lines begin so?
fn has_line(lines: &[u8], start: &[u8]) -> bool {
    lines
        .split(|byte| *byte == b'\n')
        .any(|line| line.starts_with(start))
}

#[test]
fn bad_line_is_told_before_it_is_printed(rt: HostRuntime) -> Result<(), Fail> {
    let message = b"line 2: unknown word (word 1)\n";
    for room in 0..message.len() {
        let mut outputs = Outputs {
            printed: Vec::new(rt.alloc()),
            book: Vec::new(rt.alloc()),
            messages: NarrowWriter {
                fails: true,
                ..narrow(rt.alloc(), room, 7)
            },
        };
        let mut input = b"count\nstep\ncount\n".as_slice();
        let played = play(rt.alloc(), &mut input, &mut outputs);
        assert!(rt; matches!(played, Err(PlayError::Messages(_))));
        assert_eq!(rt; outputs.messages.taken.as_slice(), &message[..room]);
        assert_eq!(rt;
            outputs.printed.as_slice(),
            b"count -> waiting 0 lost 0\n".as_slice()
        );
    }
    let text = format!(in rt.alloc(); "{}", PlayError::Messages(broken()))?;
    assert_eq!(rt; text.as_str(), "the messages cannot be written: broken");
    Ok(())
}
