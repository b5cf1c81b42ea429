//! Tests of a script's lines, of what is shown, and of the playing, from bytes to bytes. What is expected was worked out
//! from the rules.
use book::Account;
use script::{Append, Line, Outputs, PlayError, StoreKind, parse, play};
use snapshot::{ChainReading, Fault, Interval, Layer, Reading, Refusal, Write};
use std::alloc::Global;
use std::io::{self, ErrorKind, Read};
use std::process::Abort;
use std::test::Fail;

// What the script writes to each output.
pub(crate) fn played(
    heap: Global,
    script: &[u8],
) -> Result<Outputs<Vec<u8>, Vec<u8>, Vec<u8>>, PlayError> {
    let mut outputs = Outputs {
        printed: Vec::new(heap),
        book: Vec::new(heap),
        messages: Vec::new(heap),
    };
    let mut input = script;
    play(heap, &mut input, &mut outputs)?;
    Ok(outputs)
}

// The script prints exactly this.
fn prints(rt: &(impl Abort + AllocGlobal), script: &[u8], expected: &str) -> Result<(), Fail> {
    let printed = played(rt.alloc(), script)?.printed;
    assert_eq!(rt; printed.as_slice(), expected.as_bytes(), "{expected}");
    Ok(())
}

// The value's text is this.
fn shows<T: Append>(
    rt: &(impl Abort + AllocGlobal),
    value: &T,
    expected: &str,
) -> Result<(), Fail> {
    let mut text = Vec::new(rt.alloc());
    value.append(&mut text)?;
    assert_eq!(rt; text.as_slice(), expected.as_bytes(), "{expected}");
    Ok(())
}

// Each of these lines, on its own, is bad.
fn are_bad(rt: &(impl Abort + AllocGlobal), lines: &[&[u8]]) -> Result<(), Fail> {
    for line in lines {
        prints(rt, line, "bad 1\n")?;
    }
    Ok(())
}

// Lines.

#[test]
fn each_call_is_shown_as_understood_with_its_answer(rt: HostRuntime) -> Result<(), Fail> {
    prints(
        &rt,
        b"store table 64\nbegin 1 2\nhand 1 0 3\nfork 1 1 4 5\njoin 1 3 2 6\nwrite 1 4 63 4294967295\nread 1 4 63\n\
        commit 1 4 7 32 8\nbegin 1 2\ncommit 1 0 7\nbegin 3 7\nabandon 3\nprune 18446744073709551615\ncount\ndeliver 0\n\
        discard 18446744073709551615\n",
        "store table 64 -> done\nbegin 1 2 -> leg 0\nhand 1 0 3 -> leg 1\nfork 1 1 4 5 -> legs 2 3\n\
        join 1 3 2 6 -> leg 4\nwrite 1 4 63 4294967295 -> done\nread 1 4 63 -> value 4294967295\n\
        commit 1 4 7 32 8 -> refused 14 store 1 4 255\nbegin 1 2 -> refused 2 chain 1 255 255\n\
        commit 1 0 7 -> refused 3 chain 1 0 255\nbegin 3 7 -> leg 0\nabandon 3 -> done\n\
        prune 18446744073709551615 -> done\ncount -> waiting 0 lost 0\ndeliver 0 -> refused 16 notices 255 255 255\n\
        discard 18446744073709551615 -> refused 16 notices 255 255 255\n",
    )
}

#[test]
fn words_may_be_separated_by_any_number_of_spaces_and_tabs(rt: HostRuntime) -> Result<(), Fail> {
    for script in [
        b"begin 0 3\n".as_slice(),
        b"begin 0 3".as_slice(),
        b"  begin   0  3  \n".as_slice(),
        b"\tbegin\t\t0 \t 3\t".as_slice(),
        b"begin 0 3\r\n".as_slice(),
        b" begin 0 3 \t\r\n".as_slice(),
        b"begin 000 0000000000000000000000000000000000000003\n".as_slice(),
    ] {
        prints(&rt, script, "begin 0 3 -> leg 0\n")?;
    }
    Ok(())
}

#[test]
fn carriage_return_is_white_space_only_right_before_a_newline(rt: HostRuntime) -> Result<(), Fail> {
    are_bad(
        &rt,
        &[
            b"count\r",
            b"count\r ",
            b"count\r\r\n",
            b"count \r \n",
            b"\rcount\n",
            b"\r",
        ],
    )?;
    prints(&rt, b"\r\n \r\ncount\r\n", "count -> waiting 0 lost 0\n")
}

#[test]
fn blank_lines_and_comments_are_passed_over_and_counted(rt: HostRuntime) -> Result<(), Fail> {
    prints(&rt, b"", "")?;
    prints(&rt, b"\n \n\t\n#\n#count\n # count\n\t#\xFF\xFE 1\n##", "")?;
    prints(
        &rt,
        b"\n# one\n\nstep\n   \n#\ncount #\ncount",
        "bad 4\nbad 7\ncount -> waiting 0 lost 0\n",
    )
}

#[test]
fn other_words_and_other_numbers_of_words_are_bad(rt: HostRuntime) -> Result<(), Fail> {
    are_bad(
        &rt,
        &[
            b"begin",
            b"begin 0",
            b"begin 0 0 0",
            b"hand 0 0",
            b"hand 0 0 0 0",
            b"fork 0 0 0",
            b"fork 0 0 0 0 0",
            b"join 0 0 0",
            b"join 0 0 0 0 0",
            b"write 0 0 0",
            b"write 0 0 0 0 0",
            b"read 0 0",
            b"read 0 0 0 0",
        ],
    )?;
    are_bad(
        &rt,
        &[
            b"commit 0 0",
            b"commit 0 0 0 0",
            b"commit 0 0 0 0 0 0",
            b"commit 0 0 0 0 0 0 0",
            b"abandon",
            b"abandon 0 0",
            b"deliver",
            b"deliver 0 0",
            b"discard",
            b"discard 0 0",
            b"count 0",
            b"prune",
            b"prune 0 0",
        ],
    )?;
    are_bad(
        &rt,
        &[
            b"Count",
            b"COUNT",
            b"counts",
            b"coun",
            b"0",
            b"-> done",
            b"count\0",
            b"count\x0B",
            b"count\xC2\xA0",
            b"\xEF\xBB\xBFcount",
            b"\xFF\xFF",
            b"begin 0 \xD9\xA3",
        ],
    )
}

#[test]
fn numbers_are_decimal_digits(rt: HostRuntime) -> Result<(), Fail> {
    are_bad(
        &rt,
        &[
            b"abandon +1",
            b"abandon -1",
            b"abandon -0",
            b"abandon 0x1",
            b"abandon 1_0",
            b"abandon 1.0",
            b"abandon 1,",
            b"abandon /",
            b"abandon :",
            b"abandon a",
            b"abandon one",
            b"abandon 1#",
        ],
    )
}

#[test]
fn numbers_at_the_ends_of_their_ranges_are_taken_and_those_beyond_are_bad(
    rt: HostRuntime,
) -> Result<(), Fail> {
    prints(
        &rt,
        b"begin 255 255\nhand 255 255 255\nfork 255 255 255 255\njoin 255 255 255 255\nwrite 255 255 255 4294967295\n\
        read 255 255 255\ncommit 255 255 18446744073709551615\nabandon 255\ndeliver 18446744073709551615\n",
        "begin 255 255 -> refused 1 chain 255 255 255\nhand 255 255 255 -> refused 1 chain 255 255 255\n\
        fork 255 255 255 255 -> refused 1 chain 255 255 255\njoin 255 255 255 255 -> refused 1 chain 255 255 255\n\
        write 255 255 255 4294967295 -> refused 1 chain 255 255 255\nread 255 255 255 -> refused 1 chain 255 255 255\n\
        commit 255 255 18446744073709551615 -> refused 1 chain 255 255 255\n\
        abandon 255 -> refused 1 chain 255 255 255\n\
        deliver 18446744073709551615 -> refused 16 notices 255 255 255\n",
    )?;
    are_bad(
        &rt,
        &[
            b"begin 256 0",
            b"begin 0 256",
            b"hand 0 256 0",
            b"fork 0 0 0 256",
            b"fork 0 0 256 0",
            b"join 0 0 256 0",
            b"join 0 0 0 256",
            b"write 0 0 256 0",
            b"write 0 0 0 4294967296",
            b"read 0 0 256",
        ],
    )?;
    are_bad(
        &rt,
        &[
            b"commit 256 0 0",
            b"commit 0 256 0",
            b"commit 0 0 18446744073709551616",
            b"commit 0 0 0 33 8",
            b"commit 0 0 0 32 9",
            b"abandon 256",
            b"deliver 18446744073709551616",
            b"discard 18446744073709551620",
            b"prune 99999999999999999999",
            b"prune 340282366920938463463374607431768211456",
        ],
    )
}

#[test]
fn line_of_any_length_is_taken(rt: HostRuntime) -> Result<(), Fail> {
    let mut script = Vec::new(rt.alloc());
    script.extend_from_slice(b"abandon ")?;
    script.resize(100_000, b'0')?;
    script.extend_from_slice(b"3\nabandon")?;
    script.resize(200_000, b' ')?;
    script.extend_from_slice(b"2\n")?;
    script.resize(300_000, b'x')?;
    prints(
        &rt,
        script.as_slice(),
        "abandon 3 -> refused 3 chain 3 255 255\nabandon 2 -> refused 3 chain 2 255 255\nbad 3\n",
    )
}

#[test]
fn lines_say_what_they_are(rt: HostRuntime) {
    assert!(rt; matches!(parse(b" # 1"), Line::Blank));
    assert!(rt; matches!(parse(b"\n"), Line::Blank));
    assert!(rt; matches!(parse(b"store newest\r\n"), Line::Store(StoreKind::Newest)));
    assert!(rt;
        matches!(
            parse(b"store table 0"),
            Line::Store(StoreKind::Table { records: 0 })
        )
    );
    assert!(rt; matches!(parse(b"store table 1025"), Line::Bad(_)));
    assert!(rt; matches!(parse(b"count"), Line::Call(_)));
}

// Stores.

#[test]
fn store_is_named_at_most_once_and_before_any_call(rt: HostRuntime) -> Result<(), Fail> {
    prints(
        &rt,
        b"# a bad line is no call\nbegin\nstore newest\nstore newest\nstore table 64\ncount\nstore newest\n",
        "bad 2\nstore newest -> done\nbad 4\nbad 5\ncount -> waiting 0 lost 0\nbad 7\n",
    )?;
    prints(
        &rt,
        b"count\nstore table 1024\n",
        "count -> waiting 0 lost 0\nbad 2\n",
    )?;
    prints(
        &rt,
        b"store\nstore table\nstore newest 1\nstore table 1025\nstore table 64 1\nstore oldest\nstore 64\nstore table -1\n\
        store table 1024\n",
        "bad 1\nbad 2\nbad 3\nbad 4\nbad 5\nbad 6\nbad 7\nbad 8\nstore table 1024 -> done\n",
    )
}

#[test]
fn table_of_unfit_memory_is_refused_and_the_script_goes_on_over_it(
    rt: HostRuntime,
) -> Result<(), Fail> {
    let behind = "begin 0 0\nread 0 0 9\nwrite 0 0 9 1\ncommit 0 0 5\nstore newest";
    let answers_behind = "begin 0 0 -> leg 0\nread 0 0 9 -> value 0\nwrite 0 0 9 1 -> done\n\
        commit 0 0 5 -> refused 14 store 0 0 255\nbad 6\n";
    let heap = rt.alloc();
    for (first, answer) in [
        ("store table 0", "refused 17 store 255 255 255"),
        ("store table 63", "refused 17 store 255 255 255"),
        // as many records as there are keys: no room for a second version
        ("store table 64", "done"),
    ] {
        let script = format!(in heap; "{first}\n{behind}")?;
        let expected = format!(in heap; "{first} -> {answer}\n{answers_behind}")?;
        prints(&rt, script.as_str().as_bytes(), expected.as_str())?;
    }
    Ok(())
}

// Key 1 is read at 10, and a chain that stands there reads key 2, which was written at 20.
const OLD_READ: &[u8] = b"begin 0 0\nwrite 0 0 1 1\ncommit 0 0 10\nbegin 1 1\nread 1 0 1\n\
    begin 0 0\nwrite 0 0 1 2\nwrite 0 0 2 2\ncommit 0 0 20\nread 1 0 2\n";

#[test]
fn without_a_store_line_there_is_a_table_which_keeps_old_versions(
    rt: HostRuntime,
) -> Result<(), Fail> {
    let printed = played(rt.alloc(), OLD_READ)?.printed;
    assert!(rt; printed.as_slice().ends_with(b"\nread 1 0 2 -> value 0\n"));
    let mut script = Vec::new(rt.alloc());
    script.extend_from_slice(b"store newest\n")?;
    script.extend_from_slice(OLD_READ)?;
    let printed = played(rt.alloc(), script.as_slice())?.printed;
    assert!(rt;
        printed
            .as_slice()
            .ends_with(b"\nread 1 0 2 -> refused 15 store 1 0 2\n")
    );
    Ok(())
}

// Answers and refusals.

#[test]
fn refusals_are_shown_with_number_layer_place_leg_and_key(rt: HostRuntime) -> Result<(), Fail> {
    prints(
        &rt,
        b"begin 9 0\nread 0 0 7\nbegin 0 0\njoin 0 0 0 0\nwrite 0 0 64 1\nwrite 0 0 1 1\ncommit 0 0 1 32 0\n\
        commit 0 0 281474976710656\ndeliver 0\nfork 0 0 1 2\ncommit 0 1 0\n",
        "begin 9 0 -> refused 1 chain 9 255 255\nread 0 0 7 -> refused 3 chain 0 0 7\nbegin 0 0 -> leg 0\n\
        join 0 0 0 0 -> refused 4 chain 0 0 255\nwrite 0 0 64 1 -> refused 1 chain 0 0 64\n\
        write 0 0 1 1 -> done\ncommit 0 0 1 32 0 -> refused 10 chain 0 0 255\n\
        commit 0 0 281474976710656 -> refused 12 store 0 0 255\ndeliver 0 -> refused 16 notices 255 255 255\n\
        fork 0 0 1 2 -> legs 1 2\ncommit 0 1 0 -> refused 9 chain 0 1 255\n",
    )?;
    let fault = Fault {
        refusal: Refusal::Unlawful,
        layer: Layer::Book,
        place: 1,
        leg: 2,
        key: 3,
    };
    shows(&rt, &fault, "refused 21 book 1 2 3")
}

#[test]
fn counts_of_notices_are_shown(rt: HostRuntime) -> Result<(), Fail> {
    prints(
        &rt,
        b"begin 0 5\nread 0 0 3\nwrite 0 0 3 7\ncommit 0 0 4\ncount\ndiscard 0\ncount\n",
        "begin 0 5 -> leg 0\nread 0 0 3 -> value 0\nwrite 0 0 3 7 -> done\ncommit 0 0 4 -> account 0 0 4 1 1\n  \
        reading 5 3 0 0 0\n  write 3 7\n  \
        book c33c01010000000000000000000000000000000000000000000000040503\
        00000000000000000000000000000000000000000300000007f9\ncount -> waiting 1 lost 0\ndiscard 0 -> done\ncount -> waiting 0 lost 0\n",
    )
}

#[test]
fn account_is_shown_with_its_readings_its_writes_and_its_bytes(
    rt: HostRuntime,
) -> Result<(), Fail> {
    let readings = [
        reading(3, 7, 1, 10, 40),
        reading(1, 9, 4_294_967_295, 20, 50),
        reading(7, 63, 256, 15, 30),
    ];
    let writes = [Write { key: 2, value: 5 }, Write { key: 40, value: 6 }];
    let account = Account {
        interval: Interval { low: 20, high: 30 },
        timestamp: 51,
        readings: &readings,
        writes: &writes,
    };
    shows(
        &rt,
        &account,
        "account 20 30 51 3 2\n  reading 3 7 1 10 40\n  reading 1 9 4294967295 20 50\n  reading 7 63 256 15 30\n  \
        write 2 5\n  write 40 6\n  book c33c03020000000000000014000000000000001e0000000000000033\
        030700000001000000000000000a0000000000000028\
        0109ffffffff00000000000000140000000000000032\
        073f00000100000000000000000f000000000000001e\
        02000000052800000006cf",
    )
}

fn reading(worker: u8, key: u8, value: u32, timestamp: u64, promise: u64) -> ChainReading {
    ChainReading {
        worker,
        key,
        reading: Reading {
            value,
            timestamp,
            promise,
        },
    }
}

#[test]
fn account_that_the_book_refuses_is_shown_with_that_refusal(rt: HostRuntime) -> Result<(), Fail> {
    let account = Account {
        interval: Interval { low: 2, high: 1 },
        timestamp: 0,
        readings: &[],
        writes: &[],
    };
    shows(
        &rt,
        &account,
        "account 2 1 0 0 0\n  book refused 21 book 255 255 255",
    )
}

// Errors of input and output.

// Outputs of which only what is printed is kept.
pub(crate) fn only_printed<W: io::Write>(printed: W) -> Outputs<W, io::Sink, io::Sink> {
    Outputs {
        printed,
        book: io::sink(),
        messages: io::sink(),
    }
}

// A reader of which every read fails.
#[derive(Drop)]
struct BrokenReader;

pub(crate) fn broken() -> io::Error {
    io::Error::other("broken")
}

impl io::Read for BrokenReader {
    fn read(&mut self, _bytes: &mut [u8]) -> io::Result<usize> {
        Err(broken())
    }
}

impl io::BufRead for BrokenReader {
    fn fill_buf(&mut self) -> io::Result<&[u8]> {
        Err(broken())
    }

    fn consume(&mut self, _amount: usize) {}
}

#[test]
fn input_that_fails_ends_the_playing_after_the_lines_before(rt: HostRuntime) -> Result<(), Fail> {
    for (readable, expected) in [
        ("", ""),
        ("# a comment\n", ""),
        ("count\n", "count -> waiting 0 lost 0\n"),
        ("bad\ncount\ncount", "bad 1\ncount -> waiting 0 lost 0\n"),
        ("store newest\nbad\n", "store newest -> done\nbad 2\n"),
        ("store table 64\nbegin", "store table 64 -> done\n"),
    ] {
        let mut input = readable.as_bytes().chain(BrokenReader);
        let mut outputs = only_printed(Vec::new(rt.alloc()));
        let played = play(rt.alloc(), &mut input, &mut outputs);
        assert!(rt;
            matches!(&played, Err(PlayError::Input(error)) if error.kind() == ErrorKind::Other)
        );
        assert_eq!(rt;
            outputs.printed.as_slice(),
            expected.as_bytes(),
            "{readable}"
        );
    }
    let text = format!(in rt.alloc(); "{}", PlayError::Input(broken()))?;
    assert_eq!(rt; text.as_str(), "the script cannot be read: broken");
    Ok(())
}

const THREE_LINES: &[u8] = b"count\nbad\ncount\n";

const THREE_LINES_PRINTED: &[u8] = b"count -> waiting 0 lost 0\nbad 2\ncount -> waiting 0 lost 0\n";

// A writer that takes this many bytes at most of each write, has room for so many in all, and then fails, by an error or
// by taking none. Where it is interrupted, every other write is.
#[derive(Drop)]
pub(crate) struct NarrowWriter {
    pub(crate) taken: Vec<u8>,
    pub(crate) room: usize,
    pub(crate) most: usize,
    pub(crate) fails: bool,
    pub(crate) interrupts: bool,
    pub(crate) is_interrupted: bool,
}

impl io::Write for NarrowWriter {
    fn write(&mut self, bytes: &[u8]) -> io::Result<usize> {
        self.is_interrupted = self.interrupts && !self.is_interrupted;
        if self.is_interrupted {
            return Err(io::Error::from(ErrorKind::Interrupted));
        }
        if self.room == 0 && self.fails {
            return Err(broken());
        }
        let count = bytes.len().min(self.room).min(self.most);
        self.taken.extend_from_slice(&bytes[..count])?;
        self.room -= count;
        Ok(count)
    }

    fn flush(&mut self) -> io::Result<()> {
        Ok(())
    }
}

pub(crate) fn narrow(heap: Global, room: usize, most: usize) -> NarrowWriter {
    NarrowWriter {
        taken: Vec::new(heap),
        room,
        most,
        fails: false,
        interrupts: false,
        is_interrupted: false,
    }
}

#[test]
fn output_that_takes_no_more_ends_the_playing_with_an_error(rt: HostRuntime) -> Result<(), Fail> {
    for room in 0..THREE_LINES_PRINTED.len() {
        for fails in [false, true] {
            let mut outputs = only_printed(NarrowWriter {
                fails,
                ..narrow(rt.alloc(), room, 7)
            });
            let mut input = THREE_LINES;
            let kind = if fails {
                ErrorKind::Other
            } else {
                ErrorKind::WriteZero
            };
            let played = play(rt.alloc(), &mut input, &mut outputs);
            assert!(rt; matches!(&played, Err(PlayError::Output(error)) if error.kind() == kind));
            assert!(rt; THREE_LINES_PRINTED.starts_with(outputs.printed.taken.as_slice()));
            assert_eq!(rt; outputs.printed.taken.len(), room);
        }
    }
    let text = format!(in rt.alloc(); "{}", PlayError::Output(broken()))?;
    assert_eq!(rt; text.as_str(), "the output cannot be written: broken");
    Ok(())
}

#[test]
fn output_that_takes_a_few_bytes_at_a_time_gets_them_all(rt: HostRuntime) {
    for most in [1, 2, 30] {
        for interrupts in [false, true] {
            let mut outputs = only_printed(NarrowWriter {
                interrupts,
                ..narrow(rt.alloc(), THREE_LINES_PRINTED.len(), most)
            });
            let mut input = THREE_LINES;
            assert!(rt; play(rt.alloc(), &mut input, &mut outputs).is_ok());
            assert_eq!(rt; outputs.printed.taken.as_slice(), THREE_LINES_PRINTED);
        }
    }
}
