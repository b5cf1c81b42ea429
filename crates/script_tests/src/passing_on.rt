//! Tests of when what was printed is passed on: before each read that may wait, and at no other time.
use crate::tests::{broken, only_printed, played};
use script::{PlayError, play};
use std::alloc::Global;
use std::io::{self, BufWriter, ErrorKind, Write};
use std::test::Fail;

// What three lines print, of which the second is bad.
const SCRIPT: &[u8] = b"count\nbad\nabandon 7\n";

const PRINTED: &[u8] =
    b"count -> waiting 0 lost 0\nbad 2\nabandon 7 -> refused 1 chain 7 255 255\n";

// How many bytes the first lines print.
const SIZES: [usize; 4] = [0, 26, 32, 71];

// A reader that shows so many bytes at most, and waits for more only once these were consumed. Where it is interrupted, every
// other time that it would wait is. Where it breaks, it fails in place of its end.
#[derive(Drop)]
struct SlowReader {
    left: &'static [u8],
    shown: usize,
    most: usize,
    interrupts: bool,
    is_interrupted: bool,
    breaks: bool,
}

fn slow(bytes: &'static [u8], most: usize) -> SlowReader {
    SlowReader {
        left: bytes,
        shown: 0,
        most,
        interrupts: false,
        is_interrupted: false,
        breaks: false,
    }
}

impl io::Read for SlowReader {
    fn read(&mut self, _bytes: &mut [u8]) -> io::Result<usize> {
        Err(broken())
    }
}

impl io::BufRead for SlowReader {
    fn fill_buf(&mut self) -> io::Result<&[u8]> {
        if self.breaks && self.left.is_empty() {
            return Err(broken());
        }
        if self.shown == 0 {
            self.is_interrupted = self.interrupts && !self.is_interrupted;
            if self.is_interrupted {
                return Err(io::Error::from(ErrorKind::Interrupted));
            }
            self.shown = self.left.len().min(self.most);
        }
        Ok(&self.left[..self.shown.min(self.left.len())])
    }

    fn consume(&mut self, amount: usize) {
        let amount = amount.min(self.shown).min(self.left.len());
        self.left = &self.left[amount..];
        self.shown -= amount;
    }
}

// A writer that notes how many bytes it had at each flush, which may fail.
#[derive(Drop)]
struct NotingWriter {
    taken: Vec<u8>,
    flushes: Vec<usize>,
    fails: bool,
}

fn noting(heap: Global) -> NotingWriter {
    NotingWriter {
        taken: Vec::new(heap),
        flushes: Vec::new(heap),
        fails: false,
    }
}

impl io::Write for NotingWriter {
    fn write(&mut self, bytes: &[u8]) -> io::Result<usize> {
        self.taken.extend_from_slice(bytes)?;
        Ok(bytes.len())
    }

    fn flush(&mut self) -> io::Result<()> {
        self.flushes.push(self.taken.len())?;
        if self.fails {
            return Err(broken());
        }
        Ok(())
    }
}

fn newlines(bytes: &[u8]) -> usize {
    bytes.iter().filter(|byte| **byte == b'\n').count()
}

#[test]
fn answers_are_passed_on_before_each_read_that_may_wait_and_at_no_other_time(
    rt: HostRuntime,
) -> Result<(), Fail> {
    for more in 0..SCRIPT.len() {
        let most = more + 1;
        let mut outputs = only_printed(noting(rt.alloc()));
        play(rt.alloc(), &mut slow(SCRIPT, most), &mut outputs)?;
        assert_eq!(rt; outputs.printed.taken.as_slice(), PRINTED);
        // the reader waits once for each piece, and once for the end; by then the lines in the pieces before were played
        let mut expected = Vec::new(rt.alloc());
        for read in 0..SCRIPT.len() {
            if read % most == 0 {
                expected.push(SIZES[newlines(&SCRIPT[..read]).min(3)])?;
            }
        }
        expected.push(PRINTED.len())?;
        assert_eq!(rt;
            outputs.printed.flushes.as_slice(),
            expected.as_slice(),
            "{most}"
        );
    }
    Ok(())
}

#[test]
fn nothing_is_passed_on_while_lines_are_ready(rt: HostRuntime) -> Result<(), Fail> {
    let mut outputs = only_printed(noting(rt.alloc()));
    let mut input = SCRIPT;
    play(rt.alloc(), &mut input, &mut outputs)?;
    // before the first byte, and before the end
    assert_eq!(rt;
        outputs.printed.flushes.as_slice(),
        [0, PRINTED.len()].as_slice()
    );
    Ok(())
}

#[test]
fn interrupted_reads_are_made_again(rt: HostRuntime) -> Result<(), Fail> {
    for most in [1, 4, 100] {
        let mut outputs = only_printed(noting(rt.alloc()));
        let mut input = SlowReader {
            interrupts: true,
            ..slow(SCRIPT, most)
        };
        play(rt.alloc(), &mut input, &mut outputs)?;
        assert_eq!(rt; outputs.printed.taken.as_slice(), PRINTED);
    }
    Ok(())
}

#[test]
fn lines_may_be_longer_than_what_is_shown(rt: HostRuntime) -> Result<(), Fail> {
    const LONG: &[u8] =
        b"abandon                                                                  00000000000000007\nbad line of seven words and more\n#                  \ncount";
    let whole = played(rt.alloc(), LONG)?;
    for most in [1, 2, 3, 7, 50] {
        let mut outputs = only_printed(noting(rt.alloc()));
        play(rt.alloc(), &mut slow(LONG, most), &mut outputs)?;
        assert_eq!(rt; outputs.printed.taken.as_slice(), whole.printed.as_slice());
    }
    Ok(())
}

#[test]
fn flush_that_fails_is_no_error_and_loses_nothing(rt: HostRuntime) -> Result<(), Fail> {
    let mut outputs = only_printed(NotingWriter {
        fails: true,
        ..noting(rt.alloc())
    });
    play(rt.alloc(), &mut slow(SCRIPT, 3), &mut outputs)?;
    assert_eq!(rt; outputs.printed.taken.as_slice(), PRINTED);
    Ok(())
}

// A writer whose first writes fail.
#[derive(Drop)]
struct LateWriter {
    taken: Vec<u8>,
    failures: usize,
}

impl io::Write for LateWriter {
    fn write(&mut self, bytes: &[u8]) -> io::Result<usize> {
        if self.failures > 0 {
            self.failures -= 1;
            return Err(broken());
        }
        self.taken.extend_from_slice(bytes)?;
        Ok(bytes.len())
    }

    fn flush(&mut self) -> io::Result<()> {
        Ok(())
    }
}

#[test]
fn buffer_keeps_what_could_not_be_passed_on(rt: HostRuntime) -> Result<(), Fail> {
    for failures in [0, 1, 2, 4, 1_000] {
        let late = LateWriter {
            taken: Vec::new(rt.alloc()),
            failures,
        };
        let mut outputs = only_printed(BufWriter::new(rt.alloc(), late)?);
        play(rt.alloc(), &mut slow(SCRIPT, 4), &mut outputs)?;
        // the last flush tells whether all was passed on
        let flushed = outputs.printed.flush();
        let taken = outputs.printed.get_ref().taken.as_slice();
        if failures < 1_000 {
            assert!(rt; flushed.is_ok());
            assert_eq!(rt; taken, PRINTED, "{failures}");
        } else {
            assert!(rt; flushed.is_err());
            assert!(rt; taken.is_empty());
        }
    }
    Ok(())
}

#[test]
fn output_that_is_full_fails_at_a_write_behind_the_flush(rt: HostRuntime) -> Result<(), Fail> {
    let late = LateWriter {
        taken: Vec::new(rt.alloc()),
        failures: 1_000,
    };
    let mut outputs = only_printed(BufWriter::with_capacity(rt.alloc(), 30, late)?);
    let played = play(rt.alloc(), &mut slow(SCRIPT, 4), &mut outputs);
    assert!(rt; matches!(played, Err(PlayError::Output(_))));
    Ok(())
}

#[test]
fn reader_that_fails_in_mid_stream_ends_the_playing_after_the_lines_before(
    rt: HostRuntime,
) -> Result<(), Fail> {
    for whole in 0..=SCRIPT.len() {
        let mut outputs = only_printed(noting(rt.alloc()));
        let mut input = SlowReader {
            breaks: true,
            ..slow(&SCRIPT[..whole], 4)
        };
        let played = play(rt.alloc(), &mut input, &mut outputs);
        assert!(rt;
            matches!(&played, Err(PlayError::Input(error)) if error.kind() == ErrorKind::Other)
        );
        let size = SIZES[newlines(&SCRIPT[..whole]).min(3)];
        assert_eq!(rt; outputs.printed.taken.as_slice(), &PRINTED[..size]);
        // and that had been passed on before
        assert!(rt; outputs.printed.flushes.as_slice().last() == Some(&size));
    }
    Ok(())
}
