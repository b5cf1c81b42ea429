//! Why a line of a script is bad.
ghost use Rattle.std.specs.Prelude.{Some};
ghost use Rattle.script.specs.BadLines as spec;

use crate::words::MOST_WORDS;
use std::error::Error;
use std::fmt;

/// Why a line is bad. Where several apply, the line has the first of them, in the order in which they stand here. A place is
/// that of a word in its line, from 1.
#[derive(Clone, Copy, Debug, PartialEq, Eq)]
pub enum BadLine {
    /// The word at this place, 1 or 2, is none that may stand there.
    UnknownWord { place: usize },
    /// The line has so many words, 1 to 7, where others are wanted; 7 stands for 7 or more.
    WordCount { words: usize, wanted: Wanted },
    /// The word at this place is not a number, of decimal digits alone and at most 2^64 - 1.
    NotANumber { place: usize },
    /// The number at this place is above `most`, the upper end of its range; the lower end is 0.
    OutOfRange { place: usize, most: u64 },
    /// The line names a store, but stands behind a line that names one, or behind a call.
    LateStore,
}

/// How many words a line has that begins as this one does, its first word among them.
#[derive(Clone, Copy, Debug, PartialEq, Eq)]
pub enum Wanted {
    /// So many.
    Exactly(usize),
    /// One of two numbers of words, the smaller first.
    Either(usize, usize),
}

impl fmt::Display for BadLine {
    ghost output = { λ bad. Some (spec.bad_text bad) };

    fn fmt<W: fmt::Write>(&self, f: &mut fmt::Formatter<W>) -> fmt::Result {
        match *self {
            BadLine::UnknownWord { place } => write!(f, "unknown word (word {place})"),
            BadLine::WordCount { words, wanted } => {
                write!(f, "{}, where {wanted} wanted", WordsShown(words))
            }
            BadLine::NotANumber { place } => write!(f, "word {place} is not a number"),
            BadLine::OutOfRange { place, most } => {
                write!(f, "word {place} is out of range (0 to {most})")
            }
            BadLine::LateStore => write!(f, "a store line stands once, before every call"),
        }
    }
}

impl Error for BadLine {}

impl fmt::Display for Wanted {
    ghost output = { λ wanted. Some (spec.wanted_text wanted) };

    fn fmt<W: fmt::Write>(&self, f: &mut fmt::Formatter<W>) -> fmt::Result {
        match *self {
            Wanted::Exactly(1) => write!(f, "1 is"),
            Wanted::Exactly(words) => write!(f, "{words} are"),
            Wanted::Either(fewer, more) => write!(f, "{fewer} or {more} are"),
        }
    }
}

// How many words a line has; 7 stands for 7 or more.
#[derive(Clone, Copy)]
struct WordsShown(usize);

impl fmt::Display for WordsShown {
    ghost output = { λ shown. Some (spec.words_text shown.0) };

    fn fmt<W: fmt::Write>(&self, f: &mut fmt::Formatter<W>) -> fmt::Result {
        match self.0 {
            1 => write!(f, "1 word"),
            words if words < MOST_WORDS => write!(f, "{words} words"),
            words => write!(f, "{words} or more words"),
        }
    }
}
