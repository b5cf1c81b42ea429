//! Why a call is refused: the refusal with its number, and the fault that says where it arose.
ghost use Rattle.std.specs.Prelude.{◌≡◌, Some};
ghost use Rattle.snapshot.specs.Refusals.{Numbered, refusal_number, unnamed, at_key, book_fault, own_fault, around_store};
ghost use Rattle.snapshot.specs.Shown.{layer_text};

use std::fmt;
use thiserror::Error;

/// The reasons for which a call is refused, in the order of their numbers. Shown as a sentence with the number.
#[derive(Clone, Copy, PartialEq, Eq, Debug, Error)]
pub enum Refusal {
    /// A place, leg, worker, key or time is out of its range.
    #[error("refused with {}: a place, leg, worker, key or time is out of range", self.number())]
    OutOfRange = 1,
    /// Begin: a chain is open at this place.
    #[error("refused with {}: a chain is open at this place", self.number())]
    PlaceOccupied = 2,
    /// No chain is open at this place, or this leg of it is not open.
    #[error("refused with {}: no chain is open at this place, or this leg of it is not open", self.number())]
    NotOpen = 3,
    /// Join: one leg is named twice.
    #[error("refused with {}: a join names one leg twice", self.number())]
    SameLeg = 4,
    /// Hand, fork, join: a leg would be numbered above 15.
    #[error("refused with {}: a chain has at most 16 legs", self.number())]
    TooManyLegs = 5,
    /// Join: the intervals of the two legs have no time in common.
    #[error("refused with {}: the readings of the two legs were never true together", self.number())]
    IntervalsApart = 6,
    /// Write, join: the write set would pass eight keys.
    #[error("refused with {}: a write set has at most 8 keys", self.number())]
    WriteSetFull = 7,
    /// Read: cache or store is needed for a 33rd reading.
    #[error("refused with {}: a chain has at most 32 readings", self.number())]
    ReadingsFull = 8,
    /// Commit: another leg of the chain is open.
    #[error("refused with {}: another leg of the chain is open", self.number())]
    AnotherLegOpen = 9,
    /// A list or buffer of the caller's is too short.
    #[error("refused with {}: a list or buffer of the caller is too short", self.number())]
    TooShort = 10,
    /// A store's commit: not one to eight writes with rising keys of 0 to 63.
    #[error("refused with {}: a commit takes 1 to 8 writes with rising keys of 0 to 63", self.number())]
    UnfitWrites = 11,
    /// Commit: the clock reading is above 2^48 - 1.
    #[error("refused with {}: the clock reading is above 2^48 - 1", self.number())]
    ClockTooHigh = 12,
    /// Commit: the last timestamp is 2^48 - 1 already.
    #[error("refused with {}: the last timestamp is 2^48 - 1, and there is none later", self.number())]
    NoTimeLeft = 13,
    /// Commit: the store would keep more versions than it has room for.
    #[error("refused with {}: the store has no room for more versions", self.number())]
    CapacityExceeded = 14,
    /// Read: the store has dropped the version that was current at the end of the interval.
    #[error("refused with {}: the store has dropped the version that is asked for", self.number())]
    VersionGone = 15,
    /// Deliver, discard: no notice waits at this position.
    #[error("refused with {}: no notice waits at this position", self.number())]
    NoSuchNotice = 16,
    /// A table is given fewer than 64 or more than 1,024 records.
    #[error("refused with {}: a table takes 64 to 1024 records", self.number())]
    UnfitMemory = 17,
    /// The book: the account is cut short.
    #[error("refused with {}: the account is cut short", self.number())]
    AccountCut = 18,
    /// The book: the account does not begin with the mark C3 3C.
    #[error("refused with {}: the account does not begin with the mark C3 3C", self.number())]
    WrongMark = 19,
    /// The book: the last byte is not the exclusive-or of the others.
    #[error("refused with {}: the last byte of the account is not the exclusive-or of the others", self.number())]
    WrongLastByte = 20,
    /// The book: the account breaks a rule of lawful accounts.
    #[error("refused with {}: the account breaks a rule of lawful accounts", self.number())]
    Unlawful = 21,
}

impl Refusal {
    /// The refusal's number, 1 to 21.
    pub fn number(self) -> u8
        ensures value { result ≡ refusal_number self }
        ensures own { Numbered self result }
    {
        self as u8
    }
}

/// The layer that refused first. Shown by its name in lower case.
#[derive(Clone, Copy, PartialEq, Eq, Debug)]
pub enum Layer {
    /// The engine's chains, and the numbers that its calls take.
    Chain,
    /// The store below the engine.
    Store,
    /// The notices that wait.
    Notices,
    /// The writer or the reader of the book.
    Book,
}

impl fmt::Display for Layer {
    ghost output = { λ layer. Some (layer_text layer) };

    fn fmt<W: fmt::Write>(&self, f: &mut fmt::Formatter<W>) -> fmt::Result {
        match self {
            Layer::Chain => write!(f, "chain"),
            Layer::Store => write!(f, "store"),
            Layer::Notices => write!(f, "notices"),
            Layer::Book => write!(f, "book"),
        }
    }
}

/// What stands in a fault for a place, leg or key that the call lacks or has several of. A number and no `Option`, by the
/// rules: a call may also name 255.
pub const NOT_NAMED: u8 = 255;

/// A refusal, the layer that refused first, and the place, leg and key as the call named them, each `NOT_NAMED` where the call
/// lacks it or has several. Shown as the refusal's sentence with the layer and what the call named.
#[derive(Clone, Copy, PartialEq, Eq, Debug, Error)]
#[error("{refusal} ({layer}{})", Named(*self))]
pub struct Fault {
    /// Why the call is refused.
    pub refusal: Refusal,
    /// Which layer refused first.
    pub layer: Layer,
    /// The place that the call named, 0 to 255.
    pub place: u8,
    /// The leg that the call named, 0 to 255; the first of a join's two.
    pub leg: u8,
    /// The key that the call named, 0 to 255.
    pub key: u8,
}

impl Fault {
    /// The fault of a call that names no place, leg or key.
    pub fn unnamed(refusal: Refusal, layer: Layer) -> Fault
        ensures { result ≡ unnamed refusal layer }
    {
        Fault::at_key(refusal, layer, NOT_NAMED)
    }

    /// The fault of a call that names a key and nothing else.
    pub fn at_key(refusal: Refusal, layer: Layer, key: u8) -> Fault
        ensures { result ≡ at_key refusal layer key }
    {
        Fault {
            refusal,
            layer,
            place: NOT_NAMED,
            leg: NOT_NAMED,
            key,
        }
    }
}

// The place, leg and key of a fault, each where it is named.
#[derive(Clone, Copy)]
struct Named(Fault);

impl fmt::Display for Named {
    fn fmt<W: fmt::Write>(&self, f: &mut fmt::Formatter<W>) -> fmt::Result {
        let Fault {
            place,
            leg,
            key,
            ..
        } = self.0;
        for (word, number) in [("place", place), ("leg", leg), ("key", key)] {
            if number != NOT_NAMED {
                write!(f, ", {word} {number}")?;
            }
        }
        Ok(())
    }
}

/// A fault of the book, with the byte place at which the account starts. Shown as the fault with that place.
#[derive(Clone, Copy, PartialEq, Eq, Debug, Error)]
#[error("{fault}, account at byte {start}")]
pub struct BookFault {
    /// The refusal, by the book; a book has no places, legs or keys to name.
    pub fault: Fault,
    /// Where the account starts, in bytes from the start of the book; 0 for writing.
    pub start: usize,
}

impl BookFault {
    /// The fault of an account that starts at this byte.
    pub fn new(refusal: Refusal, start: usize) -> BookFault
        ensures { result ≡ book_fault refusal start }
    {
        BookFault {
            fault: Fault::unnamed(refusal, Layer::Book),
            start,
        }
    }
}

/// A fault of an engine's call. Where the store refused, its own fault is whole inside. Shown as the call's fault, which has the
/// store's refusal and layer.
#[derive(Clone, Copy, PartialEq, Eq, Debug, Error)]
#[error("{fault}")]
pub struct EngineFault {
    /// The call's own fault: place, leg and key as the call named them.
    pub fault: Fault,
    /// The store's fault, where the store refused.
    pub of_store: Option<Fault>,
}

impl EngineFault {
    /// A fault that no store has a part in. Not a `From`, by which `?` could take a store's fault for such a one.
    pub fn own(fault: Fault) -> EngineFault
        ensures { result ≡ own_fault fault }
    {
        EngineFault {
            fault,
            of_store: None,
        }
    }

    /// A store's fault inside the call that named this place, leg and key: refusal and layer are the store's.
    pub fn around(inner: Fault, place: u8, leg: u8, key: u8) -> EngineFault
        ensures { result ≡ around_store inner place leg key }
    {
        EngineFault {
            fault: Fault {
                refusal: inner.refusal,
                layer: inner.layer,
                place,
                leg,
                key,
            },
            of_store: Some(inner),
        }
    }
}
