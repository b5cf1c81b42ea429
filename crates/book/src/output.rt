//! From an input to an output: the listing of the book that the input has.
ghost use Rattle.std.specs.IoError.{error_kind};
ghost use Rattle.std.specs.Prelude.{◌≡◌, ◌<◌, length, drop, take, IfOk, IfSome, MatchResult, OnErr, OnOk, string_bytes};
ghost use Rattle.std.specs.Io.{WritesAtMost};
ghost use Rattle.std.specs.Io.KnownBytes.{Appends, Keeps, WriteAppends};
ghost use Rattle.book.specs.Books.{Covers, GainsFront, GainsListing, IsFrontOf, ListsBook, most_bytes};
ghost use Rattle.book.specs.Outputs.{AppendsFront};

use crate::listing::{Listing, read_book};
use std::alloc::{AllocError, Global};
use std::io::{self, ErrorKind, Read, Write};

// How many bytes of an input count.
const MOST_BYTES: usize = 65_536;

/// Which bytes of an input a listing covers.
#[derive(Clone, Copy, Debug, PartialEq, Eq)]
pub enum Extent {
    /// All of them.
    Whole,
    /// The first 65,536; at least one more follows.
    Front,
}

/// Reads the book on the input, of which the first 65,536 bytes count, writes the text of its listing, and answers whether more
/// bytes follow. Fails where the input cannot be read, the output cannot be written, or there is no memory. Where the bytes of
/// input and output are known, as in memory, the output has gained that text; after an error nothing, or a front of it that
/// leaves some of it unwritten.
#[tactic(auto, using(crate::proofs::Outputs::gains_none, crate::proofs::Outputs::fails_front, crate::proofs::Outputs::gains_listing))]
pub fn list_book<R: Read + Drop, W: Write>(
    heap: Global,
    input: R,
    output: &mut W,
) -> io::Result<Extent>
    ensures lists { OnOk result (IfSome (R.Read.remaining input) (λ rest. GainsListing (take most_bytes rest) (W.contents output.old) (W.contents output.new))) }
    ensures front { OnErr result (IfSome (R.Read.remaining input) (λ rest. GainsFront (take most_bytes rest) (W.contents output.old) (W.contents output.new))) }
    ensures extent { IfOk result (λ extent. IfSome (R.Read.remaining input) (λ rest. Covers rest extent)) }
{
    let (book, extent) = first_bytes(heap, input)?;
    let text = listed_text(heap, book.as_slice())?;
    write_whole(output, text.as_bytes()).and(Ok(extent))
}

// The text of the listing of a book.
#[tactic(auto, using(crate::proofs::Outputs::lists_book))]
fn listed_text(heap: Global, book: &[u8]) -> io::Result<String>
    ensures { IfOk result (λ text. ListsBook book.now (string_bytes text)) }
{
    let mut heads = Vec::new(heap);
    let ending = read_book(book, &mut heads).map_err(no_memory)?;
    let listing = Listing {
        heads: heads.as_slice(),
        ending,
    };
    format!(in heap; "{listing}").map_err(no_memory)
}

// Want of memory, in the words of std's own error.
fn no_memory(_: AllocError) -> io::Error
    ensures { error_kind result ≡ ErrorKind.OutOfMemory }
{
    io::Error::new(ErrorKind::OutOfMemory, "memory allocation failed")
}

// The bytes of the input that count, and whether more follow: one byte more is asked for.
#[tactic(auto, using(crate::proofs::Outputs::known_whole, crate::proofs::Outputs::known_front))]
fn first_bytes<R: Read + Drop>(heap: Global, input: R) -> io::Result<(Vec<u8>, Extent)>
    ensures { IfOk result (λ read. IsFrontOf (R.Read.remaining input) read.0.items read.1) }
{
    let mut bytes = Vec::new(heap);
    let _ = input.take(MOST_BYTES as u64 + 1).read_to_end(&mut bytes)?;
    if bytes.len() <= MOST_BYTES {
        return Ok((bytes, Extent::Whole));
    }
    bytes.truncate(MOST_BYTES);
    Ok((bytes, Extent::Front))
}

/// Writes all the bytes, in as many writes as it takes. Fails where the output cannot be written, takes none of the bytes
/// that are left, or was interrupted too often; then only a front of the bytes is written, and some of them are left.
#[tactic(auto, using(crate::proofs::Outputs::some_written, crate::proofs::Outputs::rest_left))]
pub fn write_whole<W: Write>(output: &mut W, bytes: &[u8]) -> io::Result<()>
    ensures { MatchResult result (λ _. Appends (W.contents output.old) (W.contents output.new) bytes.now) (λ _. AppendsFront (λ rest. 0 < length rest) (W.contents output.old) (W.contents output.new) bytes.now) }
{
    let mut written = 0;
    let mut tries = u64::MAX;
    while written < bytes.len() {
        if tries == 0 {
            return Err(too_many_tries());
        }
        tries -= 1;
        let count = write_once(output, &bytes[written..])?;
        written += count;
    }
    Ok(())
}

// Nothing says that an output ever takes a byte: it may interrupt each write.
fn too_many_tries() -> io::Error {
    io::Error::new(ErrorKind::TimedOut, "gave up after 2^64 - 1 writes")
}

// Writes once, and answers how many of the bytes were taken: none where the write was interrupted. It is an error where
// none are taken otherwise.
fn write_once<W: Write>(output: &mut W, bytes: &[u8]) -> io::Result<usize>
    ensures bound { WritesAtMost result bytes.now }
    ensures bytes { WriteAppends (W.contents output.old) (W.contents output.new) result bytes.now }
{
    match output.write(bytes) {
        Ok(0) => Err(io::Error::new(ErrorKind::WriteZero, "no byte was taken")),
        Err(error) if error.kind() == ErrorKind::Interrupted => Ok(0),
        written => written,
    }
}
