//! Prints the listing of the book on standard input, of which the first 65,536 bytes count.
#![tactic(auto)]

ghost use Rattle.std.specs.Prelude.{◌≡◌, ◌<◌, true, length, take, IfSome, OnErr, OnOk};
ghost use Rattle.book.specs.Books.{GainsFront, GainsListing, most_bytes};

#[cfg(test)]
mod tests;

use book::list_book;
use clap::Command;
use std::alloc::Global;
use std::env::{self, Env, FillError};
use std::io::{self, ErrorKind, Read, Write};
use std::process::ExitCode;

const VERSION: &str = "1.0";

// How many bytes of the input count: as many as `list_book` reads, to which `lists` below holds this number.
const MOST_BYTES: u64 = 65_536;

// Is there a word behind the program's own name? That name is not looked at, and may be any bytes.
fn has_arguments(rt: &HostRuntime) -> bool {
    !matches!(rt.arg(1, &mut [0; 1]), Err(FillError::NotPresent))
}

// Looks at the words of the command line: none of them is known but the options for help and version, which print and end the
// program. A word that is not UTF-8 is told as one of another character.
fn answer_arguments(rt: &HostRuntime) -> anyhow::Result<Option<ExitCode>> {
    let command = Command::new(rt.alloc(), "print_book")
        .version(VERSION)
        .about(
            "Lists the accounts of the book on standard input, of which the first 65536 bytes count.",
        );
    let answer = match env::args(rt) {
        Ok(words) => {
            let words: Vec<String> = words.collect(rt.alloc())?;
            command.try_get_matches_from(words.as_slice()).err()
        }
        Err(error) if error.kind() == ErrorKind::InvalidData => {
            command
                .try_get_matches_from(&["print_book", "\u{FFFD}"])
                .err()
        }
        Err(error) => return Err(error.into()),
    };
    let Some(answer) = answer else {
        return Ok(None);
    };
    answer.print(rt)?;
    Ok(Some(ExitCode::from(answer.exit_code() as u8)))
}

// Asks for one byte more, and answers whether it was there. Where it cannot be read the answer is false too.
fn goes_on<R: Read + Drop>(rest: R) -> bool
    ensures { result ≡ true → IfSome (R.Read.remaining rest) (λ bytes. 0 < length bytes) }
{
    matches!(rest.bytes().next(), Some(Ok(_)))
}

// Writes the listing of the first 65,536 bytes of the input, and answers whether more were found to follow. It is written before
// a byte more is asked for, and the answer is no error of its own. The answer is tested and not proved: of a reader that was read
// through `Take` nothing is known.
fn list_front<R: Read + Drop, W: Write>(heap: Global, input: R, output: &mut W) -> io::Result<bool>
    ensures lists { OnOk result (IfSome (R.Read.remaining input) (λ rest. GainsListing (take most_bytes rest) (W.contents output.old) (W.contents output.new))) }
    ensures front { OnErr result (IfSome (R.Read.remaining input) (λ rest. GainsFront (take most_bytes rest) (W.contents output.old) (W.contents output.new))) }
{
    let mut front = input.take(MOST_BYTES);
    list_book(heap, &mut front, output)?;
    Ok(front.limit() == 0 && goes_on(front.into_inner()))
}

fn main(rt: HostRuntime) -> anyhow::Result<ExitCode> {
    if has_arguments(&rt) {
        if let Some(status) = answer_arguments(&rt)? {
            return Ok(status);
        }
    }
    if list_front(rt.alloc(), rt.stdin(), &mut io::writer(&rt))? {
        // the listing stands, also where this cannot be told
        let _ = eprintln!(rt; "print_book: the input goes on after the 65536 bytes that were read");
    }
    Ok(ExitCode::SUCCESS)
}
