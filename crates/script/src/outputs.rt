//! The outputs of a playing, and what a call and a bad line add to each.
ghost use Rattle.std.specs.Prelude.{Ok};
ghost use Rattle.book.specs.Format.{as_account};
ghost use Rattle.engine.specs.declared.answer.Answer.TheVariants as answer;
ghost use Rattle.script.specs.BadLines.{message};
ghost use Rattle.script.specs.Failures.{AddsAll, Writes};
ghost use Rattle.script.specs.Played.{bad_parts, result_parts};
ghost use Rattle.script.specs.Shown.{booked_bytes, lent_outcome};
ghost use Rattle.script.specs.Sinks.{held, to_book, to_messages};

use crate::append::Append;
use crate::bad_line::BadLine;
use crate::error::PlayError;
use crate::show::{account_of, book_bytes};
use crate::writing::{write_bad, write_outcome};
use book::{Account, LONGEST_ACCOUNT, write_whole};
use engine::Answer;
use snapshot::Fault;
use std::io::Write;

/// Where a playing writes.
#[derive(Drop)]
pub struct Outputs<W, B, M> {
    /// Each call with what it came to, and the number of each bad line.
    pub printed: W,
    /// The bytes of each account that is committed, one after another: a book.
    pub book: B,
    /// Of each bad line its number and why it is bad.
    pub messages: M,
}

impl<W: Write, B: Write, M: Write> Outputs<W, B, M> {
    // Writes an account into the book, and then the call and what it came to. The memory is for the text.
    pub(crate) fn write_outcome<C: Append>(
        &mut self,
        memory: &mut Vec<u8>,
        call: &C,
        outcome: Result<&Answer, Fault>,
    ) -> Result<(), PlayError>
        ensures { AddsAll result (held W.contents B.contents M.contents self.old) (held W.contents B.contents M.contents self.new) (result_parts (C.text call.now) (lent_outcome outcome.entry)) }
    {
        write_account(&mut self.book, outcome)?;
        write_outcome(&mut self.printed, memory, call, outcome)
    }

    // Tells why a line is bad, and then writes its number.
    pub(crate) fn write_bad(
        &mut self,
        memory: &mut Vec<u8>,
        number: u64,
        bad: BadLine,
    ) -> Result<(), PlayError>
        ensures { AddsAll result (held W.contents B.contents M.contents self.old) (held W.contents B.contents M.contents self.new) (bad_parts number bad) }
    {
        write_message(&mut self.messages, memory, number, bad)?;
        write_bad(&mut self.printed, memory, number)
    }
}

// Writes the bytes of an account, as the book's writer gives them; of any other outcome there are none.
fn write_account<B: Write>(output: &mut B, outcome: Result<&Answer, Fault>) -> Result<(), PlayError>
    ensures { Writes to_book result (B.contents output.old) (B.contents output.new) (booked_bytes (lent_outcome outcome.entry)) }
{
    let Ok(Answer::Account(committed)) = outcome else {
        return Ok(());
    };
    write_booked(output, &account_of(committed))
}

// Writes the account's bytes; there are none of an account that the book does not take. Only an account pays for the buffer,
// which a function clears when it is entered.
#[inline(never)]
fn write_booked<B: Write>(output: &mut B, account: &Account) -> Result<(), PlayError>
    ensures { Writes to_book result (B.contents output.old) (B.contents output.new) (booked_bytes (Ok (answer.Account (as_account account.now)))) }
{
    let mut buffer = [0; LONGEST_ACCOUNT];
    match book_bytes(account, &mut buffer) {
        Ok(bytes) => write_whole(output, bytes).map_err(PlayError::Book),
        Err(_) => Ok(()),
    }
}

// Writes why the line of this number is bad.
fn write_message<M: Write>(
    output: &mut M,
    memory: &mut Vec<u8>,
    number: u64,
    bad: BadLine,
) -> Result<(), PlayError>
    ensures { Writes to_messages result (M.contents output.old) (M.contents output.new) (message number bad) }
{
    memory.clear();
    writeln!(memory, "line {number}: {bad}").map_err(|_| PlayError::Memory)?;
    write_whole(output, memory.as_slice()).map_err(PlayError::Messages)
}
