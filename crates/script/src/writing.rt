//! A line of the output: it is made whole in memory first, and then written.
ghost use Rattle.std.specs.Prelude.{◌≡◌, ◌++◌, OnOk};
ghost use Rattle.script.specs.Played.{bad_line, result_line};
ghost use Rattle.script.specs.Failures.{Writes};
ghost use Rattle.script.specs.Shown.{lent_outcome};
ghost use Rattle.script.specs.Sinks.{to_printed};

use crate::append::{Append, append_numbers};
use crate::error::PlayError;
use crate::show::append_outcome;
use book::write_whole;
use engine::Answer;
use snapshot::Fault;
use std::alloc::AllocError;
use std::io::Write;

// Writes a call and what it came to. The buffer is for the text.
pub(crate) fn write_outcome<W: Write, C: Append>(
    output: &mut W,
    buffer: &mut Vec<u8>,
    call: &C,
    outcome: Result<&Answer, Fault>,
) -> Result<(), PlayError>
    ensures { Writes to_printed result (W.contents output.old) (W.contents output.new) (result_line (C.text call.now) (lent_outcome outcome.entry)) }
{
    buffer.clear();
    append_result(buffer, call, outcome).map_err(|_| PlayError::Memory)?;
    write_line(output, buffer.as_slice())
}

fn append_result<C: Append>(
    line: &mut Vec<u8>,
    call: &C,
    outcome: Result<&Answer, Fault>,
) -> Result<(), AllocError>
    ensures { OnOk result (line.new.items ≡ line.old.items ++ result_line (C.text call.now) (lent_outcome outcome.entry)) }
{
    call.append(line)?;
    line.extend_from_slice(b" -> ")?;
    append_outcome(outcome, line)?;
    line.extend_from_slice(b"\n")
}

// Writes the number of a bad line.
pub(crate) fn write_bad<W: Write>(
    output: &mut W,
    buffer: &mut Vec<u8>,
    number: u64,
) -> Result<(), PlayError>
    ensures { Writes to_printed result (W.contents output.old) (W.contents output.new) (bad_line number) }
{
    buffer.clear();
    append_bad(buffer, number).map_err(|_| PlayError::Memory)?;
    write_line(output, buffer.as_slice())
}

fn append_bad(line: &mut Vec<u8>, number: u64) -> Result<(), AllocError>
    ensures { OnOk result (line.new.items ≡ line.old.items ++ bad_line number) }
{
    append_numbers(b"bad", &[number], line)?;
    line.extend_from_slice(b"\n")
}

fn write_line<W: Write>(output: &mut W, line: &[u8]) -> Result<(), PlayError>
    ensures { Writes to_printed result (W.contents output.old) (W.contents output.new) line.now }
{
    write_whole(output, line).map_err(PlayError::Output)
}
