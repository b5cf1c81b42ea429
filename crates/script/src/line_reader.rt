//! The lines of an input. What was printed is passed on before the input is asked for bytes that it may have to wait for.
ghost use Rattle.std.specs.Prelude.{◌≡◌, ◌++◌, None, Some, true, false, IfErr, IfOk, IfSome, OnOk, if◌then◌else◌, ◌==◌, length};
ghost use Rattle.std.specs.Io.BufRead.{drop_through, take_through};
ghost use Rattle.std.specs.Io.KnownBytes.{Keeps};
ghost use Rattle.script.specs.Failures.{IsInput};
ghost use Rattle.script.specs.Lines.{line_of};
ghost use Rattle.script.specs.ReadLines.{IsFrontOfLine, ReadsPart, whole_part};
ghost use Rattle.script.specs.declared.line_reader.Part.TheVariants as part;

use crate::error::PlayError;
use crate::line::Line;
use crate::parsing::parse;
use memchr::memchr;
use std::io::{self, BufRead, ErrorKind, Write};

// An input whose lines are read.
#[derive(Drop)]
pub(crate) struct LineReader<R> {
    pub(crate) source: R,
    // How many bytes the input has shown that were not consumed. Where there are some, it does not wait to show them again.
    ready: usize,
}

// What was read of a line.
#[derive(Clone, Copy)]
enum Part {
    // The line, whole.
    Line(Line),
    // The input has ended, and no line stands before its end.
    End,
    // A part of the line, which goes on.
    More,
}

impl<R: BufRead> LineReader<R> {
    pub(crate) fn new(source: R) -> LineReader<R>
        ensures { result.source ≡ source }
    {
        LineReader { source, ready: 0 }
    }

    // What the next line says; none at the end of the input. The memory is for a line that the input does not show whole.
    pub(crate) fn next_line<W: Write>(
        &mut self,
        printed: &mut W,
        memory: &mut Vec<u8>,
    ) -> Result<Option<Line>, PlayError>
        ensures line { IfOk result (λ parsed. IfSome (R.Read.remaining self.old.source) (λ rest. parsed ≡ (if length rest == 0 then None else Some (line_of (take_through 10 rest))))) }
        ensures rest { OnOk result (IfSome (R.Read.remaining self.old.source) (λ rest. R.Read.remaining self.new.source ≡ Some (drop_through 10 rest))) }
        ensures cause { IfErr result IsInput }
        ensures keeps { Keeps (W.contents printed.old) (W.contents printed.new) }
    {
        memory.clear();
        for _turn in 0..u64::MAX {
            self.flush_before_waiting(printed);
            let (part, ready) = read_part(&mut self.source, memory)?;
            self.ready = ready;
            match part {
                Part::Line(line) => return Ok(Some(line)),
                Part::End => return Ok(None),
                Part::More => {}
            }
        }
        Err(PlayError::Input(too_many_reads()))
    }

    // Passes on what was printed where the next read may wait. An error is none of the playing: what could not be passed on
    // stays in the output, which fails at its next write or flush.
    fn flush_before_waiting<W: Write>(&self, printed: &mut W)
        ensures { Keeps (W.contents printed.old) (W.contents printed.new) }
    {
        if self.may_wait() {
            let _ = printed.flush();
        }
    }

    // May the input wait before it shows bytes? It has none ready.
    fn may_wait(&self) -> bool
        ensures { result ≡ (self.now.ready == 0) }
    {
        self.ready == 0
    }
}

// Reads what the input shows of a line that the memory has the start of, and answers how many bytes of what it shows are left.
fn read_part<R: BufRead>(source: &mut R, memory: &mut Vec<u8>) -> Result<(Part, usize), PlayError>
    ensures part { IfOk result (λ read. ReadsPart read.0 (R.Read.remaining source.old) (R.Read.remaining source.new) memory.old.items memory.new.items) }
    ensures cause { IfErr result IsInput }
{
    let shown = match source.fill_buf() {
        Ok(shown) => shown,
        Err(error) if error.kind() == ErrorKind::Interrupted => return Ok((Part::More, 0)),
        Err(error) => return Err(PlayError::Input(error)),
    };
    let (size, ends) = front_of_line(shown);
    let part = take_part(memory, &shown[..size], ends)?;
    let left = shown.len() - size;
    source.consume(size);
    Ok((part, left))
}

// How many of these bytes belong to the line that they begin, and whether the line ends with them: up to the first newline,
// or all. Where there are none, the input has ended, and the line with it.
fn front_of_line(shown: &[u8]) -> (usize, bool)
    ensures { IsFrontOfLine shown.now result.0 result.1 }
{
    match memchr(b'\n', shown) {
        Some(place) => (place + 1, true),
        None => (shown.len(), shown.is_empty()),
    }
}

// What a line says whose start the memory has, and which goes on with these bytes, where it ends with them; else the memory takes
// them too. A line that is shown whole is not copied.
fn take_part(memory: &mut Vec<u8>, bytes: &[u8], ends: bool) -> Result<Part, PlayError>
    ensures whole { IfOk result (λ read. ends ≡ true → read ≡ whole_part (memory.old.items ++ bytes.now)) }
    ensures more { IfOk result (λ read. ends ≡ false → read ≡ part.More) }
    ensures kept { OnOk result (ends ≡ false → memory.new.items ≡ memory.old.items ++ bytes.now) }
    ensures cause { IfErr result IsInput }
{
    if ends && memory.is_empty() {
        return Ok(whole(bytes));
    }
    memory
        .extend_from_slice(bytes)
        .map_err(|error| PlayError::Input(error.into()))?;
    Ok(if ends {
        whole(memory.as_slice())
    } else {
        Part::More
    })
}

// What the bytes of a whole line say; without any, the input has ended.
fn whole(line: &[u8]) -> Part
    ensures { result ≡ whole_part line.now }
{
    if line.is_empty() {
        Part::End
    } else {
        Part::Line(parse(line))
    }
}

// Nothing says that an input ever shows a byte: each read may be interrupted.
fn too_many_reads() -> io::Error {
    io::Error::new(ErrorKind::TimedOut, "gave up after 2^64 - 1 reads")
}
