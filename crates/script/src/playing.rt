//! The playing of a script: each call on one engine over one store, and what it came to.
ghost use Rattle.std.specs.Prelude.{◌≡◌, ◌+◌, ◌∷◌, IfSome, length, min};
ghost use Rattle.engine.specs.Engines.{engine_of};
ghost use Rattle.engine.specs.Performing.{performed};
ghost use Rattle.engine.specs.declared.answer.Answer.TheVariants as answer;
ghost use Rattle.script.specs.ScriptTraces.{PrintsTrace};
ghost use Rattle.script.specs.Failures.{AddsAll};
ghost use Rattle.script.specs.Played.{Prints, PrintsAll, after_line, booked, check_result, line_text, shown_result, played, played_on, printed, parsed_lines, result_parts, script_text, told};
ghost use Rattle.script.specs.declared.line.Line.TheVariants as line;
ghost use Rattle.script.specs.declared.line.StoreKind.TheVariants as kind;
ghost use Rattle.snapshot.specs.Limits.{most_records};
ghost use Rattle.script.specs.Shown.{lent_outcome, request_text};
ghost use Rattle.script.specs.Sinks.{held, to_book, to_messages, to_printed};

use crate::bad_line::BadLine;
use crate::error::PlayError;
use crate::line::{Line, Request, StoreKind};
use crate::line_reader::LineReader;
use crate::outputs::Outputs;
use engine::{Answer, Engine};
use newest_store::Newest;
use snapshot::{EngineFault, Fault, MOST_RECORDS};
use std::alloc::Global;
use std::io::{BufRead, Write};
use store::Store;
use table_store::{NO_RECORD, Record, Table};

/// Plays the script that the input has, to its end. Each call is printed with what it came to, and each bad line with its
/// number. The book gains the bytes of each account that is committed, before the line is printed. The messages gain a line for
/// each bad line, which says why it is bad, before its number is printed. Fails where the input cannot be read, one of the outputs
/// cannot be written, there is no memory for a line, or the script has 2^64 - 1 lines or more. The contract speaks of inputs
/// and outputs whose bytes are known, as in memory: each output gains all that the script writes to it, and after an error
/// a front of it. Flushes what is printed before each read that may have to wait; that such a flush fails is not answered, so flush
/// once more afterwards. And what a script writes shows a trace that keeps the law of traces, of whose accounts the book has the bytes.
#[tactic(auto, using(crate::proofs::TraceProofs::prints_trace))]
pub fn play<R: BufRead, W: Write, B: Write, M: Write>(
    heap: Global,
    input: &mut R,
    outputs: &mut Outputs<W, B, M>,
) -> Result<(), PlayError>
    ensures prints { Prints to_printed result 0 (R.Read.remaining input.old) (W.contents outputs.old.printed) (W.contents outputs.new.printed) printed }
    ensures books { Prints to_book result 0 (R.Read.remaining input.old) (B.contents outputs.old.book) (B.contents outputs.new.book) booked }
    ensures tells { Prints to_messages result 0 (R.Read.remaining input.old) (M.contents outputs.old.messages) (M.contents outputs.new.messages) told }
    ensures trace { IfSome (R.Read.remaining input.old) PrintsTrace }
{
    play_script(&mut LineReader::new(input), outputs, &mut Vec::new(heap))
}

// Plays a script from its start. The memory is for a line, and for its text.
fn play_script<R: BufRead, W: Write, B: Write, M: Write>(
    input: &mut LineReader<R>,
    outputs: &mut Outputs<W, B, M>,
    memory: &mut Vec<u8>,
) -> Result<(), PlayError>
    ensures { PrintsAll result 0 (R.Read.remaining input.old.source) (held W.contents B.contents M.contents outputs.old) (held W.contents B.contents M.contents outputs.new) script_text }
{
    for lines in 0..u64::MAX {
        let Some(line) = input.next_line(&mut outputs.printed, memory)? else {
            return Ok(());
        };
        let number = lines + 1;
        match line {
            Line::Blank => {}
            Line::Bad(bad) => outputs.write_bad(memory, number, bad)?,
            Line::Store(kind) => return play_over(input, outputs, memory, number, kind),
            Line::Call(request) => return play_from(input, outputs, memory, number, request),
        }
    }
    Err(PlayError::TooManyLines)
}

// Plays a script from the line that names its store.
fn play_over<R: BufRead, W: Write, B: Write, M: Write>(
    input: &mut LineReader<R>,
    outputs: &mut Outputs<W, B, M>,
    memory: &mut Vec<u8>,
    number: u64,
    kind: StoreKind,
) -> Result<(), PlayError>
    ensures { PrintsAll result number (R.Read.remaining input.old.source) (held W.contents B.contents M.contents outputs.old) (held W.contents B.contents M.contents outputs.new) (λ k rest. played k number (line.Store kind ∷ parsed_lines rest)) }
{
    match kind {
        StoreKind::Newest => {
            outputs.write_outcome(memory, &kind, Ok(&Answer::Done))?;
            play_on(
                input,
                outputs,
                memory,
                number,
                &mut Engine::new(Newest::new()),
            )
        }
        StoreKind::Table { records } => {
            let mut table = [NO_RECORD; MOST_RECORDS];
            play_over_table(
                input,
                outputs,
                memory,
                number,
                records,
                &mut table[..records.min(MOST_RECORDS)],
            )
        }
    }
}

// Plays a script from the line that names a table of so many records, which lie in this memory. Where the table refuses
// the memory, that is written, and the script goes on over the store that it gives.
fn play_over_table<R: BufRead, W: Write, B: Write, M: Write>(
    input: &mut LineReader<R>,
    outputs: &mut Outputs<W, B, M>,
    memory: &mut Vec<u8>,
    number: u64,
    records: usize,
    table: &mut [Record],
) -> Result<(), PlayError>
    requires { length table.old ≡ min records most_records }
    ensures { PrintsAll result number (R.Read.remaining input.old.source) (held W.contents B.contents M.contents outputs.old) (held W.contents B.contents M.contents outputs.new) (λ k rest. played k number (line.Store (kind.Table records) ∷ parsed_lines rest)) }
{
    outputs.write_outcome(
        memory,
        &StoreKind::Table { records },
        checked(Table::check(table), &Answer::Done),
    )?;
    play_on(
        input,
        outputs,
        memory,
        number,
        &mut Engine::new(Table::new(table)),
    )
}

// Plays a script from its first call, which no store's line stands before: over a table of the most records.
fn play_from<R: BufRead, W: Write, B: Write, M: Write>(
    input: &mut LineReader<R>,
    outputs: &mut Outputs<W, B, M>,
    memory: &mut Vec<u8>,
    number: u64,
    first: Request,
) -> Result<(), PlayError>
    ensures { PrintsAll result number (R.Read.remaining input.old.source) (held W.contents B.contents M.contents outputs.old) (held W.contents B.contents M.contents outputs.new) (λ k rest. played k number (line.Call first ∷ parsed_lines rest)) }
{
    let mut table = [NO_RECORD; MOST_RECORDS];
    let mut engine = Engine::new(Table::new(&mut table));
    perform(outputs, memory, &mut engine, first)?;
    play_on(input, outputs, memory, number, &mut engine)
}

// Plays the lines that are left; so many were read before them.
fn play_on<R: BufRead, W: Write, B: Write, M: Write, S: Store>(
    input: &mut LineReader<R>,
    outputs: &mut Outputs<W, B, M>,
    memory: &mut Vec<u8>,
    lines: u64,
    engine: &mut Engine<S>,
) -> Result<(), PlayError>
    ensures { PrintsAll result lines (R.Read.remaining input.old.source) (held W.contents B.contents M.contents outputs.old) (held W.contents B.contents M.contents outputs.new) (λ k rest. played_on k S.Store.DEPTH (engine_of S.Reads.meaning engine.old) (lines + 1) (parsed_lines rest)) }
{
    for before in lines..u64::MAX {
        let Some(line) = input.next_line(&mut outputs.printed, memory)? else {
            return Ok(());
        };
        play_line(outputs, memory, engine, before + 1, line)?;
    }
    Err(PlayError::TooManyLines)
}

// Does what the line of this number says.
fn play_line<W: Write, B: Write, M: Write, S: Store>(
    outputs: &mut Outputs<W, B, M>,
    memory: &mut Vec<u8>,
    engine: &mut Engine<S>,
    number: u64,
    line: Line,
) -> Result<(), PlayError>
    ensures after { engine_of S.Reads.meaning engine.new ≡ after_line S.Store.DEPTH (engine_of S.Reads.meaning engine.old) line }
    ensures writes { AddsAll result (held W.contents B.contents M.contents outputs.old) (held W.contents B.contents M.contents outputs.new) (λ k. line_text k S.Store.DEPTH (engine_of S.Reads.meaning engine.old) number line) }
{
    match line {
        Line::Blank => Ok(()),
        Line::Bad(bad) => outputs.write_bad(memory, number, bad),
        Line::Store(_) => outputs.write_bad(memory, number, BadLine::LateStore),
        Line::Call(request) => perform(outputs, memory, engine, request),
    }
}

// Makes the call, and writes it with what it came to.
fn perform<W: Write, B: Write, M: Write, S: Store>(
    outputs: &mut Outputs<W, B, M>,
    memory: &mut Vec<u8>,
    engine: &mut Engine<S>,
    request: Request,
) -> Result<(), PlayError>
    ensures after { engine_of S.Reads.meaning engine.new ≡ (performed S.Store.DEPTH request.call (engine_of S.Reads.meaning engine.old)).1 }
    ensures writes { AddsAll result (held W.contents B.contents M.contents outputs.old) (held W.contents B.contents M.contents outputs.new) (result_parts (request_text request) (shown_result (performed S.Store.DEPTH request.call (engine_of S.Reads.meaning engine.old)).0)) }
{
    let answer = engine.perform(request.call);
    outputs.write_outcome(memory, &request, outcome(&answer))
}

// Of an engine's fault the call's own is shown.
fn outcome(answer: &Result<Answer, EngineFault>) -> Result<&Answer, Fault>
    ensures { lent_outcome result ≡ shown_result answer.now }
{
    match answer {
        Ok(answer) => Ok(answer),
        Err(fault) => Err(fault.fault),
    }
}

// What the check of a table's memory came to, where this is the answer that it is done.
fn checked(memory: Result<(), Fault>, done: &Answer) -> Result<&Answer, Fault>
    requires { done.now ≡ answer.Done }
    ensures { lent_outcome result ≡ check_result memory }
{
    memory.map(|()| done)
}
