//! Plays the script on standard input, and prints each call with its answer. What was printed is passed on in blocks, and whenever
//! the script may have to be waited for. Standard error says why a line is bad. The accounts are added to a book where one is named.
#![tactic(auto)]

use anyhow::Context;
use clap::{Arg, Command};
use script::{Outputs, play};
use std::env;
use std::fs::OpenOptions;
use std::io::{self, BufReader, BufWriter, Write};
use std::process::ExitCode;

const VERSION: &str = "1.0";

// How many bytes are read or passed on at a time.
const BLOCK: usize = 65_536;

fn main(rt: HostRuntime) -> anyhow::Result<ExitCode> {
    let words: Vec<String> = env::args(&rt)?.collect(rt.alloc())?;
    let book = Arg::new(rt.alloc(), "book")
        .long("book")
        .value_name("FILE")
        .help("Adds the bytes of each account to FILE, as it is committed");
    let command = Command::new(rt.alloc(), "control_room")
        .version(VERSION)
        .about(
            "Plays the script of engine calls on standard input, and prints each call with its answer.",
        )
        .arg(book)?;
    let matches = match command.try_get_matches_from(words.as_slice()) {
        Ok(matches) => matches,
        Err(error) => {
            error.print(&rt)?;
            return Ok(ExitCode::from(error.exit_code() as u8));
        }
    };
    match matches.get_str("book") {
        None => play_into(&rt, io::sink())?,
        Some(path) => {
            let mut options = OpenOptions::new();
            options.append(true).create(true);
            let book = options
                .open(&rt, path)
                .context("the book cannot be opened")?;
            play_into(&rt, book)?;
        }
    }
    Ok(ExitCode::SUCCESS)
}

// Plays the script, with this for its book. What was printed before an error is passed on all the same.
fn play_into<B: Write + Drop>(rt: &HostRuntime, book: B) -> anyhow::Result<()> {
    let mut input = BufReader::with_capacity(rt.alloc(), BLOCK, rt.reader())?;
    let mut outputs = Outputs {
        printed: BufWriter::with_capacity(rt.alloc(), BLOCK, io::writer(rt))?,
        book,
        messages: rt.stderr(),
    };
    let played = play(rt.alloc(), &mut input, &mut outputs);
    let passed_on = outputs.printed.flush();
    played?;
    passed_on.context("the output cannot be written")?;
    Ok(())
}
