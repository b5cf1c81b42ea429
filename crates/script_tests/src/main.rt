//! Plays the scripts of data/, each behind a line with its name; what they must print was computed by other
//! implementations of the rules, never by this program. The tests of lines, of what is shown and of the playing stand in
//! `tests`, those of why a line is bad in `bad_lines`, those of the three outputs in `outputs`, and those of when what was printed
//! is passed on in `passing_on`.
#![tactic(auto)]

#[cfg(test)]
mod bad_lines;
#[cfg(test)]
mod outputs;
#[cfg(test)]
mod passing_on;
mod scripts;
#[cfg(test)]
mod tests;

use crate::scripts::SCRIPTS;
use script::{Outputs, play};
use std::fs;
use std::io::{self, BufWriter, Write};

fn play_file<W: Write, B: Write, M: Write>(
    rt: &HostRuntime,
    name: &str,
    outputs: &mut Outputs<W, B, M>,
) -> anyhow::Result<()> {
    writeln!(outputs.printed, "{name}")?;
    let bytes = fs::read(rt, name)?;
    play(rt.alloc(), &mut bytes.as_slice(), outputs)?;
    Ok(())
}

fn main(rt: HostRuntime) -> anyhow::Result<()> {
    let mut outputs = Outputs {
        printed: BufWriter::new(rt.alloc(), io::writer(&rt))?,
        book: io::sink(),
        messages: io::sink(),
    };
    for name in SCRIPTS {
        play_file(&rt, name, &mut outputs)?;
    }
    outputs.printed.flush()?;
    Ok(())
}
