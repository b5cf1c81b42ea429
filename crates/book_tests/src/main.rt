//! Lists the books of data/, sound, cut and damaged ones, each behind a line with its name; the tests of writer and reader
//! stand in `tests`.
#![tactic(auto)]

#[cfg(test)]
mod tests;

use book::{Listing, read_book};
use std::fs;

const BOOKS: usize = 24;

fn list(rt: &HostRuntime, name: &str) -> anyhow::Result<()> {
    let bytes = fs::read(rt, name)?;
    let mut heads = Vec::new(rt.alloc());
    let ending = read_book(bytes.as_slice(), &mut heads)?;
    let listing = Listing {
        heads: heads.as_slice(),
        ending,
    };
    print!(rt; "{name}\n{listing}")?;
    Ok(())
}

fn main(rt: HostRuntime) -> anyhow::Result<()> {
    for number in 1..=BOOKS {
        let name = format!(in rt.alloc(); "book-{number:02}.book")?;
        list(&rt, name.as_str())?;
    }
    Ok(())
}
