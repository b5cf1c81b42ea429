//! The reading of a whole book, and the text that lists its accounts.
ghost use Rattle.std.specs.Prelude.{◌≡◌, ◌+◌, ◌/◌, ◌≤◌, true, length, is_ok, IfOk, OnErr, Some, vec_len, vec_capacity};
ghost use Rattle.book.specs.Books.{ListedBehind, ReadBehind, AccountOrRefused, listing_text};
ghost use Rattle.book.specs.Format.{size_of};

use crate::reader::{AccountAt, Lists, account_at};
use snapshot::{AccountHead, BookFault};
use std::alloc::AllocError;
use std::fmt;

/// Reads a book from its first byte: account after account, to its end or to the first that is refused. Adds the five
/// numbers of each account to the list, and answers the fault of the account at which the reading ended; none at the end of
/// the book. The only error is want of memory. Then the list has those of the accounts read so far, at least as many in all as
/// it had room for, and one account more stands in the book. It does not come where the list has room for as many accounts as
/// a book of that length can have.
pub fn read_book(book: &[u8], heads: &mut Vec<AccountHead>) -> Result<Option<BookFault>, AllocError>
    ensures listed { IfOk result (λ e. ListedBehind heads.old.items heads.new.items book.now e) }
    ensures so_far { OnErr result (ReadBehind heads.old.items heads.new.items book.now) }
    ensures full { OnErr result (vec_capacity heads.old ≤ vec_len heads.new) }
    ensures succeeds { vec_len heads.old + length book.now / size_of 0 0 ≤ vec_capacity heads.old → is_ok result ≡ true }
{
    let mut lists = Lists::new();
    // a `while`: how far the next account reaches is known only once it is read
    let mut start = 0;
    while start < book.len() {
        match read_head(book, start, &mut lists) {
            Ok(read) => {
                heads.push(read.head)?;
                start = read.end;
            }
            Err(fault) => return Ok(Some(fault)),
        }
    }
    Ok(None)
}

// The five numbers of the account at this place, and the place after it; its readings and writes go into these lists.
fn read_head(book: &[u8], start: usize, lists: &mut Lists) -> Result<AccountAt, BookFault>
    ensures { AccountOrRefused book.now start result }
{
    let found = account_at(book, start, lists)?;
    Ok(found.account().located(start))
}

/// A listing's text: a line for each account with its five numbers; then `end` and the number of accounts, or `bad`, the
/// number of the refusal and the place of the refused account.
#[derive(Clone, Copy)]
pub struct Listing<'a> {
    /// The five numbers of each account.
    pub heads: &'a [AccountHead],
    /// The fault of the account at which the reading ended; none at the end of the book.
    pub ending: Option<BookFault>,
}

impl fmt::Display for Listing<'_> {
    ghost output = { λ l. Some (listing_text l.heads.now l.ending) };

    fn fmt<W: fmt::Write>(&self, f: &mut fmt::Formatter<W>) -> fmt::Result {
        for head in self.heads {
            writeln!(f, "{head}")?;
        }
        match self.ending {
            None => writeln!(f, "end {}", self.heads.len()),
            Some(BookFault { fault, start }) => {
                writeln!(f, "bad {} {start}", fault.refusal.number())
            }
        }
    }
}
