//! The book of accounts: an account's bytes, written and read, the reading of a whole book, and its listing.
#![tactic(auto)]

mod account;
mod lawful;
mod listing;
mod output;
mod packed;
mod reader;
mod sum;
mod writer;

pub use account::Account;
pub use listing::{Listing, read_book};
pub use output::{Extent, list_book, write_whole};
pub use reader::{AccountAt, read_account};
pub use sum::last_byte;
pub use writer::{LONGEST_ACCOUNT, MARK};
