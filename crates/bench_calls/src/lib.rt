//! Lists of calls made on an engine, and a book read account by account, for a program in another language that measures how
//! long that takes: `bench/` at the top of the repository. Each function answers the wrapping sum of all numbers that were
//! answered, so that both sides can be held to the same answers. Nothing else stands on this crate, and its contracts say only
//! that it is safe and ends.
#![tactic(auto)]

pub mod book_read;
pub mod calls_made;
