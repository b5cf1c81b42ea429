//! Tests of the engine in Rust, of what a script does not show: which queries a call sends to the store, the store's own
//! fault inside the engine's, the caller's lists behind what a commit fills, memory, lists of calls, accounts in a book,
//! refusals and faults as text and as errors, answers compared and shown, and two of the engine's parts: caches and lists of bounded length. What is printed of calls and answers is tested by the
//! scripts of `script_tests`. And a proved caller: a list of calls over a table in memory that is lent.
#![tactic(auto)]

#[cfg(test)]
mod books;
#[cfg(test)]
mod builders;
#[cfg(test)]
mod caches;
#[cfg(test)]
mod caller_lists;
#[cfg(test)]
mod faults;
pub mod lent_memory;
#[cfg(test)]
mod lists;
#[cfg(test)]
mod memory;
#[cfg(test)]
mod runs;
#[cfg(test)]
mod store_queries;
#[cfg(test)]
mod texts;
#[cfg(test)]
mod watched_store;
