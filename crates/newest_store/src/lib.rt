//! A store that keeps the newest version of each key and nothing else.
#![tactic(auto)]

mod newest;

pub use newest::Newest;
