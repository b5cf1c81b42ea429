//! What an engine is made of: lists of bounded length, caches, write sets, readings, and the list of notices.
#![tactic(auto)]

mod cache;
mod list;
mod notices;
mod readings;
mod write_set;

pub use cache::{CACHES, Cache, empty_caches};
pub use list::BoundedList;
pub use notices::Notices;
pub use readings::Readings;
pub use write_set::WriteSet;
