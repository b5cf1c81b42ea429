//! A store of records over any memory that holds them: up to 16 versions of a key, oldest first. Its rules, its laws and its
//! proofs are written once, for every such memory; a slice of records is one.
#![tactic(auto)]

mod adding;
mod dropping;
mod looking;
mod memory;
mod slice;
mod stores;
mod table;

pub use memory::RecordMemory;
pub use stores::RecordStore;
pub use table::Table;
