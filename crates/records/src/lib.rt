//! Records of versions, in the order in which a store keeps them: what a list of them means, and numbers for each key.
#![tactic(auto)]

mod per_key;
mod record;

pub use per_key::PerKey;
pub use record::{NO_RECORD, Record};
