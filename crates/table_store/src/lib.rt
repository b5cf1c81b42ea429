//! The table store: the store of records over a slice that a caller lends, and lists of calls on one.
#![tactic(auto)]

mod runs;

pub use record_store::Table;
pub use records::{NO_RECORD, Record};
pub use runs::run_in;
