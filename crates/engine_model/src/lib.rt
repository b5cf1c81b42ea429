//! The calls of an engine's trace, the records that the engine keeps, and the law of traces, which is proved here of the
//! rules themselves.
#![tactic(auto)]

mod calls;
mod examples;
mod law;
mod limits;
mod records;

pub use calls::Call;
pub use examples::{break_in, read_from_cache, written_behind};
pub use law::trace_law;
pub use limits::ChainLimits;
pub use records::{CacheEntry, LegAndKey, LegReading, Notice};
