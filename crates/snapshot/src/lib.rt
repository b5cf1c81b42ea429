//! The vocabulary of the engine: limits, readings, intervals, refusals and faults, and finding a record by its key.
#![tactic(auto)]

mod account;
mod fault;
mod interval;
mod keyed;
mod limits;
mod writes;

pub use account::{AccountHead, ChainReading, NO_READING, NO_WRITE, Reading, Write};
pub use fault::{BookFault, EngineFault, Fault, Layer, NOT_NAMED, Refusal};
pub use interval::Interval;
pub use keyed::{Keyed, find};
pub use limits::{
    CACHE_KEYS, CHAIN_READINGS, KEYS, LEAST_RECORDS, LEGS, MOST_RECORDS, OPEN_END, PLACES,
    WAITING_NOTICES, WORKERS, WRITE_KEYS, is_key, is_leg, is_place, is_time, is_timestamp,
    is_worker,
};
pub use writes::are_rising;
