//! The engine: open chains with their legs, workers' caches and notices over any store. Its calls are the methods of `Engine`;
//! `perform` makes one that is given as a value, `run` and `run_over` a list of them. What they take and answer is passed on here.
#![tactic(auto)]

mod answer;
mod chain;
mod engine;
mod leg;
mod named;
mod perform;
mod place;
mod runs;
mod state;
mod worker;

pub use answer::{Answer, CommittedAccount};
pub use engine::Engine;
pub use engine_model::Call;
pub use runs::{run, run_over};
pub use snapshot::{
    AccountHead, ChainReading, EngineFault, Fault, Interval, Layer, NO_READING, NO_WRITE, Reading,
    Refusal, Write,
};
