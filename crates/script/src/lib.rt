//! Scripts of engine calls: what a line says, how a call and its answer are shown, and the playing of a script.
#![tactic(auto)]

mod append;
mod bad_line;
mod error;
mod line;
mod line_reader;
mod number;
mod outputs;
mod parsing;
mod playing;
mod request;
mod show;
mod words;
mod writing;

pub use append::Append;
pub use bad_line::{BadLine, Wanted};
pub use engine::{Answer, Call, Fault};
pub use error::PlayError;
pub use line::{Line, Request, StoreKind};
pub use outputs::Outputs;
pub use parsing::parse;
pub use playing::play;
