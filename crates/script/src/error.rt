//! Why a script was not played to its end.

use std::io;
use thiserror::Error;

/// The cause of an error in playing.
#[derive(Debug, Drop, Error)]
pub enum PlayError {
    /// The script could not be read, or there was no memory for a line of it; the reader's error does not always say which.
    #[error("the script cannot be read: {0}")]
    Input(io::Error),
    /// The output did not take what was to be printed.
    #[error("the output cannot be written: {0}")]
    Output(io::Error),
    /// The book did not take the bytes of an account.
    #[error("the book cannot be written: {0}")]
    Book(io::Error),
    /// The messages did not take what was to be told of a bad line.
    #[error("the messages cannot be written: {0}")]
    Messages(io::Error),
    /// There was no memory for what a line prints or tells.
    #[error("there is no memory for what a line prints or tells")]
    Memory,
    /// The script has 2^64 - 1 lines or more.
    #[error("the script has too many lines")]
    TooManyLines,
}
