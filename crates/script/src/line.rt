//! What a line of a script says.

use crate::bad_line::BadLine;
use engine_model::Call;

/// The kind of store that a script asks for; a table has so many records, 0 to 1,024.
#[derive(Clone, Copy, Debug, PartialEq, Eq)]
pub enum StoreKind {
    /// The newest store.
    Newest,
    /// A table in memory of so many records.
    Table { records: usize },
}

/// A call as a script names it. Only a commit names rooms, and need not: without them its lists have room for all that a
/// chain may hold.
#[derive(Clone, Copy, Debug, PartialEq, Eq)]
pub struct Request {
    /// The call.
    pub call: Call,
    /// Does a commit name the rooms of its lists?
    pub names_rooms: bool,
}

/// What a line says.
#[derive(Clone, Copy, Debug, PartialEq, Eq)]
pub enum Line {
    /// Nothing: it has no word, or is a comment.
    Blank,
    /// It says none of the others, for this reason.
    Bad(BadLine),
    /// Over which store the script is to be played.
    Store(StoreKind),
    /// A call.
    Call(Request),
}
