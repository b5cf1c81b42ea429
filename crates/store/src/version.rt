//! What a store keeps of a key.

/// A version of a key: the value that a commit gave it, and that commit's timestamp.
#[derive(Clone, Copy, PartialEq, Eq, Debug)]
pub struct Version {
    /// The timestamp, 0 for a new store's version.
    pub timestamp: u64,
    /// The value, 0 to 2^32 - 1.
    pub value: u32,
}
