//! A record of one version.

/// One version of one key: in this order of its fields a record takes 16 bytes.
#[derive(Clone, Copy, PartialEq, Eq, Debug)]
#[repr(C)]
pub struct Record {
    /// The time of the commit that wrote it, 0 for a new store's.
    pub timestamp: u64,
    /// The value, 0 to 2^32 - 1.
    pub value: u32,
    /// The key, 0 to 63.
    pub key: u8,
}

/// What stands where there is no record.
pub const NO_RECORD: Record = Record {
    timestamp: 0,
    value: 0,
    key: 0,
};
