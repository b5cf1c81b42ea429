//! How much a chain may hold.

/// The most keys in a chain's write set, and the most readings of a chain.
#[derive(Clone, Copy)]
pub struct ChainLimits {
    /// The most keys in a write set.
    pub write_keys: usize,
    /// The most readings.
    pub readings: usize,
}
