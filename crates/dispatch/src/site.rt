//! The numbers of one warehouse: its keys, its workers, and the limits that its control room chooses.

/// The dock's zone: the number of the door at which its sensor last saw somebody, 0 for nobody.
pub const ZONE: u8 = 7;

/// The set record: 1 while the alarm is set.
pub const SET_RECORD: u8 = 8;

/// The keyholder on duty.
pub const KEYHOLDER: u8 = 9;

/// The guard's order: the door to go to.
pub const ORDER: u8 = 11;

/// The report: the door at which somebody was seen while the alarm was set.
pub const REPORT: u8 = 12;

/// The control room's own worker.
pub const FRONT: u8 = 6;

/// The worker that looks at the zone at the first attempt.
pub const ZONE_WORKER: u8 = 1;

/// The worker that looks at the set record at the first attempt.
pub const SET_WORKER: u8 = 2;

/// The worker that looks at the keyholder at the first attempt.
pub const KEYHOLDER_WORKER: u8 = 3;

/// The place of every chain here: one is open at a time.
pub const PLACE: u8 = 0;

/// How many records the table has: one for the first version of each of the 64 keys, and five more.
pub const RECORDS: usize = 69;

/// What was over before this time may be forgotten where the table is full.
pub const HORIZON: u64 = 30;

/// How often a chain is begun at most before it is given up.
pub const ATTEMPTS: u8 = 3;

/// What a key is called in print.
pub fn name(key: u8) -> &'static str {
    match key {
        ZONE => "the zone",
        SET_RECORD => "the set record",
        KEYHOLDER => "the keyholder",
        ORDER => "the guard's order",
        REPORT => "the report",
        _ => "another key",
    }
}
