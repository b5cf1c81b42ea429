//! A table: the store of records over a slice that a caller lends. It is fit for a table with 64 to 1,024 records.
ghost use Rattle.std.specs.Prelude.{◌≡◌, true, length};
ghost use Rattle.records.specs.Slices.{is_table_size};
ghost use Rattle.record_store.specs.Tables.{HoldsOnly, memory_check, table_meaning};

use crate::slice::is_fit;
use crate::stores::RecordStore;
use records::Record;
use snapshot::{Fault, Layer, Refusal};

/// A table store: versions of 64 keys in records that a caller lends, at most 16 of each key, and as many in all as there are
/// records.
pub type Table<'a> = RecordStore<&'a mut [Record]>;

impl<'a> RecordStore<&'a mut [Record]> {
    /// Refuses memory of fewer than 64 or more than 1,024 records (17).
    pub fn check(memory: &[Record]) -> Result<(), Fault>
        ensures { result ≡ memory_check (length memory.now) }
    {
        if is_fit(memory) {
            Ok(())
        } else {
            Err(Fault::unnamed(Refusal::UnfitMemory, Layer::Store))
        }
    }

    /// The memory as it is now: the kept versions from its start, by timestamp, then key, and zeros after them.
    pub fn records(&self) -> &[Record]
        ensures value { result.now ≡ self.now.memory.now }
        ensures laid { is_table_size (length self.now.memory.now) ≡ true → HoldsOnly (table_meaning self.now.memory.now self.now.kept self.now.last) result.now }
    {
        self.memory
    }
}
