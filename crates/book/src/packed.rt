//! Records of a fixed size, packed one after another, and where the parts of an account begin.
ghost use Rattle.std.specs.Prelude.{◌≡◌, ℕ, ◌+◌, ◌*◌, ◌≤◌, List, length, refl};
ghost use Rattle.std.specs.List.{flat_map};
ghost use Rattle.snapshot.specs.Limits.{chain_readings, write_keys};
ghost use Rattle.snapshot.specs.Overwriting.{overwritten};
ghost use Rattle.book.specs.Bytes.{records_from};
ghost use Rattle.book.specs.Format.{head_size, reading_bytes, reading_from, reading_size, size_of, write_bytes, write_from, write_size};

use arrayvec::ArrayVec;
use byteorder::{BigEndian, ByteOrder};
use snapshot::{ChainReading, Reading, Write};

// How many bytes stand before the readings.
pub(crate) const HEAD_SIZE: usize = 28;

// How many bytes stand before the writes of an account with so many readings.
pub(crate) fn writes_place(readings: usize) -> usize
    requires { readings ≤ chain_readings }
    ensures { result ≡ head_size + reading_size * readings }
{
    HEAD_SIZE + ChainReading::SIZE * readings
}

// How many bytes an account of so many readings and writes has.
pub(crate) fn account_size(readings: usize, writes: usize) -> usize
    requires readings { readings ≤ chain_readings }
    requires writes { writes ≤ write_keys }
    ensures { result ≡ size_of readings writes }
{
    writes_place(readings) + Write::SIZE * writes + 1
}

// A record that has always the same number of bytes.
pub(crate) trait Packed: Sized {
    ghost SIZE: { ℕ };

    ghost packed: { Self → List ℕ };

    ghost unpacked: { List ℕ → Self };

    ghost sized: { (x : Self) → length (packed x) ≡ SIZE };

    const SIZE: usize;

    // Puts the record's bytes to the front of the room.
    fn pack(&self, room: &mut [u8])
        requires { SIZE ≤ length room.old }
        ensures { room.new ≡ overwritten (packed self.now) room.old };

    // The record at the front of the bytes.
    fn unpack(bytes: &[u8]) -> Self
        requires { SIZE ≤ length bytes.now }
        ensures { result ≡ unpacked bytes.now };
}

impl Packed for ChainReading {
    ghost SIZE = { reading_size };

    ghost packed = { reading_bytes };

    ghost unpacked = { reading_from };

    ghost sized = { λ _. refl };

    const SIZE: usize = 22;

    fn pack(&self, room: &mut [u8]) {
        room[0] = self.worker;
        room[1] = self.key;
        BigEndian::write_u32(&mut room[2..], self.reading.value);
        BigEndian::write_u64(&mut room[6..], self.reading.timestamp);
        BigEndian::write_u64(&mut room[14..], self.reading.promise);
    }

    fn unpack(bytes: &[u8]) -> ChainReading {
        ChainReading {
            worker: bytes[0],
            key: bytes[1],
            reading: Reading {
                value: BigEndian::read_u32(&bytes[2..]),
                timestamp: BigEndian::read_u64(&bytes[6..]),
                promise: BigEndian::read_u64(&bytes[14..]),
            },
        }
    }
}

impl Packed for Write {
    ghost SIZE = { write_size };

    ghost packed = { write_bytes };

    ghost unpacked = { write_from };

    ghost sized = { λ _. refl };

    const SIZE: usize = 5;

    fn pack(&self, room: &mut [u8]) {
        room[0] = self.key;
        BigEndian::write_u32(&mut room[1..], self.value);
    }

    fn unpack(bytes: &[u8]) -> Write {
        Write {
            key: bytes[0],
            value: BigEndian::read_u32(&bytes[1..]),
        }
    }
}

// Puts records one after another to the front of the room. By number, since of what is lent to
// `chunks_exact_mut` only the length is known afterwards; and so does `unpack_all`.
pub(crate) fn pack_all<T: Packed>(records: &[T], room: &mut [u8])
    requires { T.SIZE * length records.now ≤ length room.old }
    ensures { room.new ≡ overwritten (flat_map T.packed records.now) room.old }
{
    for (i, record) in records.iter().enumerate() {
        record.pack(&mut room[T::SIZE * i..]);
    }
}

// Fills the list with the records that stand one after another at the front of the bytes, so many, and nothing else.
#[tactic(auto, using(crate::proofs::Records::length_records))]
pub(crate) fn unpack_all<T: Packed + Default + Drop, const MOST: usize>(
    bytes: &[u8],
    count: usize,
    records: &mut ArrayVec<T, MOST>,
)
    requires room { count ≤ MOST }
    requires fits { T.SIZE * count ≤ length bytes.now }
    ensures { records.new.items ≡ records_from T.unpacked T.SIZE count bytes.now }
{
    records.clear();
    for i in 0..count {
        records.push(T::unpack(&bytes[T::SIZE * i..]));
    }
}
