//! Reading an account at a place of a book into two lists of the caller's.
ghost use Rattle.std.specs.Prelude.{◌≡◌, ◌+◌, ◌^◌, ◌<◌, ◌≤◌, [], length, drop, IfOk, Ok};
ghost use Rattle.snapshot.specs.Accounts.{head_of};
ghost use Rattle.snapshot.specs.Limits.{chain_readings, write_keys};
ghost use Rattle.snapshot.specs.Overwriting.{overwritten};
ghost use Rattle.book.specs.Calls.{faulted, located, read_at, filled_readings, filled_writes};
ghost use Rattle.book.specs.Format.{account_from, account_bytes, counts_in, framed, front_account, size_of, as_account};
ghost use Rattle.book.specs.Theorems.{AcceptedOnly, BeginsWithWritten};

use crate::account::Account;
use crate::lawful::LawfulAccount;
use crate::packed::{HEAD_SIZE, account_size, unpack_all, writes_place};
use crate::sum::last_byte;
use crate::writer::MARK;
use arrayvec::ArrayVec;
use byteorder::{BigEndian, ByteOrder};
use snapshot::{
    AccountHead, BookFault, CHAIN_READINGS, ChainReading, Interval, Refusal, WRITE_KEYS, Write,
};
use std::marker::Model;

/// An account's five numbers, and the place after its bytes.
#[derive(Clone, Copy, PartialEq, Eq, Debug)]
pub struct AccountAt {
    /// The account's five numbers.
    pub head: AccountHead,
    /// The byte place after the account, from the start of the book.
    pub end: usize,
}

// How many readings and writes an account has.
#[derive(Clone, Copy)]
pub(crate) struct Counts {
    readings: usize,
    writes: usize,
}

// Memory for the readings and the writes of one account.
#[derive(Drop)]
pub(crate) struct Lists {
    readings: ArrayVec<ChainReading, CHAIN_READINGS>,
    writes: ArrayVec<Write, WRITE_KEYS>,
}

impl Lists {
    // Both empty.
    pub(crate) fn new() -> Lists
        ensures readings { result.readings.items ≡ [] }
        ensures writes { result.writes.items ≡ [] }
    {
        Lists {
            readings: ArrayVec::new(),
            writes: ArrayVec::new(),
        }
    }
}

// A lawful account that was found in a book; its readings and writes are lent.
#[derive(Drop)]
pub(crate) struct Found<'m> {
    lawful: LawfulAccount<'m>,
}

impl<'m> Model for Found<'m> {
    ghost use Rattle.snapshot.specs.Accounts.{Account};
    ghost use Rattle.book.specs.Format.{as_account};

    ghost Value = { Account };

    ghost view = { λ f. as_account f.lawful.account };
}

impl<'m> Found<'m> {
    pub(crate) fn account(&self) -> LawfulAccount<'m>
        ensures { as_account result.account ≡ self.now }
    {
        self.lawful
    }
}

impl LawfulAccount<'_> {
    // The five numbers, and the place after the account's bytes where they begin at this one.
    pub(crate) fn located(&self, start: usize) -> AccountAt
        requires { start + length (account_bytes (as_account self.now.account)) < 2 ^ 64 }
        ensures head { result.head ≡ head_of (as_account self.now.account) }
        ensures end { result.end ≡ start + length (account_bytes (as_account self.now.account)) }
    {
        AccountAt {
            head: AccountHead {
                interval: self.account.interval,
                timestamp: self.account.timestamp,
                readings: self.account.readings.len(),
                writes: self.account.writes.len(),
            },
            end: start + self.size(),
        }
    }
}

/// Reads the account at this place of the book into the starts of the two lists, and answers its five numbers and the
/// place after it. Checks, in this order: four bytes present, mark, counts, full length, last byte, the other rules, lists
/// long enough. A refusal leaves both lists as they were. Any place may be named, also past the end.
pub fn read_account(
    book: &[u8],
    start: usize,
    readings: &mut [ChainReading],
    writes: &mut [Write],
) -> Result<AccountAt, BookFault>
    ensures value { result ≡ faulted start (located start (read_at book.now start (length readings.old) (length writes.old))) }
    ensures readings { readings.new ≡ overwritten (filled_readings (read_at book.now start (length readings.old) (length writes.old))) readings.old }
    ensures writes { writes.new ≡ overwritten (filled_writes (read_at book.now start (length readings.old) (length writes.old))) writes.old }
    ensures written { AcceptedOnly book.now start result readings.new writes.new }
{
    let mut lists = Lists::new();
    let found = account_at(book, start, &mut lists)?.account();
    let account = found.account;
    if readings.len() < account.readings.len() || writes.len() < account.writes.len() {
        return Err(BookFault::new(Refusal::TooShort, start));
    }
    fill(readings, account.readings);
    fill(writes, account.writes);
    Ok(found.located(start))
}

// The account at this place of the book, its readings and writes in these lists.
#[tactic(auto, using(crate::proofs::Reading::accepted_at))]
pub(crate) fn account_at<'m>(
    book: &[u8],
    start: usize,
    lists: &'m mut Lists,
) -> Result<Found<'m>, BookFault>
    ensures value { result ≡ faulted start (front_account (drop start book.now)) }
    ensures written { IfOk result (BeginsWithWritten (drop start book.now)) }
{
    front_account(from_place(book, start), lists).map_err(|refusal| BookFault::new(refusal, start))
}

// The account at the front of the bytes, its readings and writes in these lists.
fn front_account<'m>(bytes: &[u8], lists: &'m mut Lists) -> Result<Found<'m>, Refusal>
    ensures { result ≡ front_account bytes.now }
{
    let counts = check_frame(bytes)?;
    let Some(lawful) = decode(bytes, counts, lists).lawful() else {
        return Err(Refusal::Unlawful);
    };
    Ok(Found { lawful })
}

// The counts of the account at the front of the bytes; refused where the account is cut short, its mark or its last byte
// is wrong, or a count is out of range.
fn check_frame(bytes: &[u8]) -> Result<Counts, Refusal>
    ensures value { result ≡ framed bytes.now (Ok (counts_in bytes.now)) }
    ensures fits { IfOk result (λ k. (k.readings ≤ chain_readings) × (k.writes ≤ write_keys) × (size_of k.readings k.writes ≤ length bytes.now)) }
{
    let [first, second, n, m, rest @ ..] = bytes else {
        return Err(Refusal::AccountCut);
    };
    if [*first, *second] != MARK {
        return Err(Refusal::WrongMark);
    }
    let readings = usize::from(*n);
    let writes = usize::from(*m);
    if readings > CHAIN_READINGS || writes > WRITE_KEYS {
        return Err(Refusal::Unlawful);
    }
    let last = account_size(readings, writes) - 1;
    if rest.len() + 4 <= last {
        return Err(Refusal::AccountCut);
    }
    if bytes[last] != last_byte(&bytes[..last]) {
        return Err(Refusal::WrongLastByte);
    }
    Ok(Counts { readings, writes })
}

// The account that the bytes tell, each field at its place; its readings and writes are unpacked into these lists.
fn decode<'m>(bytes: &[u8], counts: Counts, lists: &'m mut Lists) -> Account<'m>
    requires counts { counts ≡ counts_in bytes.now }
    requires readings { counts.readings ≤ chain_readings }
    requires writes { counts.writes ≤ write_keys }
    requires fits { size_of counts.readings counts.writes ≤ length bytes.now }
    ensures { as_account result ≡ account_from bytes.now }
{
    unpack_all(&bytes[HEAD_SIZE..], counts.readings, &mut lists.readings);
    unpack_all(
        &bytes[writes_place(counts.readings)..],
        counts.writes,
        &mut lists.writes,
    );
    Account {
        interval: Interval {
            low: BigEndian::read_u64(&bytes[4..]),
            high: BigEndian::read_u64(&bytes[12..]),
        },
        timestamp: BigEndian::read_u64(&bytes[20..]),
        readings: lists.readings.as_slice(),
        writes: lists.writes.as_slice(),
    }
}

// The bytes from a place on; none past the end.
fn from_place(book: &[u8], start: usize) -> &[u8]
    ensures { result.now ≡ drop start book.now }
{
    book.get(start..).unwrap_or(&[])
}

// Replaces the first elements of the list by these.
fn fill<T: Copy>(list: &mut [T], new: &[T])
    requires { length new.now ≤ length list.old }
    ensures { list.new ≡ overwritten new.now list.old }
{
    list[..new.len()].copy_from_slice(new);
}
