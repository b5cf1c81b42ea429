//! Writing an account into a buffer of the caller's.
ghost use Rattle.std.specs.Prelude.{◌≡◌, ◌≤◌, true, length, is_ok};
ghost use Rattle.snapshot.specs.Overwriting.{overwritten};
ghost use Rattle.book.specs.Calls.{buffer_after, faulted, writing};
ghost use Rattle.book.specs.Format.{account_bytes, head_bytes, head_size, as_account};
ghost use Rattle.book.specs.Theorems.{ReadsBackAnywhere};

use crate::account::Account;
use crate::lawful::LawfulAccount;
use crate::packed::{HEAD_SIZE, account_size, pack_all, writes_place};
use crate::sum::last_byte;
use byteorder::{BigEndian, ByteOrder};
use snapshot::{BookFault, CHAIN_READINGS, Refusal, WRITE_KEYS};

/// The two bytes with which an account begins.
pub const MARK: [u8; 2] = [0xC3, 0x3C];

/// How many bytes the longest account has, 773: 29 for its head and its last byte, 22 for a reading and 5 for a write.
pub const LONGEST_ACCOUNT: usize = 29 + 22 * CHAIN_READINGS + 5 * WRITE_KEYS;

impl Account<'_> {
    /// Writes the account to the start of the buffer and answers its length. Refuses an unlawful account, then a buffer
    /// that is too short; a refusal leaves the buffer as it was.
    #[tactic(auto, using(crate::proofs::Writing::reads_back_anywhere))]
    pub fn write(&self, buffer: &mut [u8]) -> Result<usize, BookFault>
        ensures value { result ≡ faulted 0 (writing (as_account self.now) (length buffer.old)) }
        ensures after { buffer.new ≡ buffer_after (as_account self.now) buffer.old }
        ensures back { is_ok result ≡ true → ReadsBackAnywhere (as_account self.now) }
    {
        let Some(account) = self.lawful() else {
            return Err(BookFault::new(Refusal::Unlawful, 0));
        };
        let size = account.size();
        if buffer.len() < size {
            return Err(BookFault::new(Refusal::TooShort, 0));
        }
        account.put(buffer);
        Ok(size)
    }
}

impl LawfulAccount<'_> {
    // How many bytes the account has.
    #[tactic(auto, using(crate::proofs::RoundTrip::takes_its_size))]
    pub(crate) fn size(&self) -> usize
        ensures { result ≡ length (account_bytes (as_account self.now.account)) }
    {
        account_size(self.account.readings.len(), self.account.writes.len())
    }

    // Puts the account's bytes to the start of the buffer.
    #[tactic(auto, using(crate::proofs::RoundTrip::takes_its_size))]
    fn put(&self, buffer: &mut [u8])
        requires { length (account_bytes (as_account self.now.account)) ≤ length buffer.old }
        ensures { buffer.new ≡ overwritten (account_bytes (as_account self.now.account)) buffer.old }
    {
        self.put_head(buffer);
        pack_all(self.account.readings, &mut buffer[HEAD_SIZE..]);
        pack_all(
            self.account.writes,
            &mut buffer[writes_place(self.account.readings.len())..],
        );
        let last = self.size() - 1;
        buffer[last] = last_byte(&buffer[..last]);
    }

    // Puts the mark, the counts, low, high and timestamp before the readings.
    fn put_head(&self, buffer: &mut [u8])
        requires { head_size ≤ length buffer.old }
        ensures { buffer.new ≡ overwritten (head_bytes (as_account self.now.account)) buffer.old }
    {
        buffer[..2].copy_from_slice(&MARK);
        // `as`, since the lists of a lawful account are short
        buffer[2] = self.account.readings.len() as u8;
        buffer[3] = self.account.writes.len() as u8;
        BigEndian::write_u64(&mut buffer[4..], self.account.interval.low);
        BigEndian::write_u64(&mut buffer[12..], self.account.interval.high);
        BigEndian::write_u64(&mut buffer[20..], self.account.timestamp);
    }
}
