//! How calls, answers and refusals are shown.
ghost use Rattle.std.specs.Prelude.{◌≡◌, ◌≤◌, ◌∷◌, ◌++◌, OnOk, true, false, length, MatchResult};
ghost use Rattle.std.specs.List.{flat_map};
ghost use Rattle.snapshot.specs.Accounts.{lawful};
ghost use Rattle.snapshot.specs.Refusals.{book_fault};
ghost use Rattle.snapshot.specs.Shown.{layer_text, line_break};
ghost use Rattle.snapshot.specs.declared.fault.Refusal.TheVariants as refusal;
ghost use Rattle.book.specs.Format.{account_bytes, as_account};
ghost use Rattle.script.specs.Shown as spec;

use crate::append::{Append, append_numbers};
use crate::line::{Request, StoreKind};
use book::{Account, LONGEST_ACCOUNT};
use engine::{Answer, CommittedAccount};
use engine_model::Call;
use snapshot::{ChainReading, Fault, Layer, Reading, Write};
use std::alloc::AllocError;

// The kind's word; of a table also how many records it has.
impl Append for StoreKind {
    ghost text = { spec.store_text };

    fn append(&self, line: &mut Vec<u8>) -> Result<(), AllocError> {
        match *self {
            StoreKind::Newest => line.extend_from_slice(b"store newest"),
            StoreKind::Table { records } => append_numbers(b"store table", &[records as u64], line),
        }
    }
}

// The call's word and numbers, joined by single spaces; a commit's rooms where they were named.
impl Append for Request {
    ghost text = { spec.request_text };

    fn append(&self, line: &mut Vec<u8>) -> Result<(), AllocError> {
        match self.call {
            Call::Begin { place, worker } => {
                append_numbers(b"begin", &[place.into(), worker.into()], line)
            }
            Call::Hand { place, leg, worker } => {
                append_numbers(b"hand", &[place.into(), leg.into(), worker.into()], line)
            }
            Call::Fork {
                place,
                leg,
                first_worker,
                second_worker,
            } => append_numbers(
                b"fork",
                &[
                    place.into(),
                    leg.into(),
                    first_worker.into(),
                    second_worker.into(),
                ],
                line,
            ),
            Call::Join {
                place,
                first_leg,
                second_leg,
                worker,
            } => append_numbers(
                b"join",
                &[
                    place.into(),
                    first_leg.into(),
                    second_leg.into(),
                    worker.into(),
                ],
                line,
            ),
            Call::Read { place, leg, key } => {
                append_numbers(b"read", &[place.into(), leg.into(), key.into()], line)
            }
            Call::Write {
                place,
                leg,
                key,
                value,
            } => append_numbers(
                b"write",
                &[place.into(), leg.into(), key.into(), value.into()],
                line,
            ),
            Call::Commit {
                place,
                leg,
                clock,
                readings_room,
                writes_room,
            } => {
                if self.names_rooms {
                    append_numbers(
                        b"commit",
                        &[
                            place.into(),
                            leg.into(),
                            clock,
                            readings_room as u64,
                            writes_room as u64,
                        ],
                        line,
                    )
                } else {
                    append_numbers(b"commit", &[place.into(), leg.into(), clock], line)
                }
            }
            Call::Abandon { place } => append_numbers(b"abandon", &[place.into()], line),
            Call::Deliver { position } => append_numbers(b"deliver", &[position], line),
            Call::Discard { position } => append_numbers(b"discard", &[position], line),
            Call::Count => line.extend_from_slice(b"count"),
            Call::Prune { horizon } => append_numbers(b"prune", &[horizon], line),
        }
    }
}

// Adds what a call came to: the answer's word and its values, or an account or a refusal.
pub(crate) fn append_outcome(
    outcome: Result<&Answer, Fault>,
    line: &mut Vec<u8>,
) -> Result<(), AllocError>
    ensures { OnOk result (line.new.items ≡ line.old.items ++ spec.outcome_text (spec.lent_outcome outcome.entry)) }
{
    match outcome {
        Ok(Answer::Leg(leg)) => append_numbers(b"leg", &[u64::from(*leg)], line),
        Ok(Answer::Legs(first, second)) => {
            append_numbers(b"legs", &[u64::from(*first), u64::from(*second)], line)
        }
        Ok(Answer::Value(value)) => append_numbers(b"value", &[u64::from(*value)], line),
        Ok(Answer::Count(waiting, lost)) => {
            append_numbers(b"waiting", &[*waiting as u64], line)?;
            append_numbers(b" lost", &[*lost], line)
        }
        Ok(Answer::Account(committed)) => account_of(committed).append(line),
        Ok(Answer::Done) => line.extend_from_slice(b"done"),
        Err(fault) => fault.append(line),
    }
}

// The committed chain's account, as the book has it.
pub(crate) fn account_of(committed: &CommittedAccount) -> Account<'_>
    ensures { as_account result ≡ committed.now }
{
    let head = committed.head();
    Account {
        interval: head.interval,
        timestamp: head.timestamp,
        readings: committed.readings(),
        writes: committed.writes(),
    }
}

// A refusal: its number, the layer that refused, and the place, leg and key that the call named.
impl Append for Fault {
    ghost text = { spec.fault_text };

    fn append(&self, line: &mut Vec<u8>) -> Result<(), AllocError> {
        let Fault {
            refusal,
            layer,
            place,
            leg,
            key,
        } = *self;
        append_numbers(b"refused", &[refusal.number().into()], line)?;
        let named = [place.into(), leg.into(), key.into()];
        append_numbers(layer_word(layer), &named, line)
    }
}

// The layer's word, behind a space.
fn layer_word(layer: Layer) -> &'static [u8]
    ensures { result.now ≡ 32 ∷ layer_text layer }
{
    match layer {
        Layer::Chain => b" chain",
        Layer::Store => b" store",
        Layer::Notices => b" notices",
        Layer::Book => b" book",
    }
}

// An account: a line with its five numbers, one for each reading and each write, and one with its bytes in the book.
impl Append for Account<'_> {
    ghost text = { λ account. spec.account_text (as_account account) };

    fn append(&self, line: &mut Vec<u8>) -> Result<(), AllocError> {
        let Account {
            interval,
            timestamp,
            readings,
            writes,
        } = *self;
        append_numbers(
            b"account",
            &[
                interval.low,
                interval.high,
                timestamp,
                readings.len() as u64,
                writes.len() as u64,
            ],
            line,
        )?;
        append_readings(readings, line)?;
        append_writes(writes, line)?;
        line.extend_from_slice(b"\n  book ")?;
        append_book(self, line)
    }
}

// Adds a line for each reading: worker, key, value, timestamp and promise.
fn append_readings(readings: &[ChainReading], line: &mut Vec<u8>) -> Result<(), AllocError>
    ensures { OnOk result (line.new.items ≡ line.old.items ++ flat_map spec.reading_line readings.now) }
{
    for made in readings {
        let ChainReading {
            worker,
            key,
            reading: Reading {
                value,
                timestamp,
                promise,
            },
        } = *made;
        append_numbers(
            b"\n  reading",
            &[worker.into(), key.into(), value.into(), timestamp, promise],
            line,
        )?;
    }
    Ok(())
}

// Adds a line for each write: key and value.
fn append_writes(writes: &[Write], line: &mut Vec<u8>) -> Result<(), AllocError>
    ensures { OnOk result (line.new.items ≡ line.old.items ++ flat_map spec.write_line writes.now) }
{
    for write in writes {
        let Write { key, value } = *write;
        append_numbers(b"\n  write", &[key.into(), value.into()], line)?;
    }
    Ok(())
}

// Adds the bytes that the book's writer gives for an account; the refusal of an account that it does not take. Only an account
// pays for the buffers, which a function clears when it is entered.
#[inline(never)]
fn append_book(account: &Account, line: &mut Vec<u8>) -> Result<(), AllocError>
    ensures { OnOk result (line.new.items ≡ line.old.items ++ spec.book_text (as_account account.now)) }
{
    let mut buffer = [0; LONGEST_ACCOUNT];
    match book_bytes(account, &mut buffer) {
        Ok(bytes) => append_hex(bytes, line),
        Err(fault) => fault.append(line),
    }
}

// Adds bytes in hexadecimal, two digits for each.
fn append_hex(bytes: &[u8], line: &mut Vec<u8>) -> Result<(), AllocError>
    requires { length bytes.now ≤ 773 }
    ensures { OnOk result (line.new.items ≡ line.old.items ++ flat_map spec.hex_byte bytes.now) }
{
    let mut buffer = [0; 2 * LONGEST_ACCOUNT];
    let digits = &mut buffer[..2 * bytes.len()];
    let encoded = hex::encode_to_slice(bytes, &mut *digits);
    prove!(encoded.is_ok());
    line.extend_from_slice(digits)
}

// The bytes of the account, which the book's writer puts into the buffer, or its refusal of an unlawful account.
pub(crate) fn book_bytes<'a>(
    account: &Account,
    buffer: &'a mut [u8; LONGEST_ACCOUNT],
) -> Result<&'a [u8], Fault>
    ensures { MatchResult result (λ bytes. (length bytes.now ≤ 773) × (lawful (as_account account.now) ≡ true) × (bytes.now ≡ account_bytes (as_account account.now))) (λ fault. (lawful (as_account account.now) ≡ false) × (fault ≡ (book_fault refusal.Unlawful 0).fault)) }
{
    match account.write(buffer) {
        Ok(size) => Ok(&buffer[..size]),
        Err(refused) => Err(refused.fault),
    }
}
