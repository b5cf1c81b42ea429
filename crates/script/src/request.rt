//! The calls, each from the words behind its own.
ghost use Rattle.std.specs.Prelude.{◌≡◌, map};
ghost use Rattle.script.specs.Lines.{call_of, request_of};
ghost use Rattle.script.specs.Requests as spec;

use crate::bad_line::{BadLine, Wanted};
use crate::line::Request;
use crate::number::number_in;
use engine_model::Call;
use snapshot::{CHAIN_READINGS, WRITE_KEYS};

// The call with this word and these words behind it, if there is such a call, with so many numbers, each in its range.
pub(crate) fn request(word: &[u8], operands: &[&[u8]]) -> Result<Request, BadLine>
    ensures { result ≡ request_of word.now (map (λ word. word.now) operands.now) }
{
    if word == b"commit".as_slice() {
        return commit(operands);
    }
    let call = plain_call(word, operands)?;
    Ok(Request {
        call,
        names_rooms: false,
    })
}

// Any call but commit.
fn plain_call(word: &[u8], operands: &[&[u8]]) -> Result<Call, BadLine>
    ensures { result ≡ call_of word.now (map (λ word. word.now) operands.now) }
{
    match word {
        b"begin" => begin(operands),
        b"hand" => hand(operands),
        b"fork" => fork(operands),
        b"join" => join(operands),
        b"write" => write(operands),
        b"read" => read(operands),
        b"abandon" => abandon(operands),
        b"deliver" => deliver(operands),
        b"discard" => discard(operands),
        b"count" => count(operands),
        b"prune" => prune(operands),
        _ => Err(BadLine::UnknownWord { place: 1 }),
    }
}

fn begin(operands: &[&[u8]]) -> Result<Call, BadLine>
    ensures { result ≡ spec.begin_of (map (λ word. word.now) operands.now) }
{
    let [place, worker] = operands else {
        return Err(miscounted(operands, Wanted::Exactly(3)));
    };
    let place = Operand::read(2, place)?;
    let worker = Operand::read(3, worker)?;
    Ok(Call::Begin {
        place: place.byte()?,
        worker: worker.byte()?,
    })
}

#[tactic(auto, using(crate::proofs::ListProofs::three))]
fn hand(operands: &[&[u8]]) -> Result<Call, BadLine>
    ensures { result ≡ spec.hand_of (map (λ word. word.now) operands.now) }
{
    let [place, leg, worker] = operands else {
        return Err(miscounted(operands, Wanted::Exactly(4)));
    };
    let place = Operand::read(2, place)?;
    let leg = Operand::read(3, leg)?;
    let worker = Operand::read(4, worker)?;
    Ok(Call::Hand {
        place: place.byte()?,
        leg: leg.byte()?,
        worker: worker.byte()?,
    })
}

#[tactic(auto, using(crate::proofs::ListProofs::four))]
fn fork(operands: &[&[u8]]) -> Result<Call, BadLine>
    ensures { result ≡ spec.fork_of (map (λ word. word.now) operands.now) }
{
    let [place, leg, first_worker, second_worker] = operands else {
        return Err(miscounted(operands, Wanted::Exactly(5)));
    };
    let place = Operand::read(2, place)?;
    let leg = Operand::read(3, leg)?;
    let first_worker = Operand::read(4, first_worker)?;
    let second_worker = Operand::read(5, second_worker)?;
    Ok(Call::Fork {
        place: place.byte()?,
        leg: leg.byte()?,
        first_worker: first_worker.byte()?,
        second_worker: second_worker.byte()?,
    })
}

#[tactic(auto, using(crate::proofs::ListProofs::four))]
fn join(operands: &[&[u8]]) -> Result<Call, BadLine>
    ensures { result ≡ spec.join_of (map (λ word. word.now) operands.now) }
{
    let [place, first_leg, second_leg, worker] = operands else {
        return Err(miscounted(operands, Wanted::Exactly(5)));
    };
    let place = Operand::read(2, place)?;
    let first_leg = Operand::read(3, first_leg)?;
    let second_leg = Operand::read(4, second_leg)?;
    let worker = Operand::read(5, worker)?;
    Ok(Call::Join {
        place: place.byte()?,
        first_leg: first_leg.byte()?,
        second_leg: second_leg.byte()?,
        worker: worker.byte()?,
    })
}

#[tactic(auto, using(crate::proofs::ListProofs::four))]
fn write(operands: &[&[u8]]) -> Result<Call, BadLine>
    ensures { result ≡ spec.write_of (map (λ word. word.now) operands.now) }
{
    let [place, leg, key, value] = operands else {
        return Err(miscounted(operands, Wanted::Exactly(5)));
    };
    let place = Operand::read(2, place)?;
    let leg = Operand::read(3, leg)?;
    let key = Operand::read(4, key)?;
    let value = Operand::read(5, value)?;
    Ok(Call::Write {
        place: place.byte()?,
        leg: leg.byte()?,
        key: key.byte()?,
        value: value.value()?,
    })
}

#[tactic(auto, using(crate::proofs::ListProofs::three))]
fn read(operands: &[&[u8]]) -> Result<Call, BadLine>
    ensures { result ≡ spec.read_of (map (λ word. word.now) operands.now) }
{
    let [place, leg, key] = operands else {
        return Err(miscounted(operands, Wanted::Exactly(4)));
    };
    let place = Operand::read(2, place)?;
    let leg = Operand::read(3, leg)?;
    let key = Operand::read(4, key)?;
    Ok(Call::Read {
        place: place.byte()?,
        leg: leg.byte()?,
        key: key.byte()?,
    })
}

// With three numbers, the rooms are those of all that a chain may hold; else the last two are the rooms.
fn commit(operands: &[&[u8]]) -> Result<Request, BadLine>
    ensures { result ≡ spec.commit_of (map (λ word. word.now) operands.now) }
{
    match operands {
        [place, leg, clock] => commit_of_all(place, leg, clock),
        [place, leg, clock, readings, writes] => commit_into(place, leg, clock, readings, writes),
        _ => Err(miscounted(operands, Wanted::Either(4, 6))),
    }
}

fn commit_of_all(place: &[u8], leg: &[u8], clock: &[u8]) -> Result<Request, BadLine>
    ensures { result ≡ spec.commit_of_all place.now leg.now clock.now }
{
    let place = Operand::read(2, place)?;
    let leg = Operand::read(3, leg)?;
    let clock = Operand::read(4, clock)?;
    Ok(Request {
        call: Call::Commit {
            place: place.byte()?,
            leg: leg.byte()?,
            clock: clock.number,
            readings_room: CHAIN_READINGS,
            writes_room: WRITE_KEYS,
        },
        names_rooms: false,
    })
}

fn commit_into(
    place: &[u8],
    leg: &[u8],
    clock: &[u8],
    readings: &[u8],
    writes: &[u8],
) -> Result<Request, BadLine>
    ensures { result ≡ spec.commit_into place.now leg.now clock.now readings.now writes.now }
{
    let place = Operand::read(2, place)?;
    let leg = Operand::read(3, leg)?;
    let clock = Operand::read(4, clock)?;
    let readings = Operand::read(5, readings)?;
    let writes = Operand::read(6, writes)?;
    Ok(Request {
        call: Call::Commit {
            place: place.byte()?,
            leg: leg.byte()?,
            clock: clock.number,
            readings_room: readings.room(CHAIN_READINGS)?,
            writes_room: writes.room(WRITE_KEYS)?,
        },
        names_rooms: true,
    })
}

fn abandon(operands: &[&[u8]]) -> Result<Call, BadLine>
    ensures { result ≡ spec.abandon_of (map (λ word. word.now) operands.now) }
{
    let [place] = operands else {
        return Err(miscounted(operands, Wanted::Exactly(2)));
    };
    let place = Operand::read(2, place)?;
    Ok(Call::Abandon {
        place: place.byte()?,
    })
}

fn deliver(operands: &[&[u8]]) -> Result<Call, BadLine>
    ensures { result ≡ spec.deliver_of (map (λ word. word.now) operands.now) }
{
    let [position] = operands else {
        return Err(miscounted(operands, Wanted::Exactly(2)));
    };
    let position = Operand::read(2, position)?;
    Ok(Call::Deliver {
        position: position.number,
    })
}

fn discard(operands: &[&[u8]]) -> Result<Call, BadLine>
    ensures { result ≡ spec.discard_of (map (λ word. word.now) operands.now) }
{
    let [position] = operands else {
        return Err(miscounted(operands, Wanted::Exactly(2)));
    };
    let position = Operand::read(2, position)?;
    Ok(Call::Discard {
        position: position.number,
    })
}

fn count(operands: &[&[u8]]) -> Result<Call, BadLine>
    ensures { result ≡ spec.count_of (map (λ word. word.now) operands.now) }
{
    if operands.is_empty() {
        Ok(Call::Count)
    } else {
        Err(miscounted(operands, Wanted::Exactly(1)))
    }
}

fn prune(operands: &[&[u8]]) -> Result<Call, BadLine>
    ensures { result ≡ spec.prune_of (map (λ word. word.now) operands.now) }
{
    let [horizon] = operands else {
        return Err(miscounted(operands, Wanted::Exactly(2)));
    };
    let horizon = Operand::read(2, horizon)?;
    Ok(Call::Prune {
        horizon: horizon.number,
    })
}

// What is wrong with a line that has so many words behind its first.
pub(crate) fn miscounted(operands: &[&[u8]], wanted: Wanted) -> BadLine
    ensures { result ≡ spec.miscounted (map (λ word. word.now) operands.now) wanted }
{
    BadLine::WordCount {
        words: operands.len() + 1,
        wanted,
    }
}

// A number of a line, and its place there.
#[derive(Clone, Copy)]
pub(crate) struct Operand {
    place: usize,
    number: u64,
}

impl Operand {
    // The number that the word at this place is.
    pub(crate) fn read(place: usize, word: &[u8]) -> Result<Operand, BadLine>
        ensures { result ≡ spec.operand place word.now }
    {
        match number_in(word) {
            Some(number) => Ok(Operand { place, number }),
            None => Err(BadLine::NotANumber { place }),
        }
    }

    // A place, leg, worker or key: 0 to 255.
    fn byte(self) -> Result<u8, BadLine>
        ensures { result ≡ spec.up_to 255 self }
    {
        u8::try_from(self.number).map_err(|_| self.above(255))
    }

    // A value: 0 to 2^32 - 1.
    fn value(self) -> Result<u32, BadLine>
        ensures { result ≡ spec.up_to 4294967295 self }
    {
        u32::try_from(self.number).map_err(|_| self.above(4_294_967_295))
    }

    // How many entries a list has room for, or how many records memory has: up to the most that there can be.
    pub(crate) fn room(self, most: usize) -> Result<usize, BadLine>
        ensures { result ≡ spec.up_to most self }
    {
        if self.number <= most as u64 {
            Ok(self.number as usize)
        } else {
            Err(self.above(most as u64))
        }
    }

    // What is wrong with a number that is above the most of its range.
    fn above(self, most: u64) -> BadLine
        ensures { result ≡ spec.above most self }
    {
        BadLine::OutOfRange {
            place: self.place,
            most,
        }
    }
}
