//! Traces that show what the law of traces says, and that it says something, as lists of calls.
ghost use Rattle.std.specs.Prelude.{◌≡◌};
ghost use Rattle.engine_model.specs.Examples as example;
ghost use Rattle.engine_model.specs.declared.calls.Call.TheVariants as call;

use crate::calls::Call;
use snapshot::{CHAIN_READINGS, WRITE_KEYS};

fn begin(place: u8, worker: u8) -> Call
    ensures { result ≡ call.Begin place worker }
{
    Call::Begin { place, worker }
}

fn fork(place: u8, leg: u8, first_worker: u8, second_worker: u8) -> Call
    ensures { result ≡ call.Fork place leg first_worker second_worker }
{
    Call::Fork {
        place,
        leg,
        first_worker,
        second_worker,
    }
}

fn join(place: u8, first_leg: u8, second_leg: u8, worker: u8) -> Call
    ensures { result ≡ call.Join place first_leg second_leg worker }
{
    Call::Join {
        place,
        first_leg,
        second_leg,
        worker,
    }
}

fn read(place: u8, leg: u8, key: u8) -> Call
    ensures { result ≡ call.Read place leg key }
{
    Call::Read { place, leg, key }
}

fn write(place: u8, leg: u8, key: u8, value: u32) -> Call
    ensures { result ≡ call.Write place leg key value }
{
    Call::Write {
        place,
        leg,
        key,
        value,
    }
}

// Into lists with room for all that a chain may hold.
fn commit(place: u8, leg: u8, clock: u64) -> Call
    ensures { result ≡ call.Commit place leg clock 32 8 }
{
    Call::Commit {
        place,
        leg,
        clock,
        readings_room: CHAIN_READINGS,
        writes_room: WRITE_KEYS,
    }
}

fn prune(horizon: u64) -> Call
    ensures { result ≡ call.Prune horizon }
{
    Call::Prune { horizon }
}

/// A late notice, a split chain and a dropped version meet. Key 7 is the dock's zone, 9 its set record, 11 the guard's orders.
pub fn break_in() -> [Call; 21]
    ensures calls { result ≡ example.break_in }
    ensures shows { example.BreakIn }
{
    [
        // The zone is 5 from time 10 on.
        begin(0, 1),
        write(0, 0, 7, 5),
        commit(0, 0, 10),
        // The set record is 3 from time 20 on.
        begin(0, 2),
        write(0, 0, 9, 3),
        commit(0, 0, 20),
        // Worker 1 has read the zone, and holds it as known up to 20.
        begin(0, 1),
        read(0, 0, 7),
        commit(0, 0, 0),
        // The zone is 6 from time 30 on, and the notice of that for worker 1 is late.
        begin(0, 4),
        write(0, 0, 7, 6),
        commit(0, 0, 30),
        // A chain splits. One leg reads the zone from worker 1's cache, the other the set record, and they are joined.
        begin(0, 3),
        fork(0, 0, 1, 2),
        read(0, 1, 7),
        read(0, 2, 9),
        join(0, 1, 2, 5),
        // The joined leg asks the store for the zone; then a prune drops that version.
        read(0, 3, 7),
        prune(30),
        // The chain commits all the same: what it has read was true together at time 20.
        write(0, 3, 11, 1),
        commit(0, 3, 40),
    ]
}

/// A chain reads the zone, and before it commits another one writes it. By rules under which narrowing forgets the promise, a
/// commit after these calls shows what was not so.
pub fn written_behind() -> [Call; 8]
    ensures calls { result ≡ example.written_behind }
    ensures breaks { example.IgnoredPromise }
{
    [
        begin(0, 1),
        write(0, 0, 7, 5),
        commit(0, 0, 10),
        begin(0, 1),
        read(0, 0, 7),
        begin(1, 3),
        write(1, 0, 7, 6),
        commit(1, 0, 30),
    ]
}

/// A chain that has read at time 10 reads the old zone after another one has written it, and commits; the next one reads the old
/// zone from worker 1's cache, where the first has left it. By rules under which a promise is one too late, the first chain's
/// account lists a reading that is not true, and a commit after these calls shows what was not so.
pub fn read_from_cache() -> [Call; 12]
    ensures calls { result ≡ example.read_from_cache }
    ensures lists { example.LatePromiseListed }
    ensures breaks { example.LatePromise }
{
    [
        begin(0, 1),
        write(0, 0, 7, 5),
        commit(0, 0, 10),
        begin(0, 1),
        read(0, 0, 9),
        begin(1, 2),
        write(1, 0, 7, 6),
        commit(1, 0, 30),
        read(0, 0, 7),
        commit(0, 0, 0),
        begin(0, 1),
        read(0, 0, 7),
    ]
}
