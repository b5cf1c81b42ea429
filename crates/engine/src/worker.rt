//! A worker, as a type whose every value is one of the eight, so that each has a cache.
ghost use Rattle.std.specs.Prelude.{◌≡◌, ◌<◌, Some, None, if◌then◌else◌};
ghost use Rattle.std.specs.Option.{option_map};
ghost use Rattle.snapshot.specs.Limits.{is_worker};
ghost use Rattle.engine.specs.Workers.{worker_number};

#[derive(Clone, Copy)]
pub(crate) enum Worker {
    W0,
    W1,
    W2,
    W3,
    W4,
    W5,
    W6,
    W7,
}

impl Worker {
    // The worker of this number, if there is one.
    pub(crate) fn numbered(number: u8) -> Option<Worker>
        ensures { option_map worker_number result ≡ (if is_worker number then Some number else None) }
    {
        match number {
            0 => Some(Worker::W0),
            1 => Some(Worker::W1),
            2 => Some(Worker::W2),
            3 => Some(Worker::W3),
            4 => Some(Worker::W4),
            5 => Some(Worker::W5),
            6 => Some(Worker::W6),
            7 => Some(Worker::W7),
            _ => None,
        }
    }

    pub(crate) fn number(self) -> u8
        ensures value { result ≡ worker_number self }
        ensures fits { result < 8 }
    {
        self as u8
    }
}
