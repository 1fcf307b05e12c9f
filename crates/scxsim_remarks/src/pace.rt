use std::fmt;
use std::time::Duration;

/// The progress of a search, and its speed.
#[derive(Clone, Copy)]
pub struct Pace {
    /// All lists up to this number of events or milliseconds were gone through.
    depth: usize,
    states: usize,
    /// States a second.
    rate: u64,
    /// In millions of bytes, rounded down.
    mb: usize,
}

impl Pace {
    /// The states that were met, their bytes, and the time that they took.
    pub fn new(depth: usize, states: usize, bytes: usize, took: Duration) -> Pace {
        let took = u64::try_from(took.as_millis()).unwrap_or(u64::MAX);
        let rate = if took == 0 {
            0
        } else {
            (states as u64).saturating_mul(1000) / took
        };
        Pace {
            depth,
            states,
            rate,
            mb: bytes / 1_000_000,
        }
    }
}

impl fmt::Display for Pace {
    fn fmt<W: fmt::Write>(&self, f: &mut fmt::Formatter<W>) -> fmt::Result {
        let Pace {
            depth,
            states,
            rate,
            mb,
        } = *self;
        write!(
            f,
            "explore: depth {depth}, {states} states, {rate} a second, {mb} MB"
        )
    }
}
