use std::fmt;
use std::time::Duration;

/// The part of a run that is over, and the time that the rest takes if it goes on as it did.
#[derive(Clone, Copy)]
pub struct Estimate {
    /// In percent, rounded down.
    part: u64,
    /// In seconds, rounded up.
    left: u64,
}

impl Estimate {
    /// `over` of all milliseconds of the run are over, and they took that long.
    pub fn new(over: u64, total: u32, took: Duration) -> Estimate {
        let total = u64::from(total);
        let took = u64::try_from(took.as_millis()).unwrap_or(u64::MAX);
        let left = scaled(took, total.saturating_sub(over), over);
        Estimate {
            part: scaled(100, over, total),
            left: left.div_ceil(1000),
        }
    }
}

/// An amount, times the first number by the second; 0 by nothing.
fn scaled(amount: u64, times: u64, by: u64) -> u64 {
    if by == 0 {
        return 0;
    }
    amount.saturating_mul(times) / by
}

impl fmt::Display for Estimate {
    fn fmt<W: fmt::Write>(&self, f: &mut fmt::Formatter<W>) -> fmt::Result {
        let Estimate { part, left } = *self;
        write!(f, "run: {part} %, ")?;
        write_time(f, left)?;
        f.write_str(" left")
    }
}

/// Writes seconds in their two largest units.
fn write_time<W: fmt::Write>(f: &mut fmt::Formatter<W>, seconds: u64) -> fmt::Result {
    let minutes = seconds / 60;
    if minutes == 0 {
        return write!(f, "{seconds} s");
    }
    let hours = minutes / 60;
    if hours == 0 {
        return write!(f, "{minutes} min {} s", seconds % 60);
    }
    write!(f, "{hours} h {} min", minutes % 60)
}
