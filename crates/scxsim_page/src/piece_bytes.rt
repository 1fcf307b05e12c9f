use scxsim_template::{Beginning, End, Piece, Stretch, moment_of};

/// The CPU of stretches that are drawn together.
const SEVERAL: u8 = 254;

/// When a piece began and its length, as a page has them: 4 bytes each, low byte first. The first byte is the highest
/// one of the number. Of several stretches the last two bytes are the time for which the task was parked.
#[inline(always)]
pub(crate) fn times_of(piece: Piece) -> u64 {
    let (since, length) = match piece {
        Piece::One(stretch) => {
            let since = moment_of(stretch.since);
            let length = moment_of(stretch.until).saturating_sub(since);
            (since, u64::from(low(length).swap_bytes()))
        }
        Piece::Several(joined) => (
            joined.since,
            two(joined.until.saturating_sub(joined.since), joined.parked),
        ),
    };
    (u64::from(low(since).swap_bytes()) << 32) | length
}

/// The rest of it: the task, of 2 bytes, the CPU, how it ended and began, and whether a millisecond ended then, the
/// queue, of 2, and two that are 0. Of several stretches these four are the times for which the task ran and waited.
#[inline(always)]
pub(crate) fn rest_of(piece: Piece) -> u64 {
    match piece {
        Piece::One(stretch) => rest_of_stretch(stretch),
        Piece::Several(joined) => {
            (u64::from(joined.task.swap_bytes()) << 48)
                | (u64::from(SEVERAL) << 40)
                | two(joined.ran, joined.waited)
        }
    }
}

#[inline(always)]
fn rest_of_stretch(stretch: Stretch) -> u64 {
    let odd = (stretch.since % 2 * 64) as u8 | (stretch.until % 2 * 128) as u8;
    let why = end_code(stretch.end) | beginning_code(stretch.beginning) | odd;
    (u64::from(stretch.task.swap_bytes()) << 48)
        | (u64::from(stretch.place) << 40)
        | (u64::from(why) << 32)
        | (u64::from(stretch.queue.swap_bytes()) << 16)
}

/// Two times, of 2 bytes each. Several stretches that are drawn together aren't longer than those hold.
fn two(first: u64, second: u64) -> u64 {
    (u64::from(word(first).swap_bytes()) << 16) | u64::from(word(second).swap_bytes())
}

fn word(time: u64) -> u16 {
    time.min(u64::from(u16::MAX)) as u16
}

/// A moment of a run, which is at most 1,000,000.
fn low(moment: u64) -> u32 {
    moment.min(u64::from(u32::MAX)) as u32
}

fn end_code(end: End) -> u8 {
    match end {
        End::RunOver => 0,
        End::Stopped => 1,
        End::Slept => 2,
        End::Parked => 3,
        End::Ran => 4,
        End::WentOn => 5,
        End::LetGo => 6,
        End::CutOff => 7,
    }
}

fn beginning_code(beginning: Beginning) -> u8 {
    match beginning {
        Beginning::GoesOn => 0,
        Beginning::Woke => 16,
        Beginning::WasStopped => 32,
        Beginning::WasLetGo => 48,
        // As after a stop, with a wait without a tick before it.
        Beginning::HadWaited => 32 | 8,
    }
}
