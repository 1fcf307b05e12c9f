use scxsim_commands::Window;
use scxsim_template::{Beginning, End, Stretch, moment_of};

/// The part of a stretch that lies in the window, if it isn't empty. It keeps whether a millisecond ended as it began.
#[inline(always)]
pub(crate) fn part_within(stretch: Stretch, window: Window) -> Option<Stretch> {
    let mut part = stretch;
    if moment_of(stretch.since) < window.from {
        part.since = window
            .from
            .saturating_mul(2)
            .saturating_sub(stretch.since % 2);
        part.beginning = Beginning::GoesOn;
    }
    if window.to < moment_of(stretch.until) {
        part.until = window.to.saturating_mul(2);
        part.end = End::CutOff;
    }
    is_shown(part).then_some(part)
}

/// True if it isn't empty, or is a wait that goes on as the run ends and began by the clock before.
#[inline(always)]
fn is_shown(part: Stretch) -> bool {
    moment_of(part.since) < moment_of(part.until)
        || part.since < part.until && matches!(part.end, End::RunOver)
}
