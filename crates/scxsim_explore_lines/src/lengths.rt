ghost use Rattle.std.specs.Prelude.{◌≡◌, ◌+◌, ◌<◌, ◌≤◌, ◌^◌, ◌-◌, true, if◌then◌else◌};
ghost use Rattle.scxsim_explore_lines.specs.Found.{is_clock, length_in, ms_begun};

use scx_explore::Mode;
use scx_sched::Event;

/// The length of a list: its events or, in the other modes, the milliseconds that it begins.
pub(crate) fn length_in(mode: Mode, events: &[Event]) -> usize
    ensures { result ≡ length_in mode events.now }
{
    match mode {
        Mode::Events => events.len(),
        Mode::Milliseconds | Mode::Workloads => ms_begun(events),
    }
}

/// The milliseconds that a list begins. The first event and each event after a clock begin one.
pub(crate) fn ms_begun(events: &[Event]) -> usize
    ensures { result ≡ ms_begun events.now true }
{
    let mut count = 0;
    let mut is_first = true;
    for event in events {
        count = with_one(count, is_first);
        is_first = is_clock(*event);
    }
    count
}

fn with_one(count: usize, is_one: bool) -> usize
    requires { count < 2 ^ 64 - 1 }
    ensures one { result ≡ (if is_one then count + 1 else count) }
    ensures most { result ≤ count + 1 }
{
    if is_one { count + 1 } else { count }
}

fn is_clock(event: Event) -> bool
    ensures { result ≡ is_clock event }
{
    match event {
        Event::Clock => true,
        Event::Wake(_)
        | Event::Sleep(_)
        | Event::Tick(_)
        | Event::SetWeight(_, _)
        | Event::SetTaskWeight(_, _) => false,
    }
}
