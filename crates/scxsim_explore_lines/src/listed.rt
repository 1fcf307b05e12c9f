ghost use Rattle.std.specs.Prelude.{◌≡◌, drop};

use scx_load_driver::Events;
use scx_sched::{Event, Sim};

/// The events of a list, one after another.
#[derive(Drop)]
pub(crate) struct Listed<'a> {
    events: &'a [Event],
    next: usize,
}

impl<'a> Listed<'a> {
    pub(crate) fn new(events: &'a [Event]) -> Listed<'a>
        ensures { drop result.next result.events.now ≡ events.now }
    {
        Listed { events, next: 0 }
    }
}

impl Events for Listed<'_> {
    ghost remaining = { λ l s. drop l.next l.events.now };

    #[tactic(auto, using(crate::proofs::Rest::rest_from, crate::proofs::Rest::no_rest))]
    fn next(&mut self, _sim: &Sim) -> Option<Event> {
        let next = self.next;
        if next < self.events.len() {
            self.next = next + 1;
            Some(self.events[next])
        } else {
            None
        }
    }
}
