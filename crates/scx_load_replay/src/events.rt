ghost use Rattle.scx_load_replay.specs.Replayer as replayer;
ghost use Rattle.scx_load_replay.specs.Sources as sources;

use crate::replayer::Replayer;
use crate::source::Source;
use scx_load_driver::Events;
use scx_sched::{Event, Sim};

impl Events for Replayer {
    ghost remaining = { λ r s. replayer.remaining r };

    fn next(&mut self, _sim: &Sim) -> Option<Event> {
        Replayer::next(self)
    }
}

impl Events for Source {
    ghost remaining = { sources.remaining };

    #[inline(always)]
    fn next(&mut self, sim: &Sim) -> Option<Event> {
        Source::next(self, sim)
    }

    #[inline(always)]
    fn skip(&mut self, sim: &mut Sim) {
        Source::skip(self, sim);
    }
}
