use crate::line::Line;
use crate::pace::Pace;
use scxsim_explore::Watcher;
use std::rt::Clock;

/// Says on standard error how far a search is. Whether that can be written doesn't matter.
#[derive(Drop)]
pub struct SearchProgress<'a, R> {
    rt: &'a R,
    /// None where nothing is said.
    line: Option<Line>,
}

impl<'a, R: Clock + Eprint> SearchProgress<'a, R> {
    /// Begins with the search. Says nothing if `is_seen` is false or the clock can't be read.
    pub fn new(rt: &'a R, is_seen: bool) -> Self {
        let line = if is_seen { Line::new(rt) } else { None };
        SearchProgress { rt, line }
    }
}

impl<R: Clock + Eprint> Watcher for SearchProgress<'_, R> {
    fn watch(&mut self, depth: usize, states: usize, bytes: usize) {
        let Some(line) = &mut self.line else {
            return;
        };
        if let Some(took) = line.took_if_due(self.rt) {
            line.write(self.rt, &Pace::new(depth, states, bytes, took));
        }
    }

    fn pause(&mut self) {
        if let Some(line) = &mut self.line {
            line.take_back(self.rt);
        }
    }
}
