use crate::estimate::Estimate;
use crate::line::Line;
use scx_sched::Eject;
use scxsim_runs::Listener;
use std::rt::Clock;

/// Says on standard error how far a run is. Whether that can be written doesn't matter.
#[derive(Drop)]
pub struct Progress<'a, R> {
    rt: &'a R,
    /// None where nothing is said.
    line: Option<Line>,
    ejected: Option<Eject>,
}

impl<'a, R: Clock + Eprint> Progress<'a, R> {
    /// Begins with the run. Says nothing if `is_seen` is false or the clock can't be read.
    pub fn new(rt: &'a R, is_seen: bool) -> Self {
        let line = if is_seen { Line::new(rt) } else { None };
        Progress {
            rt,
            line,
            ejected: None,
        }
    }

    /// Why and when the policy was ejected in a run that came to its end, if it was.
    pub fn ejected(&self) -> Option<Eject> {
        self.ejected
    }

    /// Takes back what was said of a run that came to no end.
    pub fn end(self) {
        if let Some(mut line) = self.line {
            line.take_back(self.rt);
        }
    }
}

impl<R: Clock + Eprint> Listener for Progress<'_, R> {
    #[inline(always)]
    fn hear(&mut self, over: u64, total: u32) {
        if let Some(line) = &mut self.line {
            say(line, self.rt, over, total);
        }
    }

    fn hear_end(&mut self, ejected: Option<Eject>) {
        self.ejected = ejected;
    }
}

/// Writes the line where it is time to, and takes it back at the run's end.
#[inline(never)]
fn say<R: Clock + Eprint>(line: &mut Line, rt: &R, over: u64, total: u32) {
    if over >= u64::from(total) {
        line.take_back(rt);
    } else if let Some(took) = line.took_if_due(rt) {
        line.write(rt, &Estimate::new(over, total, took));
    }
}
