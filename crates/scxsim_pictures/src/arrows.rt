use std::alloc::{AllocError, Global};

/// The wake of a task that hasn't stopped since.
#[derive(Clone, Copy)]
struct Woken {
    moment: u64,
    /// The number of its arrow, if a wait that is drawn begins with it.
    arrow: Option<u64>,
}

/// The tasks that have woken and not stopped since, and their arrows: each from a wait that began with a wake to the run
/// that it led to. No two arrows have the same number.
#[derive(Drop)]
pub(crate) struct Arrows {
    woken: Vec<Option<Woken>>,
    /// The number of arrows.
    count: u64,
}

impl Arrows {
    /// None of these tasks has woken.
    pub(crate) fn new(alloc: Global, tasks: usize) -> Result<Arrows, AllocError> {
        Ok(Arrows {
            woken: vec![in alloc; None; tasks]?,
            count: 0,
        })
    }

    pub(crate) fn wake(&mut self, task: u16, moment: u64) {
        if let Some(place) = self.woken.get_mut(task as usize) {
            *place = Some(Woken {
                moment,
                arrow: None,
            });
        }
    }

    /// A wait of the task that began at that moment is drawn. Returns the number of the arrow that begins there, if the task
    /// woke then.
    pub(crate) fn begin(&mut self, task: u16, since: u64) -> Option<u64> {
        let place = self.woken.get_mut(task as usize)?;
        let Woken { moment, .. } = (*place)?;
        if moment != since {
            return None;
        }
        let number = self.count.saturating_add(1);
        *place = Some(Woken {
            moment,
            arrow: Some(number),
        });
        self.count = number;
        Some(number)
    }

    /// The task stops. Returns the number of the arrow that leads to its run, if one does.
    pub(crate) fn stop(&mut self, task: u16) -> Option<u64> {
        let woken = self.woken.get_mut(task as usize)?.take()?;
        woken.arrow
    }
}
